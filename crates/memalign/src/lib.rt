// Port order 8: memalign. The alignment is of the block's offset, one of 32 to 4,096; any number may be handed in.
#![tactic(auto, using(crate::proofs::Laws::laws))]

ghost use Rattle.std.specs.Prelude.{◌≡◌, ◌%◌};
ghost use Rattle.words.specs.Edition.{wide};
ghost use Rattle.chunk.specs.Running.{Becomes};
ghost use Rattle.malloc.specs.Granting.{Replies, Grants};
ghost use Rattle.memalign.specs.MemalignBytes.{lead_of, give_lead_b, give_tail_b, trim_b, memalign_b};

use chunk::access::{ChunkOff, difference, plus_offset, sum, to_mem};
use chunk::heads::set_inuse;
use chunk::heap::Heap;
use free::dispose_chunk;
use index::sizes::request2size;
use malloc::malloc_chunk;
use realloc::cut_back;

// The bytes before the first good place in p: 0 where p is one, else more than 32.
fn lead_of(p: ChunkOff, alignment: u64) -> u64
    ensures { result ≡ lead_of wide p.0 alignment }
{
    if alignment == 0 {
        return 0;
    }
    let over = to_mem(p).0 % alignment;
    if over == 0 {
        return 0;
    }
    let lead = difference(alignment, over);
    if lead <= 32 {
        return sum(lead, alignment);
    }
    lead
}

fn give_lead(h: &mut Heap, p: ChunkOff, lead: u64)
    ensures { Becomes h.old h.new (give_lead_b wide h.old.image.now h.old.words.now p.0 lead) }
{
    let n = h.size(p);
    set_inuse(h.words, plus_offset(p, lead), difference(n, lead));
    set_inuse(h.words, p, lead);
    dispose_chunk(h, p, lead);
}

fn give_tail(h: &mut Heap, p: ChunkOff, nb: u64)
    ensures { Becomes h.old h.new (give_tail_b wide h.old.image.now h.old.words.now p.0 nb) }
{
    let n = h.size(p);
    if sum(nb, 32) < n {
        cut_back(h, p, nb, difference(n, nb));
    }
}

// Lead and tail go back.
fn trim(h: &mut Heap, p: ChunkOff, lead: u64, nb: u64) -> ChunkOff
    ensures { Replies h.old h.new result.0 (trim_b wide h.old.image.now h.old.words.now p.0 lead nb) }
{
    if lead == 0 {
        give_tail(h, p, nb);
        return p;
    }
    let q = plus_offset(p, lead);
    give_lead(h, p, lead);
    give_tail(h, q, nb);
    q
}

pub fn memalign_chunk(h: &mut Heap, alignment: u64, nb: u64) -> Option<ChunkOff>
    ensures { Grants h.old h.new result (memalign_b wide h.old.image.now h.old.words.now alignment nb) }
{
    let p = malloc_chunk(h, request2size(sum(nb, sum(alignment, 24))))?;
    trim(h, p, lead_of(p, alignment), nb).known()
}
