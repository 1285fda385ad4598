// Both kinds of bin, by the size; and the spare chunk.
#![tactic(auto, using(crate::proofs::BinsLaws::laws))]

ghost use Rattle.std.specs.Prelude.{◌≡◌};
ghost use Rattle.words.specs.Edition.{wide};
ghost use Rattle.chunk.specs.Running.{Becomes};
ghost use Rattle.treebin.specs.Binning.{insert_chunk, unlink_chunk, replace_dv};

use crate::insert::insert_large_chunk;
use crate::unlink::unlink_large_chunk;
use chunk::access::ChunkOff;
use chunk::heap::Heap;
use smallbin::{insert_small_chunk, unlink_small_chunk};

pub fn insert_chunk(h: &mut Heap, c: ChunkOff, n: u64)
    ensures { Becomes h.old h.new (insert_chunk wide h.old.image.now h.old.words.now c.0 n) }
{
    if n < 256 {
        insert_small_chunk(h, c, n);
    } else {
        insert_large_chunk(h, c, n);
    }
}

pub fn unlink_chunk(h: &mut Heap, c: ChunkOff, n: u64)
    ensures { Becomes h.old h.new (unlink_chunk wide h.old.image.now h.old.words.now c.0 n) }
{
    if n < 256 {
        unlink_small_chunk(h, c, n);
    } else {
        unlink_large_chunk(h, c);
    }
}

pub fn replace_dv(h: &mut Heap, c: ChunkOff, n: u64)
    ensures { Becomes h.old h.new (replace_dv wide h.old.image.now h.old.words.now c.0 n) }
{
    let d = h.dv();
    let s = h.dvsize();
    if s != 0 {
        insert_chunk(h, d, s);
    }
    h.set_dv(c, n);
}
