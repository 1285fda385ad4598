// Port order 7: realloc. Its own place first; a neighbour is unlinked only when the sum is known to be enough.
#![tactic(auto, using(crate::proofs::Laws::laws))]

ghost use Rattle.std.specs.Prelude.{◌≡◌, ◌+◌, ◌≤◌, length};
ghost use Rattle.words.specs.Edition.{wide};
ghost use Rattle.chunk.specs.Running.{Becomes};
ghost use Rattle.malloc.specs.Granting.{Grants};
ghost use Rattle.realloc.specs.Trying.{Tries};
ghost use Rattle.realloc.specs.ReallocBytes.{cut_back, shrink_b, grow_top, grow_dv, grow_binned, try_realloc, copy_up, copy_words, move_block, realloc_b};

use chunk::access::{ChunkOff, difference, plus_offset, sum};
use chunk::heads::{clear_pinuse, set_inuse, set_size_and_pinuse_of_free_chunk, set_top_head};
use chunk::heap::Heap;
use free::dispose_chunk;
use malloc::malloc_chunk;
use treebin::bins::unlink_chunk;

// p, in use and nb + n bytes long, is cut to nb, and the rest is given back.
pub fn cut_back(h: &mut Heap, p: ChunkOff, nb: u64, n: u64)
    ensures { Becomes h.old h.new (cut_back wide h.old.image.now h.old.words.now p.0 nb n) }
{
    let rest = plus_offset(p, nb);
    set_inuse(h.words, p, nb);
    set_inuse(h.words, rest, n);
    dispose_chunk(h, rest, n);
}

// A rest of 32 or more is split off, less stays with the block.
fn shrink(h: &mut Heap, p: ChunkOff, nb: u64, n: u64)
    ensures { Becomes h.old h.new (shrink_b wide h.old.image.now h.old.words.now p.0 nb n) }
{
    if n >= 32 {
        cut_back(h, p, nb, n);
    }
}

// The chunk and the top together are all bytes.
fn grow_top(h: &mut Heap, p: ChunkOff, all: u64, nb: u64) -> bool
    ensures { Tries h.old h.new result (grow_top wide h.old.image.now h.old.words.now p.0 all nb) }
{
    if all <= nb {
        return false;
    }
    let rest = plus_offset(p, nb);
    h.set_top(rest, all - nb);
    set_inuse(h.words, p, nb);
    set_top_head(h.words, rest, all - nb);
    true
}

// The chunk and the spare chunk together are all bytes.
fn grow_dv(h: &mut Heap, p: ChunkOff, all: u64, nb: u64) -> bool
    ensures { Tries h.old h.new result (grow_dv wide h.old.image.now h.old.words.now p.0 all nb) }
{
    if all < nb {
        return false;
    }
    if all - nb < 32 {
        h.no_dv();
        set_inuse(h.words, p, all);
        return true;
    }
    let rest = plus_offset(p, nb);
    h.set_dv(rest, all - nb);
    set_inuse(h.words, p, nb);
    set_size_and_pinuse_of_free_chunk(h.words, rest, all - nb);
    clear_pinuse(h.words, plus_offset(p, all));
    true
}

fn grow_binned(h: &mut Heap, p: ChunkOff, old: u64, next: ChunkOff, nb: u64) -> bool
    ensures { Tries h.old h.new result (grow_binned wide h.old.image.now h.old.words.now p.0 old next.0 nb) }
{
    let b = h.size(next);
    let all = sum(old, b);
    if all < nb {
        return false;
    }
    unlink_chunk(h, next, b);
    set_inuse(h.words, p, all);
    shrink(h, p, nb, all - nb);
    true
}

// Whether p now holds nb in place. Where it does not, nothing has changed.
fn try_realloc_chunk(h: &mut Heap, p: ChunkOff, nb: u64) -> bool
    ensures { Tries h.old h.new result (try_realloc wide h.old.image.now h.old.words.now p.0 nb) }
{
    let old = h.size(p);
    let next = plus_offset(p, old);
    if nb <= old {
        shrink(h, p, nb, old - nb);
        return true;
    }
    if next == h.top() {
        let all = sum(old, h.topsize());
        return grow_top(h, p, all, nb);
    }
    if next == h.dv() {
        let all = sum(old, h.dvsize());
        return grow_dv(h, p, all, nb);
    }
    if h.cinuse(next) {
        return false;
    }
    grow_binned(h, p, old, next, nb)
}

// Both parts are whole. Word by word from the first on: where the parts overlap, a word copied is a word read.
fn copy_up(w: &mut [u64], a: usize, b: usize, n: usize)
    requires { (a + n ≤ length w.old) × (b + n ≤ length w.old) }
    ensures { w.new ≡ copy_up w.old a b n }
{
    for i in 0..n {
        w[b + i] = w[a + i];
    }
}

// Copies n words from word a on to word b on. Nothing where either part is not whole.
fn copy_words(w: &mut [u64], a: usize, b: usize, n: usize)
    ensures { w.new ≡ copy_words w.old a b n }
{
    let len = w.len();
    if len < n {
        return;
    }
    if len - n < a {
        return;
    }
    if len - n < b {
        return;
    }
    copy_up(w, a, b, n);
}

// The owner's words of p, size - 8 bytes, go to q, and p is given back.
fn move_block(h: &mut Heap, p: ChunkOff, q: ChunkOff)
    ensures { Becomes h.old h.new (move_block wide h.old.image.now h.old.words.now p.0 q.0) }
{
    let old = h.size(p);
    let a = (p.0 / 8 + 2) as usize;
    let b = (q.0 / 8 + 2) as usize;
    let n = (difference(old, 8) / 8) as usize;
    copy_words(h.words, a, b, n);
    dispose_chunk(h, p, old);
}

// The chunk that holds nb from now on; where there is no room nothing has changed.
pub fn realloc_chunk(h: &mut Heap, p: ChunkOff, nb: u64) -> Option<ChunkOff>
    ensures { Grants h.old h.new result (realloc_b wide h.old.image.now h.old.words.now p.0 nb) }
{
    if try_realloc_chunk(h, p, nb) {
        return p.known();
    }
    let q = malloc_chunk(h, nb)?;
    move_block(h, p, q);
    Some(q)
}
