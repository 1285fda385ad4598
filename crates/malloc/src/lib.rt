// Port order 5: malloc on a heap at work. There may be no room, and then nothing has changed.
#![tactic(auto, using(crate::proofs::Laws::laws))]

ghost use Rattle.std.specs.Prelude.{◌≢◌};
ghost use Rattle.words.specs.Edition.{wide, no_link};
ghost use Rattle.chunk.specs.Running.{Becomes};
ghost use Rattle.treebin.specs.Found.{IsFind};
ghost use Rattle.treebin.specs.SearchBytes.{best, best_above, best_tree};
ghost use Rattle.malloc.specs.MallocBytes.{settle_b, serve_b, malloc_top, cut_dv, malloc_dv, take_small, take_fuller, take_tree, small_tree, malloc_fuller, malloc_small, malloc_find, malloc_b};
ghost use Rattle.malloc.specs.Granting.{rest_of, Replies, Grants};

use chunk::access::{ChunkOff, NONE, difference, plus_offset, sum};
use chunk::heads::{
    set_inuse_and_pinuse, set_size_and_pinuse_of_free_chunk, set_size_and_pinuse_of_inuse_chunk,
    set_top_head,
};
use chunk::heap::Heap;
use chunk::image::Small;
use index::bin_map::{filled_from, own_or_next};
use index::sizes::{small_index, small_index2size};
use smallbin::unlink_first_small_chunk;
use treebin::bins::{insert_chunk, replace_dv};
use treebin::search::{Found, best_from, best_tree};
use treebin::unlink::unlink_large_chunk;

// Where the rest of a chunk goes: it becomes dv, or it is binned.
#[derive(Clone, Copy)]
enum Rest {
    Dv,
    Bin,
}

fn settle(h: &mut Heap, to: Rest, c: ChunkOff, n: u64)
    ensures { Becomes h.old h.new (settle_b wide (rest_of to) h.old.image.now h.old.words.now c.0 n) }
{
    match to {
        Rest::Dv => replace_dv(h, c, n),
        Rest::Bin => insert_chunk(h, c, n),
    }
}

// c, in no bin, is nb + n bytes long: a rest of less than 32 stays with the block.
fn split(h: &mut Heap, to: Rest, c: ChunkOff, nb: u64, n: u64)
    ensures { Becomes h.old h.new (serve_b wide (rest_of to) h.old.image.now h.old.words.now c.0 nb n) }
{
    if n < 32 {
        set_inuse_and_pinuse(h.words, c, sum(nb, n));
    } else {
        let rest = plus_offset(c, nb);
        set_size_and_pinuse_of_inuse_chunk(h.words, c, nb);
        set_size_and_pinuse_of_free_chunk(h.words, rest, n);
        settle(h, to, rest, n);
    }
}

fn malloc_top(h: &mut Heap, nb: u64) -> ChunkOff
    ensures { Replies h.old h.new result.0 (malloc_top wide h.old.image.now h.old.words.now nb) }
{
    let ts = h.topsize();
    if ts <= nb {
        return ChunkOff(NONE);
    }
    let p = h.top();
    let rest = plus_offset(p, nb);
    h.set_top(rest, ts - nb);
    set_top_head(h.words, rest, ts - nb);
    set_size_and_pinuse_of_inuse_chunk(h.words, p, nb);
    p
}

// The spare chunk d of s bytes, of which n are left.
fn cut_dv(h: &mut Heap, d: ChunkOff, s: u64, nb: u64, n: u64) -> ChunkOff
    ensures { Replies h.old h.new result.0 (cut_dv wide h.old.image.now h.old.words.now d.0 s nb n) }
{
    if n < 32 {
        h.no_dv();
        set_inuse_and_pinuse(h.words, d, s);
        return d;
    }
    let rest = plus_offset(d, nb);
    h.set_dv(rest, n);
    set_size_and_pinuse_of_inuse_chunk(h.words, d, nb);
    set_size_and_pinuse_of_free_chunk(h.words, rest, n);
    d
}

fn malloc_dv(h: &mut Heap, nb: u64) -> ChunkOff
    ensures { Replies h.old h.new result.0 (malloc_dv wide h.old.image.now h.old.words.now nb) }
{
    let s = h.dvsize();
    if s < nb {
        return malloc_top(h, nb);
    }
    let d = h.dv();
    cut_dv(h, d, s, nb, s - nb)
}

// The newest of small bin j, whole.
fn take_small(h: &mut Heap, j: u32) -> ChunkOff
    ensures { Replies h.old h.new result.0 (take_small wide h.old.image.now h.old.words.now j) }
{
    let p = h.bin_at::<Small>(j);
    unlink_first_small_chunk(h, p, j);
    set_inuse_and_pinuse(h.words, p, small_index2size(j));
    p
}

// The newest of a fuller small bin, cut.
fn take_fuller(h: &mut Heap, j: u32, nb: u64) -> ChunkOff
    ensures { Replies h.old h.new result.0 (take_fuller wide h.old.image.now h.old.words.now j nb) }
{
    let p = h.bin_at::<Small>(j);
    unlink_first_small_chunk(h, p, j);
    split(h, Rest::Dv, p, nb, difference(small_index2size(j), nb));
    p
}

// A find among the trees, cut.
fn take_tree(h: &mut Heap, to: Rest, nb: u64, b: Found) -> ChunkOff
    ensures { Replies h.old h.new result.0 (take_tree wide (rest_of to) h.old.image.now h.old.words.now nb (best b.at.0 b.rsize)) }
{
    unlink_large_chunk(h, b.at);
    split(h, to, b.at, nb, b.rsize);
    b.at
}

// The trees' searches, on a heap at work.
fn tree_above(h: &Heap, i: u32, nb: u64) -> Option<Found>
    ensures { IsFind result (best_above wide h.now.image.now h.now.words.now i nb) }
{
    best_from(h.image, h.words, i, nb)
}

fn tree_for(h: &Heap, nb: u64) -> Option<Found>
    ensures { IsFind result (best_tree wide h.now.image.now h.now.words.now nb) }
{
    best_tree(h.image, h.words, nb)
}

fn tmalloc_small(h: &mut Heap, nb: u64) -> ChunkOff
    ensures { Replies h.old h.new result.0 (small_tree wide h.old.image.now h.old.words.now nb (best_above wide h.old.image.now h.old.words.now 0 nb)) }
{
    match tree_above(h, 0, nb) {
        Some(b) => take_tree(h, Rest::Dv, nb, b),
        None => malloc_top(h, nb),
    }
}

fn malloc_fuller(h: &mut Heap, nb: u64) -> ChunkOff
    ensures { Replies h.old h.new result.0 (malloc_fuller wide h.old.image.now h.old.words.now nb) }
{
    match filled_from(h.map::<Small>(), small_index(nb)) {
        Some(j) => take_fuller(h, j, nb),
        None => tmalloc_small(h, nb),
    }
}

fn malloc_small(h: &mut Heap, nb: u64) -> ChunkOff
    ensures { Replies h.old h.new result.0 (malloc_small wide h.old.image.now h.old.words.now nb) }
{
    if let Some(j) = own_or_next(h.map::<Small>(), small_index(nb)) {
        return take_small(h, j);
    }
    if nb <= h.dvsize() {
        return malloc_dv(h, nb);
    }
    malloc_fuller(h, nb)
}

// A find of b.rsize bytes too many, unless dv fits as well or better.
fn malloc_found(h: &mut Heap, nb: u64, b: Found) -> ChunkOff
    requires { b.at.0 ≢ no_link wide }
    ensures { Replies h.old h.new result.0 (malloc_find wide h.old.image.now h.old.words.now nb (best b.at.0 b.rsize)) }
{
    let s = h.dvsize();
    if s < nb {
        return take_tree(h, Rest::Bin, nb, b);
    }
    if b.rsize < s - nb {
        return take_tree(h, Rest::Bin, nb, b);
    }
    malloc_dv(h, nb)
}

fn malloc_large(h: &mut Heap, nb: u64) -> ChunkOff
    ensures { Replies h.old h.new result.0 (malloc_find wide h.old.image.now h.old.words.now nb (best_tree wide h.old.image.now h.old.words.now nb)) }
{
    match tree_for(h, nb) {
        Some(b) => malloc_found(h, nb, b),
        None => malloc_dv(h, nb),
    }
}

fn malloc(h: &mut Heap, nb: u64) -> ChunkOff
    ensures { Replies h.old h.new result.0 (malloc_b wide h.old.image.now h.old.words.now nb) }
{
    if nb < 256 {
        malloc_small(h, nb)
    } else {
        malloc_large(h, nb)
    }
}

// The chunk that holds nb from now on.
pub fn malloc_chunk(h: &mut Heap, nb: u64) -> Option<ChunkOff>
    ensures { Grants h.old h.new result (malloc_b wide h.old.image.now h.old.words.now nb) }
{
    malloc(h, nb).known()
}
