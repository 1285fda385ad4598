// Port order 6: free and dispose_chunk, one function for both. A free chunk before is let go first, then what lies after is looked at.
#![tactic(auto, using(crate::proofs::Laws::laws))]

ghost use Rattle.std.specs.Prelude.{true, false};
ghost use Rattle.words.specs.Edition.{wide};
ghost use Rattle.chunk.specs.Running.{Becomes};
ghost use Rattle.free.specs.FreeBytes.{away_b, join_top, join_dv, join_binned, forward_b, back_b, dispose_b, free_b};

use chunk::access::{ChunkOff, minus_offset, plus_offset, sum};
use chunk::heads::{set_free_with_pinuse, set_size_and_pinuse_of_free_chunk, set_top_head};
use chunk::heap::Heap;
use treebin::bins::{insert_chunk, unlink_chunk};

// mine: the free bytes merged with the spare chunk, and are that from now on.
fn put_away(h: &mut Heap, p: ChunkOff, n: u64, mine: bool)
    ensures { Becomes h.old h.new (away_b wide mine h.old.image.now h.old.words.now p.0 n) }
{
    if mine {
        h.set_dv(p, n);
    } else {
        insert_chunk(h, p, n);
    }
}

fn join_top(h: &mut Heap, p: ChunkOff, n: u64)
    ensures { Becomes h.old h.new (join_top wide h.old.image.now h.old.words.now p.0 n) }
{
    let ts = sum(h.topsize(), n);
    h.set_top(p, ts);
    set_top_head(h.words, p, ts);
}

fn join_dv(h: &mut Heap, p: ChunkOff, n: u64)
    ensures { Becomes h.old h.new (join_dv wide h.old.image.now h.old.words.now p.0 n) }
{
    let ds = sum(h.dvsize(), n);
    h.set_dv(p, ds);
    set_size_and_pinuse_of_free_chunk(h.words, p, ds);
}

fn join_binned(h: &mut Heap, p: ChunkOff, n: u64, next: ChunkOff, mine: bool)
    ensures { Becomes h.old h.new (join_binned wide mine h.old.image.now h.old.words.now p.0 n next.0) }
{
    let b = h.size(next);
    let all = sum(n, b);
    unlink_chunk(h, next, b);
    set_size_and_pinuse_of_free_chunk(h.words, p, all);
    put_away(h, p, all, mine);
}

// p is merged with what lies before it: now what lies after.
fn dispose_forward(h: &mut Heap, p: ChunkOff, n: u64, next: ChunkOff, mine: bool)
    ensures { Becomes h.old h.new (forward_b wide mine h.old.image.now h.old.words.now p.0 n next.0) }
{
    if h.cinuse(next) {
        set_free_with_pinuse(h.words, p, n, next);
        put_away(h, p, n, mine);
    } else if next == h.top() {
        join_top(h, p, n);
    } else if next == h.dv() {
        join_dv(h, p, n);
    } else {
        join_binned(h, p, n, next, mine);
    }
}

// The chunk before p is free.
fn dispose_back(h: &mut Heap, p: ChunkOff, n: u64, next: ChunkOff)
    ensures { Becomes h.old h.new (back_b wide h.old.image.now h.old.words.now p.0 n next.0) }
{
    let b = h.get(p, 0);
    let prev = minus_offset(p, b);
    let all = sum(n, b);
    if prev == h.dv() {
        h.no_dv();
        dispose_forward(h, prev, all, next, true);
    } else {
        unlink_chunk(h, prev, b);
        dispose_forward(h, prev, all, next, false);
    }
}

pub fn dispose_chunk(h: &mut Heap, p: ChunkOff, n: u64)
    ensures { Becomes h.old h.new (dispose_b wide h.old.image.now h.old.words.now p.0 n) }
{
    let next = plus_offset(p, n);
    if h.pinuse(p) {
        dispose_forward(h, p, n, next, false);
    } else {
        dispose_back(h, p, n, next);
    }
}

pub fn free_chunk(h: &mut Heap, p: ChunkOff)
    ensures { Becomes h.old h.new (free_b wide h.old.image.now h.old.words.now p.0) }
{
    let n = h.size(p);
    dispose_chunk(h, p, n);
}
