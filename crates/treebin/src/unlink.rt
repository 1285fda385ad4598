// Unlinking: a ring member's next takes its place, else the deepest descendant, child 1 before child 0.
#![tactic(auto, using(crate::proofs::UnlinkLaws::laws))]

ghost use Rattle.std.specs.Prelude.{◌≡◌, eqb};
ghost use Rattle.words.specs.Logic.{pick};
ghost use Rattle.words.specs.Edition.{wide};
ghost use Rattle.chunk.specs.Bytes.{word, put, store};
ghost use Rattle.chunk.specs.Running.{Becomes, Writes};
ghost use Rattle.treebin.specs.TreeBytes.{seat, last_side, deep_b, pop_w, pop_heir, lead_r, lead_w, adopt_w, replace_tree, unlink_large};

use crate::insert::{LEVELS, Place};
use chunk::access::{ChunkOff, NONE, ROOT, put};
use chunk::heap::Heap;
use chunk::image::Tree;
use smallbin::join;

// The child word to go down by.
fn last_side(h: &Heap, t: ChunkOff) -> u32
    ensures { result ≡ last_side wide h.now.words.now t.0 }
{
    if h.get(t, 5) == NONE { 4 } else { 5 }
}

// The child word that holds the deepest descendant below the child word side of c.
fn deepest(h: &Heap, c: ChunkOff, side: u32) -> Place
    ensures { seat result.at.0 result.side ≡ deep_b wide h.now.words.now 64 c.0 side }
{
    let mut t = c;
    let mut k = side;
    for _ in 0..LEVELS {
        let child = h.link(t, k);
        let below = last_side(h, child);
        if h.get(child, below) == NONE {
            break;
        }
        t = child;
        k = below;
    }
    Place { at: t, side: k }
}

// A lone node's heir, taken from its place.
fn pop_heir(h: &mut Heap, c: ChunkOff) -> ChunkOff
    ensures answer { result.0 ≡ pop_heir wide h.old.words.now c.0 }
    ensures words { Writes h.old h.new (pop_w wide h.old.words.now c.0) }
{
    let side = last_side(h, c);
    if h.get(c, side) == NONE {
        return ChunkOff(NONE);
    }
    let s = deepest(h, c, side);
    let heir = h.link(s.at, s.side);
    put(h.words, s.at, s.side, NONE);
    heir
}

// Child 0 is looked at first: a node that is no child 0 is child 1.
fn child_slot(h: &Heap, up: ChunkOff, c: ChunkOff) -> u32
    ensures { result ≡ pick (eqb (word wide h.now.words.now up.0 4) c.0) 4 5 }
{
    if h.get(up, 4) == c.0 { 4 } else { 5 }
}

// What led to c leads to v.
fn lead_to(h: &mut Heap, c: ChunkOff, up: ChunkOff, v: ChunkOff)
    ensures { Becomes h.old h.new (store (lead_r wide h.old.image.now h.old.words.now c.0 up.0 v.0) (lead_w wide h.old.words.now c.0 up.0 v.0)) }
{
    if up.0 == ROOT {
        let i = (h.get(c, 7) % 32) as u32;
        h.relink::<Tree>(i, v);
    } else {
        let side = child_slot(h, up, c);
        put(h.words, up, side, v.0);
    }
}

// x and y get the parent v.
fn set_parent(w: &mut [u64], v: ChunkOff, x: ChunkOff, y: ChunkOff)
    ensures { w.new ≡ put wide (put wide w.old x.0 6 v.0) y.0 6 v.0 }
{
    put(w, x, 6, v.0);
    put(w, y, 6, v.0);
}

// v gets the parent up and the children x and y.
fn adopt(w: &mut [u64], v: ChunkOff, up: ChunkOff, x: ChunkOff, y: ChunkOff)
    ensures { w.new ≡ adopt_w wide w.old v.0 up.0 x.0 y.0 }
{
    put(w, v, 6, up.0);
    put(w, v, 4, x.0);
    put(w, v, 5, y.0);
    set_parent(w, v, x, y);
}

// c's place in the tree, if it has one, goes to v.
fn replace_tree(h: &mut Heap, c: ChunkOff, v: ChunkOff)
    ensures { Becomes h.old h.new (replace_tree wide h.old.image.now h.old.words.now c.0 v.0) }
{
    let up = h.link(c, 6);
    if up.0 == NONE {
        return;
    }
    let x = h.link(c, 4);
    let y = h.link(c, 5);
    lead_to(h, c, up, v);
    if v.0 != NONE {
        adopt(h.words, v, up, x, y);
    }
}

pub fn unlink_large_chunk(h: &mut Heap, c: ChunkOff)
    ensures { Becomes h.old h.new (unlink_large wide h.old.image.now h.old.words.now c.0) }
{
    let b = h.link(c, 3);
    if b.0 == c.0 {
        let v = pop_heir(h, c);
        replace_tree(h, c, v);
    } else {
        let f = h.link(c, 2);
        join(h.words, f, b);
        replace_tree(h, c, b);
    }
}
