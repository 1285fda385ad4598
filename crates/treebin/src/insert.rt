// Insertion: a newcomer becomes the root, a child, or the last of a ring.
#![tactic(auto, using(crate::proofs::InsertLaws::laws))]

ghost use Rattle.std.specs.Prelude.{◌≡◌};
ghost use Rattle.words.specs.Edition.{wide, no_link};
ghost use Rattle.chunk.specs.Bytes.{put};
ghost use Rattle.chunk.specs.Running.{Becomes};
ghost use Rattle.treebin.specs.Seats.{HasWord, seat_of};
ghost use Rattle.treebin.specs.TreeBytes.{child_word, next_key, seek_b, tie_w, slot_w, ring_w, seat_w, insert_large};

use chunk::access::{ChunkOff, NONE, ROOT, link, put};
use chunk::heap::Heap;
use chunk::image::Tree;
use index::tree_bin::{child_side, compute_tree_index, first_key, next_key};

// The bound of every walk: no held tree is that deep.
pub const LEVELS: u32 = 64;

// A child word of a node.
#[derive(Clone, Copy)]
pub struct Place {
    pub at: ChunkOff,
    pub side: u32,
}

// Where a newcomer goes: below a child word that leads nowhere, or into the ring of a node of its size.
#[derive(Clone, Copy)]
enum Seat {
    Below(Place),
    InRing(ChunkOff),
}

// The child word that the highest bit of a key chooses.
pub fn child_word(key: u64) -> u32
    ensures { result ≡ child_word wide key }
{
    let s = child_side(key);
    4 + s as u32
}

// Where a size goes below a root.
fn seek(h: &Heap, root: ChunkOff, n: u64, key: u64) -> Seat
    ensures seat { seat_of result ≡ seek_b wide h.now.words.now n 64 root.0 key }
    ensures word { HasWord result }
{
    let mut t = root;
    let mut k = key;
    for _ in 0..LEVELS {
        if h.size(t) == n {
            return Seat::InRing(t);
        }
        let side = child_word(k);
        let c = h.link(t, side);
        if c.0 == NONE {
            return Seat::Below(Place { at: t, side });
        }
        t = c;
        k = next_key(k);
    }
    Seat::InRing(t)
}

// A node of bin i without children.
fn leaf(w: &mut [u64], c: ChunkOff, i: u32)
    ensures { w.new ≡ put wide (put wide (put wide w.old c.0 4 (no_link wide)) c.0 5 (no_link wide)) c.0 7 i }
{
    put(w, c, 4, NONE);
    put(w, c, 5, NONE);
    put(w, c, 7, i as u64);
}

// c as a lone node without children, below up.
fn tie(w: &mut [u64], c: ChunkOff, up: ChunkOff, i: u32)
    ensures { w.new ≡ tie_w wide w.old c.0 up.0 i }
{
    put(w, c, 6, up.0);
    put(w, c, 2, c.0);
    put(w, c, 3, c.0);
    leaf(w, c, i);
}

fn link_slot(w: &mut [u64], c: ChunkOff, i: u32, t: ChunkOff, side: u32)
    ensures { w.new ≡ slot_w wide w.old c.0 i t.0 side }
{
    put(w, t, side, c.0);
    tie(w, c, t, i);
}

// c stands in a ring before t, behind f.
fn link_between(w: &mut [u64], c: ChunkOff, t: ChunkOff, f: ChunkOff)
    ensures { w.new ≡ put wide (put wide (put wide (put wide w.old f.0 3 c.0) t.0 2 c.0) c.0 2 f.0) c.0 3 t.0 }
{
    put(w, f, 3, c.0);
    put(w, t, 2, c.0);
    put(w, c, 2, f.0);
    put(w, c, 3, t.0);
}

// The newcomer goes before the tree member t, behind f.
fn link_ring(w: &mut [u64], c: ChunkOff, i: u32, t: ChunkOff, f: ChunkOff)
    ensures { w.new ≡ ring_w wide w.old c.0 i t.0 f.0 }
{
    link_between(w, c, t, f);
    put(w, c, 6, NONE);
    leaf(w, c, i);
}

fn link_at(w: &mut [u64], c: ChunkOff, i: u32, seat: Seat)
    requires { HasWord seat }
    ensures { w.new ≡ seat_w wide w.old c.0 i (seat_of seat) }
{
    match seat {
        Seat::Below(up) => link_slot(w, c, i, up.at, up.side),
        Seat::InRing(t) => {
            let f = link(w, t, 2);
            link_ring(w, c, i, t, f);
        }
    }
}

pub fn insert_large_chunk(h: &mut Heap, c: ChunkOff, n: u64)
    ensures { Becomes h.old h.new (insert_large wide h.old.image.now h.old.words.now c.0 n) }
{
    let i = compute_tree_index(n);
    let root = h.bin_at::<Tree>(i);
    if root.0 == NONE {
        h.enter::<Tree>(i, c);
        tie(h.words, c, ChunkOff(ROOT), i);
    } else {
        let seat = seek(h, root, n, first_key(n, i));
        link_at(h.words, c, i, seat);
    }
}
