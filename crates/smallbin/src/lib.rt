// Port order 3: small bins, last in, first out. Plain heads in the record, none at the ends; a link to none writes nothing.
#![tactic(auto, using(crate::proofs::Laws::laws))]

ghost use Rattle.std.specs.Prelude.{◌≡◌};
ghost use Rattle.words.specs.Edition.{wide};
ghost use Rattle.chunk.specs.Running.{Becomes};
ghost use Rattle.smallbin.specs.SmallBytes.{link_new_w, join_w, insert_small, unlink_small, unlink_first};

use chunk::access::{ChunkOff, NONE, put};
use chunk::heap::Heap;
use chunk::image::Small;
use index::sizes::small_index;

// c goes before the newest, f.
fn link_new(w: &mut [u64], c: ChunkOff, f: ChunkOff)
    ensures { w.new ≡ link_new_w wide w.old c.0 f.0 }
{
    put(w, f, 3, c.0);
    put(w, c, 2, f.0);
    put(w, c, 3, NONE);
}

// f, the older, and b, the newer, become neighbours.
pub fn join(w: &mut [u64], f: ChunkOff, b: ChunkOff)
    ensures { w.new ≡ join_w wide w.old f.0 b.0 }
{
    put(w, f, 3, b.0);
    put(w, b, 2, f.0);
}

pub fn insert_small_chunk(h: &mut Heap, c: ChunkOff, size: u64)
    ensures { Becomes h.old h.new (insert_small wide h.old.image.now h.old.words.now c.0 size) }
{
    let i = small_index(size);
    let f = h.bin_at::<Small>(i);
    h.enter::<Small>(i, c);
    link_new(h.words, c, f);
}

pub fn unlink_small_chunk(h: &mut Heap, c: ChunkOff, size: u64)
    ensures { Becomes h.old h.new (unlink_small wide h.old.image.now h.old.words.now c.0 size) }
{
    let f = h.link(c, 2);
    let b = h.link(c, 3);
    join(h.words, f, b);
    if b.0 == NONE {
        h.relink::<Small>(small_index(size), f);
    }
}

pub fn unlink_first_small_chunk(h: &mut Heap, c: ChunkOff, i: u32)
    ensures { Becomes h.old h.new (unlink_first wide h.old.image.now h.old.words.now c.0 i) }
{
    let f = h.link(c, 2);
    put(h.words, f, 3, NONE);
    h.relink::<Small>(i, f);
}
