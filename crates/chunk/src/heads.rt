// The `Chunk::` readers and setters of heads and feet.
#![tactic(auto, using(crate::proofs::Laws::laws))]

ghost use Rattle.std.specs.Prelude.{◌≡◌};
ghost use Rattle.words.specs.Edition.{wide};
ghost use Rattle.chunk.specs.Bytes.{size_b, cinuse_b, pinuse_b, pinuse_w, unpin_w, used_w, top_w, free_w, give_w, take_w, inuse_w};

use crate::access::{ChunkOff, get, plus_offset, put, sum};
use crate::heap::Heap;

pub fn size(w: &[u64], c: ChunkOff) -> u64
    ensures { result ≡ size_b wide w.now c.0 }
{
    get(w, c, 1) / 8 * 8
}

pub fn cinuse(w: &[u64], c: ChunkOff) -> bool
    ensures { result ≡ cinuse_b wide w.now c.0 }
{
    get(w, c, 1) / 2 % 2 == 1
}

pub fn pinuse(w: &[u64], c: ChunkOff) -> bool
    ensures { result ≡ pinuse_b wide w.now c.0 }
{
    get(w, c, 1) % 2 == 1
}

pub fn set_pinuse(w: &mut [u64], c: ChunkOff)
    ensures { w.new ≡ pinuse_w wide w.old c.0 }
{
    let h = get(w, c, 1);
    put(w, c, 1, h / 2 * 2 + 1);
}

pub fn clear_pinuse(w: &mut [u64], c: ChunkOff)
    ensures { w.new ≡ unpin_w wide w.old c.0 }
{
    let h = get(w, c, 1);
    put(w, c, 1, h / 2 * 2);
}

// This chunk in use, its own PINUSE kept, the next chunk told.
pub fn set_inuse(w: &mut [u64], c: ChunkOff, n: u64)
    ensures { w.new ≡ inuse_w wide w.old c.0 n }
{
    let h = get(w, c, 1);
    put(w, c, 1, sum(n, h % 2 + 2));
    set_pinuse(w, plus_offset(c, n));
}

pub fn set_inuse_and_pinuse(w: &mut [u64], c: ChunkOff, n: u64)
    ensures { w.new ≡ take_w wide w.old c.0 n }
{
    set_size_and_pinuse_of_inuse_chunk(w, c, n);
    set_pinuse(w, plus_offset(c, n));
}

pub fn set_size_and_pinuse_of_inuse_chunk(w: &mut [u64], c: ChunkOff, n: u64)
    ensures { w.new ≡ used_w wide w.old c.0 n }
{
    put(w, c, 1, sum(n, 3));
}

pub fn set_size_and_pinuse_of_free_chunk(w: &mut [u64], c: ChunkOff, n: u64)
    ensures { w.new ≡ free_w wide w.old c.0 n }
{
    put(w, c, 1, sum(n, 1));
    put(w, plus_offset(c, n), 0, n);
}

// next is c + n.
pub fn set_free_with_pinuse(w: &mut [u64], c: ChunkOff, n: u64, next: ChunkOff)
    ensures { w.new ≡ give_w wide w.old c.0 n next.0 }
{
    put(w, c, 1, sum(n, 1));
    put(w, next, 0, n);
    clear_pinuse(w, next);
}

// The head of the top: no foot.
pub fn set_top_head(w: &mut [u64], c: ChunkOff, n: u64)
    ensures { w.new ≡ top_w wide w.old c.0 n }
{
    put(w, c, 1, sum(n, 1));
}

impl Heap<'_> {
    pub fn size(&self, c: ChunkOff) -> u64
        ensures { result ≡ size_b wide self.now.words.now c.0 }
    {
        size(self.words, c)
    }

    pub fn cinuse(&self, c: ChunkOff) -> bool
        ensures { result ≡ cinuse_b wide self.now.words.now c.0 }
    {
        cinuse(self.words, c)
    }

    pub fn pinuse(&self, c: ChunkOff) -> bool
        ensures { result ≡ pinuse_b wide self.now.words.now c.0 }
    {
        pinuse(self.words, c)
    }
}
