// The arena's words, through one pair of accessors, and places as offsets in bytes.
#![tactic(auto, using(crate::proofs::Laws::laws))]

ghost use Rattle.std.specs.Prelude.{◌≡◌, ◌+◌, ◌-◌};
ghost use Rattle.words.specs.Edition.{wide};
ghost use Rattle.chunk.specs.Bytes.{wrap, less, word, put};
ghost use Rattle.chunk.specs.Links.{LeadsTo};

// Where a chunk starts, and where its owner's words start: two kinds, 16 apart.
#[derive(Clone, Copy, PartialEq, Eq)]
pub struct ChunkOff(pub u64);

#[derive(Clone, Copy, PartialEq, Eq)]
pub struct BlockOff(pub u64);

impl ChunkOff {
    // This chunk, unless the link leads nowhere.
    pub fn known(self) -> Option<ChunkOff>
        ensures { LeadsTo self.0 result }
    {
        if self.0 == NONE { None } else { Some(self) }
    }
}

// A link to nothing, and a root's parent word: words of the arena and of the record, where any number may stand.
pub const NONE: u64 = 0xffff_ffff_ffff_ffff;

pub const ROOT: u64 = 0xffff_ffff_ffff_fffe;

// Word k of the chunk at c, 0 past the end.
pub fn get(w: &[u64], c: ChunkOff, k: u32) -> u64
    ensures { result ≡ word wide w.now c.0 k }
{
    let i = (c.0 / 8 + k as u64) as usize;
    if i < w.len() { w[i] } else { 0 }
}

// Nothing is written past the end.
pub fn put(w: &mut [u64], c: ChunkOff, k: u32, v: u64)
    ensures { w.new ≡ put wide w.old c.0 k v }
{
    let i = (c.0 / 8 + k as u64) as usize;
    if i < w.len() {
        w[i] = v;
    }
}

// The chunk that word k of c leads to.
pub fn link(w: &[u64], c: ChunkOff, k: u32) -> ChunkOff
    ensures { result.0 ≡ word wide w.now c.0 k }
{
    ChunkOff(get(w, c, k))
}

// Sums and differences of places and sizes wrap, as the crate's pointers do.
pub fn sum(a: u64, b: u64) -> u64
    ensures { result ≡ wrap wide (a + b) }
{
    std::num::wrapping_add_u64(a, b)
}

pub fn difference(a: u64, b: u64) -> u64
    ensures { result ≡ less wide a b }
{
    std::num::wrapping_sub_u64(a, b)
}

pub fn plus_offset(c: ChunkOff, n: u64) -> ChunkOff
    ensures { result.0 ≡ wrap wide (c.0 + n) }
{
    ChunkOff(std::num::wrapping_add_u64(c.0, n))
}

pub fn minus_offset(c: ChunkOff, n: u64) -> ChunkOff
    ensures { result.0 ≡ less wide c.0 n }
{
    ChunkOff(std::num::wrapping_sub_u64(c.0, n))
}

pub fn to_mem(c: ChunkOff) -> BlockOff
    ensures { result.0 ≡ wrap wide (c.0 + 16) }
{
    BlockOff(std::num::wrapping_add_u64(c.0, 16))
}

pub fn from_mem(b: BlockOff) -> ChunkOff
    ensures { result.0 ≡ less wide b.0 16 }
{
    ChunkOff(std::num::wrapping_sub_u64(b.0, 16))
}
