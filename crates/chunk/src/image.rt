// The record as 72 words: smallmap, treemap, dv, dvsize, top, topsize, length, a word that is 0, 32 small-bin heads, 32 tree roots.
// What stands where is said here.
ghost use Rattle.std.specs.Prelude.{◌≡◌, ℕ, ◌+◌, ◌%◌, ◌<◌, slice_index, refl};
ghost use Rattle.words.specs.Edition.{wide, no_link};
ghost use Rattle.chunk.specs.Running.{Notes};
ghost use Rattle.chunk.specs.Bytes.{set_dv, set_top, Kind, small, tree, map_at, link_at, map_of, link_of, set_link, mark_r, clear_r, enter_r, relink_r};

use crate::access::{ChunkOff, NONE};
use crate::heap::Heap;
use index::bin_map::{with_bit, without_bit};

pub const SMALLMAP: usize = 0;

pub const TREEMAP: usize = 1;

pub const DV: usize = 2;

pub const DVSIZE: usize = 3;

pub const TOP: usize = 4;

pub const TOPSIZE: usize = 5;

pub const LENGTH: usize = 6;

// A kind of bins: the word of the record that is its map, and the word that is the link of its bin 0.
pub trait Bins {
    const MAP: usize;

    const LINKS: u32;

    ghost MAP: { ℕ };

    ghost LINKS: { ℕ };

    ghost kind: { Kind };

    ghost map_stands: { MAP ≡ map_at kind };

    ghost links_stand: { (i : ℕ) → LINKS + i ≡ link_at kind i };
}

// Chunks of 32 to 248 bytes, a list for each size.
pub struct Small;

// Larger chunks, a tree for each half of a power of two.
pub struct Tree;

impl Bins for Small {
    const MAP: usize = SMALLMAP;

    const LINKS: u32 = 8;

    ghost MAP = { 0 };

    ghost LINKS = { 8 };

    ghost kind = { small };

    ghost map_stands = { refl };

    ghost links_stand = { λ i. refl };
}

impl Bins for Tree {
    const MAP: usize = TREEMAP;

    const LINKS: u32 = 40;

    ghost MAP = { 1 };

    ghost LINKS = { 40 };

    ghost kind = { tree };

    ghost map_stands = { refl };

    ghost links_stand = { λ i. refl };
}

pub fn map<B: Bins>(r: &[u64; 72]) -> u32
    ensures { result ≡ map_of B.kind r.now }
{
    (r[B::MAP] % 4294967296) as u32
}

pub fn mark<B: Bins>(r: &mut [u64; 72], i: u32)
    ensures { r.new ≡ mark_r B.kind r.old i }
{
    r[B::MAP] = with_bit::<32>(r[B::MAP], i as u64);
}

pub fn clear<B: Bins>(r: &mut [u64; 72], i: u32)
    ensures { r.new ≡ clear_r B.kind r.old i }
{
    r[B::MAP] = without_bit::<32>(r[B::MAP], i as u64);
}

// Where bin i's link stands.
fn link_word<B: Bins>(i: u32) -> usize
    ensures place { result ≡ link_at B.kind (i % 32) }
    ensures in_the_image { result < 72 }
{
    (B::LINKS + i % 32) as usize
}

pub fn bin_at<B: Bins>(r: &[u64; 72], i: u32) -> ChunkOff
    ensures { result.0 ≡ link_of B.kind r.now i }
{
    ChunkOff(r[link_word::<B>(i)])
}

pub fn set_bin<B: Bins>(r: &mut [u64; 72], i: u32, c: ChunkOff)
    ensures { r.new ≡ set_link B.kind r.old i c.0 }
{
    r[link_word::<B>(i)] = c.0;
}

// The spare chunk and its size.
pub fn dv(r: &[u64; 72]) -> ChunkOff
    ensures { result.0 ≡ slice_index r.now 2 }
{
    ChunkOff(r[DV])
}

pub fn dvsize(r: &[u64; 72]) -> u64
    ensures { result ≡ slice_index r.now 3 }
{
    r[DVSIZE]
}

// The top and its size.
pub fn top(r: &[u64; 72]) -> ChunkOff
    ensures { result.0 ≡ slice_index r.now 4 }
{
    ChunkOff(r[TOP])
}

pub fn topsize(r: &[u64; 72]) -> u64
    ensures { result ≡ slice_index r.now 5 }
{
    r[TOPSIZE]
}

pub fn set_dv(r: &mut [u64; 72], c: ChunkOff, n: u64)
    ensures { r.new ≡ set_dv r.old c.0 n }
{
    r[DV] = c.0;
    r[DVSIZE] = n;
}

pub fn no_dv(r: &mut [u64; 72])
    ensures { r.new ≡ set_dv r.old (no_link wide) 0 }
{
    set_dv(r, ChunkOff(NONE), 0);
}

pub fn set_top(r: &mut [u64; 72], c: ChunkOff, n: u64)
    ensures { r.new ≡ set_top r.old c.0 n }
{
    r[TOP] = c.0;
    r[TOPSIZE] = n;
}

// A bin gets a first member.
pub fn enter<B: Bins>(r: &mut [u64; 72], i: u32, c: ChunkOff)
    ensures { r.new ≡ enter_r B.kind r.old i c.0 }
{
    mark::<B>(r, i);
    set_bin::<B>(r, i, c);
}

// A bin gets another first member, or none: then its bit is cleared.
pub fn relink<B: Bins>(r: &mut [u64; 72], i: u32, c: ChunkOff)
    ensures { r.new ≡ relink_r wide B.kind r.old i c.0 }
{
    if c.0 == NONE {
        clear::<B>(r, i);
    }
    set_bin::<B>(r, i, c);
}

// The same of a heap at work: its words stay.
impl Heap<'_> {
    pub fn dv(&self) -> ChunkOff
        ensures { result.0 ≡ slice_index self.now.image.now 2 }
    {
        dv(self.image)
    }

    pub fn dvsize(&self) -> u64
        ensures { result ≡ slice_index self.now.image.now 3 }
    {
        dvsize(self.image)
    }

    pub fn top(&self) -> ChunkOff
        ensures { result.0 ≡ slice_index self.now.image.now 4 }
    {
        top(self.image)
    }

    pub fn topsize(&self) -> u64
        ensures { result ≡ slice_index self.now.image.now 5 }
    {
        topsize(self.image)
    }

    pub fn set_dv(&mut self, c: ChunkOff, n: u64)
        ensures { Notes self.old self.new (set_dv self.old.image.now c.0 n) }
    {
        set_dv(self.image, c, n);
    }

    pub fn no_dv(&mut self)
        ensures { Notes self.old self.new (set_dv self.old.image.now (no_link wide) 0) }
    {
        no_dv(self.image);
    }

    pub fn set_top(&mut self, c: ChunkOff, n: u64)
        ensures { Notes self.old self.new (set_top self.old.image.now c.0 n) }
    {
        set_top(self.image, c, n);
    }

    pub fn map<B: Bins>(&self) -> u32
        ensures { result ≡ map_of B.kind self.now.image.now }
    {
        map::<B>(self.image)
    }

    pub fn bin_at<B: Bins>(&self, i: u32) -> ChunkOff
        ensures { result.0 ≡ link_of B.kind self.now.image.now i }
    {
        bin_at::<B>(self.image, i)
    }

    pub fn enter<B: Bins>(&mut self, i: u32, c: ChunkOff)
        ensures { Notes self.old self.new (enter_r B.kind self.old.image.now i c.0) }
    {
        enter::<B>(self.image, i, c);
    }

    pub fn relink<B: Bins>(&mut self, i: u32, c: ChunkOff)
        ensures { Notes self.old self.new (relink_r wide B.kind self.old.image.now i c.0) }
    {
        relink::<B>(self.image, i, c);
    }
}
