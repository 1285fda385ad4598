// The tiling: the chunks from 0 to the top, and the top. One walk of the heads marks the free chunks.
#![tactic(auto, using(crate::proofs::TilesCode::laws), unfolding(crate::specs::TilesBytes::top_ok, crate::specs::TilesBytes::chunk_at))]

ghost use Rattle.std.specs.Prelude.{◌≡◌, true};
ghost use Rattle.words.specs.Edition.{wide};
ghost use Rattle.marks.specs.Marks.{checked, turns};
ghost use Rattle.tiles.specs.TilesBytes.{head_is, top_ok, tile_of, used_flags, room_for, free_ok, chunk_at, walk_heads};

use chunk::access::{ChunkOff, get};
use chunk::image::{TOP, TOPSIZE};
use marks::{Marks, TURNS};

// A chunk's size, and whether it is in use.
#[derive(Clone, Copy)]
pub struct Tile {
    pub size: u64,
    pub used: bool,
}

// The head is that of a free chunk of n bytes, or of the top.
pub fn head_is(w: &[u64], c: ChunkOff, n: u64) -> bool
    ensures { result ≡ head_is wide w.now c.0 n }
{
    let h = get(w, c, 1);
    h != 0 && h - 1 == n
}

// The top, its head and the foot word.
pub fn top_ok(r: &[u64; 72], w: &[u64], length: u64) -> bool
    ensures { result ≡ top_ok wide r.now w.now length }
{
    let top = r[TOP];
    let ts = r[TOPSIZE];
    top % 16 == 0
        && length >= 96
        && top <= length - 96
        && ts == length - 80 - top
        && head_is(w, ChunkOff(top), ts)
        && get(w, ChunkOff(top + ts), 1) == 80
}

// The flags of a chunk in use.
fn used_flags(pu: bool) -> u64
    ensures { result ≡ used_flags pu }
{
    if pu { 3 } else { 2 }
}

// n bytes at p are a chunk, and end at the top or before it.
fn room_for(p: u64, n: u64, top: u64) -> bool
    ensures { result ≡ room_for wide p n top }
{
    n >= 32 && p <= top && n <= top - p
}

// Flags f after a chunk that is in use, and the size in word 0 of the next.
fn free_ok(w: &[u64], pu: bool, f: u64, n: u64, next: ChunkOff) -> bool
    ensures { result ≡ free_ok wide w.now pu f n next.0 }
{
    pu && f == 1 && get(w, next, 0) == n
}

// The chunk at p, if one fits there. pu: the chunk before is in use.
pub fn chunk_at(w: &[u64], p: u64, pu: bool, top: u64) -> Option<Tile>
    ensures { result ≡ tile_of (chunk_at wide w.now p pu top) }
{
    let h = get(w, ChunkOff(p), 1);
    let f = h % 16;
    let size = h - f;
    let used = f == used_flags(pu);
    if room_for(p, size, top) && (used || free_ok(w, pu, f, size, ChunkOff(p + size))) {
        Some(Tile { size, used })
    } else {
        None
    }
}

// Chunks tile 0 to the top, the last of them in use; the free ones are marked.
pub fn walk(w: &[u64], top: u64, m: &mut Marks) -> bool
    ensures { checked result m.new ≡ walk_heads wide w.now top turns 0 true m.old }
{
    let mut p: u64 = 0;
    let mut pu = true;
    for _ in 0..TURNS {
        if p >= top {
            return pu;
        }
        let Some(t) = chunk_at(w, p, pu, top) else {
            return false;
        };
        if !t.used {
            m.insert(p);
        }
        p += t.size;
        pu = t.used;
    }
    false
}
