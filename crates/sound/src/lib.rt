// Port order 9: the check, and which blocks are live in what it has accepted. Total: any record and any words have an answer.
// One walk of the heads marks the free chunks; each bin is walked once and takes the marks of what it holds; at the end none is left.
#![tactic(auto, using(crate::proofs::SoundCode::laws), unfolding(crate::specs::SoundBytes::count_ok, crate::specs::SoundBytes::record_ok, crate::specs::SoundBytes::bins_ok, crate::specs::SoundBytes::sound_b, crate::specs::SoundBytes::live_b, crate::specs::SoundBytes::usable_b))]

ghost use Rattle.std.specs.Prelude.{◌≡◌};
ghost use Rattle.words.specs.Edition.{wide};
ghost use Rattle.marks.specs.Marks.{checked, turns};
ghost use Rattle.sound.specs.SoundBytes.{count_ok, record_ok, bins_ok, chunks_ok, sound_b, starts_at, live_b, usable_b};

use binned::small::{dv_ok, small_bins_ok};
use binned::trees::tree_bins_ok;
use chunk::access::{BlockOff, ChunkOff};
use chunk::heads::{cinuse, size};
use chunk::image::{LENGTH, SMALLMAP, TOP, TREEMAP};
use marks::{Marks, TURNS};
use tiles::{top_ok, walk};

// A map has 32 bits.
const MAP_END: u64 = 1 << 32;

// An even number of words from 16 to 8,192.
pub fn words_ok(n: usize) -> bool
    ensures { result ≡ count_ok n }
{
    (16..=8192).contains(&n) && n % 2 == 0
}

// The record's length, and maps of 32 bits.
fn record_ok(r: &[u64; 72], length: u64) -> bool
    ensures { result ≡ record_ok r.now length }
{
    r[LENGTH] == length && r[SMALLMAP] < MAP_END && r[TREEMAP] < MAP_END
}

// Every mark is taken by the spare chunk, a small bin or a tree.
fn bins_ok(r: &[u64; 72], w: &[u64], m: &mut Marks) -> bool
    ensures { checked result m.new ≡ bins_ok wide r.now w.now m.old }
{
    dv_ok(r, w, m) && small_bins_ok(r, w, m) && tree_bins_ok(r, w, m) && m.is_empty()
}

// The chunks tile the arena, and each free one is in its place.
fn chunks_ok(r: &[u64; 72], w: &[u64]) -> bool
    ensures { result ≡ chunks_ok wide r.now w.now }
{
    let mut m = Marks::new();
    walk(w, r[TOP], &mut m) && bins_ok(r, w, &mut m)
}

pub fn sound(r: &[u64; 72], w: &[u64]) -> bool
    ensures { result ≡ sound_b wide r.now w.now }
{
    let length = 8 * (w.len() as u64);
    words_ok(w.len()) && record_ok(r, length) && top_ok(r, w, length) && chunks_ok(r, w)
}

// A chunk in use starts at c.
fn starts_at(w: &[u64], c: u64) -> bool
    ensures { result ≡ starts_at wide w.now turns 0 c }
{
    let mut p: u64 = 0;
    for _ in 0..TURNS {
        if p == c {
            return cinuse(w, ChunkOff(p));
        }
        let n = size(w, ChunkOff(p));
        if n > c - p {
            return false;
        }
        p += n;
    }
    false
}

// A live block starts at this offset.
pub fn live_block(w: &[u64], top: u64, b: BlockOff) -> bool
    ensures { result ≡ live_b wide w.now top b.0 }
{
    b.0 >= 16 && b.0 - 16 < top && starts_at(w, b.0 - 16)
}

// The bytes of a live block that are its owner's.
pub fn usable_size(w: &[u64], b: BlockOff) -> u64
    ensures { result ≡ usable_b wide w.now b.0 }
{
    if b.0 < 16 {
        0
    } else {
        size(w, ChunkOff(b.0 - 16)).saturating_sub(8)
    }
}
