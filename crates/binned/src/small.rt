// The spare chunk and the small bins: each takes the marks of what it holds.
#![tactic(auto, using(crate::proofs::SmallCode::laws), unfolding(crate::specs::BinsBytes::dv_ok, crate::specs::BinsBytes::bit_ok, crate::specs::BinsBytes::small_bin_ok))]

ghost use Rattle.std.specs.Prelude.{◌≡◌};
ghost use Rattle.words.specs.Edition.{wide, no_link};
ghost use Rattle.marks.specs.Marks.{checked, turns};
ghost use Rattle.binned.specs.BinsBytes.{dv_ok, bit_ok, linked_ok, list_ok, small_bin_ok, small_bins_ok};

use chunk::access::{ChunkOff, NONE, get, link};
use chunk::image::{DV, DVSIZE, SMALLMAP, Small, bin_at};
use marks::{Marks, TURNS};
use tiles::head_is;

pub fn dv_ok(r: &[u64; 72], w: &[u64], m: &mut Marks) -> bool
    ensures { checked result m.new ≡ dv_ok wide r.now w.now m.old }
{
    let dv = r[DV];
    let n = r[DVSIZE];
    if dv == NONE {
        return n == 0;
    }
    m.take(dv) && head_is(w, ChunkOff(dv), n)
}

// Bit i of a map is set exactly where the bin's link is something.
pub fn bit_ok(map: u64, i: u32, c: ChunkOff) -> bool
    ensures { result ≡ bit_ok wide map i c.0 }
{
    let b = (map >> (i % 32)) % 2;
    if c.0 == NONE { b == 0 } else { b == 1 }
}

// One of a list: its head, and its link back.
fn linked_ok(w: &[u64], c: ChunkOff, n: u64, newer: u64) -> bool
    ensures { result ≡ linked_ok wide w.now c.0 n newer }
{
    head_is(w, c, n) && get(w, c, 3) == newer
}

// The list from the newest, each of n bytes.
fn list_ok(w: &[u64], m: &mut Marks, newest: ChunkOff, n: u64) -> bool
    ensures { checked result m.new ≡ list_ok wide w.now n turns newest.0 (no_link wide) m.old }
{
    let mut newer = NONE;
    let mut c = newest;
    for _ in 0..TURNS {
        if c.0 == NONE {
            return true;
        }
        if !m.take(c.0) || !linked_ok(w, c, n, newer) {
            return false;
        }
        newer = c.0;
        c = link(w, c, 2);
    }
    false
}

fn small_bin_ok(r: &[u64; 72], w: &[u64], m: &mut Marks, i: u32) -> bool
    ensures { checked result m.new ≡ small_bin_ok wide r.now w.now i m.old }
{
    let c = bin_at::<Small>(r, i);
    bit_ok(r[SMALLMAP], i, c) && list_ok(w, m, c, 8 * (i as u64))
}

pub fn small_bins_ok(r: &[u64; 72], w: &[u64], m: &mut Marks) -> bool
    ensures { checked result m.new ≡ small_bins_ok wide r.now w.now m.old }
{
    for i in 0..32 {
        if !small_bin_ok(r, w, m, i) {
            return false;
        }
    }
    true
}
