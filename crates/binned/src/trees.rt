// The trees: each takes the marks of its members and of their rings.
#![tactic(auto, using(crate::proofs::RingsCode::laws, crate::proofs::RingsCode::width_is, crate::proofs::TreesCode::laws), unfolding(crate::specs::BinsBytes::member_ok, crate::specs::BinsBytes::node_fits, crate::specs::BinsBytes::node_ok, crate::specs::BinsBytes::tree_bin_ok))]

ghost use Rattle.std.specs.Prelude.{◌≡◌, true, ◌+◌, ◌*◌, ◌^◌, ◌≤◌, ◌<◌};
ghost use Rattle.words.specs.Edition.{wide};
ghost use Rattle.tries.specs.Bits.{wid};
ghost use Rattle.chunk.specs.Bytes.{word};
ghost use Rattle.marks.specs.Marks.{checked, turns};
ghost use Rattle.binned.specs.BinsBytes.{childless, member_ok, ring_ok, node_size, size_fits, node_fits, node_ok, tree_ok, tree_bin_ok, tree_bins_ok};

use crate::small::bit_ok;
use chunk::access::{ChunkOff, NONE, ROOT, get, link};
use chunk::image::{TREEMAP, Tree, bin_at};
use index::tree_bin::min_size_for_tree_index;
use marks::{Marks, TURNS};
use tiles::head_is;

// Where a tree may stand: below `up`, in a bin, with sizes of [low, low + 2^bits words).
#[derive(Clone, Copy)]
struct Place {
    up: u64,
    bin: u32,
    low: u64,
    bits: u32,
    ghost few: { bits ≤ 24 },
    ghost end: { low + 8 * wid bits ≤ 2 ^ 40 },
}

fn childless(w: &[u64], c: ChunkOff) -> bool
    ensures { result ≡ childless wide w.now c.0 }
{
    get(w, c, 4) == NONE && get(w, c, 5) == NONE
}

// Another member c of a ring of n bytes in bin i, behind last.
fn member_ok(w: &[u64], c: ChunkOff, i: u32, n: u64, last: u64) -> bool
    ensures { result ≡ member_ok wide w.now i n last c.0 }
{
    head_is(w, c, n)
        && get(w, c, 7) == i as u64
        && get(w, c, 2) == last
        && get(w, c, 6) == NONE
        && childless(w, c)
}

// The ring of t, of n bytes each; it closes at t.
fn ring_ok(w: &[u64], m: &mut Marks, t: ChunkOff, i: u32, n: u64) -> bool
    ensures { checked result m.new ≡ ring_ok wide w.now i n t.0 turns (word wide w.now t.0 3) t.0 m.old }
{
    let mut last = t.0;
    let mut c = link(w, t, 3);
    for _ in 0..TURNS {
        if c.0 == t.0 {
            return get(w, t, 2) == last;
        }
        if !m.take(c.0) || !member_ok(w, c, i, n, last) {
            return false;
        }
        last = c.0;
        c = link(w, c, 3);
    }
    false
}

// The bytes of 2^k words.
fn width(k: u32) -> u64
    requires { k ≤ 24 }
    ensures { result ≡ 8 * wid k }
{
    8 << k
}

// h, a head, says a size of this place that no member above has.
fn size_fits(sizes: &Marks, h: u64, at: Place) -> bool
    ensures { result ≡ size_fits wide h at.bits at.low sizes.now }
{
    h > at.low && h - at.low <= width(at.bits) && sizes.lacks(h - 1)
}

// The tree member t fits there.
fn node_fits(w: &[u64], sizes: &Marks, t: ChunkOff, at: Place) -> bool
    ensures { result ≡ node_fits wide w.now at.bin at.bits at.low t.0 at.up sizes.now }
{
    size_fits(sizes, get(w, t, 1), at) && get(w, t, 6) == at.up && get(w, t, 7) == at.bin as u64
}

// The size that a tree member's head says.
fn node_size(w: &[u64], t: ChunkOff) -> u64
    ensures { result ≡ node_size wide w.now t.0 }
{
    get(w, t, 1).saturating_sub(1)
}

// A tree member with its ring.
fn node_ok(w: &[u64], m: &mut Marks, sizes: &Marks, t: ChunkOff, at: Place) -> bool
    ensures { checked result m.new ≡ node_ok wide w.now at.bin at.bits at.low t.0 at.up sizes.now m.old }
{
    m.take(t.0) && node_fits(w, sizes, t, at) && ring_ok(w, m, t, at.bin, node_size(w, t))
}

// The tree at t: child 0 has the lower half of the sizes, child 1 the upper; the bits fall, so the depth is at most 19.
// sizes: the sizes of the members above t.
fn tree_ok(w: &[u64], m: &mut Marks, sizes: &mut Marks, t: ChunkOff, at: Place) -> bool
    ensures marks { checked result m.new ≡ tree_ok wide w.now at.bin at.bits at.low t.0 at.up sizes.old m.old }
    ensures sizes { result ≡ true → sizes.new ≡ sizes.old }
{
    if t.0 == NONE {
        return true;
    }
    if !node_ok(w, m, sizes, t, at) {
        return false;
    }
    if at.bits == 0 {
        return childless(w, t);
    }
    let bits = at.bits - 1;
    let lower = Place {
        up: t.0,
        bin: at.bin,
        low: at.low,
        bits,
    };
    let upper = Place {
        up: t.0,
        bin: at.bin,
        low: at.low + width(bits),
        bits,
    };
    let n = node_size(w, t);
    sizes.insert(n);
    if !tree_ok(w, m, sizes, link(w, t, 4), lower) {
        return false;
    }
    if !tree_ok(w, m, sizes, link(w, t, 5), upper) {
        return false;
    }
    sizes.remove(n);
    true
}

fn tree_bin_ok(r: &[u64; 72], w: &[u64], m: &mut Marks, sizes: &mut Marks, i: u32) -> bool
    requires { i < 32 }
    ensures marks { checked result m.new ≡ tree_bin_ok wide r.now w.now sizes.old i m.old }
    ensures sizes { result ≡ true → sizes.new ≡ sizes.old }
{
    let t = bin_at::<Tree>(r, i);
    let root = Place {
        up: ROOT,
        bin: i,
        low: min_size_for_tree_index(i),
        bits: i / 2 + 4,
    };
    // Most bins are empty: `tree_ok` would say yes too, behind a call.
    bit_ok(r[TREEMAP], i, t) && (t.0 == NONE || tree_ok(w, m, sizes, t, root))
}

pub fn tree_bins_ok(r: &[u64; 72], w: &[u64], m: &mut Marks) -> bool
    ensures { checked result m.new ≡ tree_bins_ok wide r.now w.now m.old }
{
    let mut sizes = Marks::new();
    for i in 0..32 {
        if !tree_bin_ok(r, w, m, &mut sizes, i) {
            return false;
        }
    }
    true
}
