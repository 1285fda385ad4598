// The words of a live block, lent to its owner as a part of the arena. Total: where the call refuses, the part is empty.
#![tactic(auto, using(crate::proofs::LendCode::laws, crate::proofs::LendCode::set_past), unfolding(crate::specs::LendBytes::lends_b, crate::specs::LendBytes::lent_from, crate::specs::LendBytes::lent_words, crate::specs::LendBytes::fits_b))]

ghost use Rattle.std.specs.Prelude.{◌≡◌, ◌+◌, ◌*◌, set};
ghost use Rattle.words.specs.Edition.{wide};
ghost use Rattle.lend.specs.LendBytes.{lends_b, lent_from, lent_words, lent, back};

use chunk::access::BlockOff;
use chunk::image::TOP;
use sound::{live_block, sound, usable_size, words_ok};

// Where a part of the arena starts, and how many words it has.
#[derive(Clone, Copy)]
pub struct Span {
    pub from: usize,
    pub words: usize,
}

// The count is allowed, the pair is sound, and a live block starts at this offset.
fn lends(r: &[u64; 72], w: &[u64], b: BlockOff) -> bool
    ensures { result ≡ lends_b wide r.now w.now b.0 }
{
    words_ok(w.len()) && sound(r, w) && live_block(w, r[TOP], b)
}

// The part that is lent.
pub fn part(r: &[u64; 72], w: &[u64], b: BlockOff) -> Span
    ensures from { result.from ≡ lent_from wide r.now w.now b.0 }
    ensures words { result.words ≡ lent_words wide r.now w.now b.0 }
{
    if !lends(r, w, b) {
        return Span { from: 0, words: 0 };
    }
    let from = (b.0 / 8) as usize;
    let words = (usable_size(w, b) / 8) as usize;
    if from + words <= w.len() {
        Span { from, words }
    } else {
        Span { from: 0, words: 0 }
    }
}

// The owner's words, lent: empty where the call refuses. The clauses on `ptr` say where they lie in the arena.
pub fn lend<'a>(r: &[u64; 72], w: &'a mut [u64], b: BlockOff) -> &'a mut [u64]
    ensures words { result.now ≡ lent wide r.now w.old b.0 }
    ensures block { result.ref_ptr.0 ≡ w.entry.ref_ptr.0 }
    ensures start { result.ref_ptr.1 ≡ lent_from wide r.now w.old b.0 * 8 + w.entry.ref_ptr.1 }
{
    let p = part(r, w, b);
    &mut w[p.from..p.from + p.words]
}

// Nothing is written past the end. (After `get_mut` a proof would know the slice's length alone.)
fn put_at(s: &mut [u64], i: usize, v: u64)
    ensures { s.new ≡ set s.old i v }
{
    if i < s.len() {
        s[i] = v;
    }
}

// An owner's store: its words are lent to a call and come back; every other word is as it was.
pub fn store(r: &[u64; 72], w: &mut [u64], b: BlockOff, i: usize, v: u64)
    ensures { w.new ≡ back wide r.now w.old b.0 (set (lent wide r.now w.old b.0) i v) }
{
    let p = part(r, w, b);
    put_at(&mut w[p.from..p.from + p.words], i, v);
}
