// A set of granules of 16 bytes, a bit each, in a bitmap of fixed size. An offset that is no granule, or lies past the set, is in no set,
// and nothing changes for it.
#![tactic(auto, using(crate::proofs::MarksCode::in_set_lem), unfolding(crate::specs::Marks::holdable, crate::specs::Marks::no_marks, crate::specs::Marks::held_bit, crate::specs::Marks::has_mark, crate::specs::Marks::lacks_mark, crate::specs::Marks::set_mark, crate::specs::Marks::drop_mark, crate::specs::Marks::take_mark))]

ghost use Rattle.std.specs.Prelude.{◌≡◌, ◌%◌};
ghost use Rattle.words.specs.Edition.{wide};
ghost use Rattle.marks.specs.Marks.{holdable, held_bit, has_mark, lacks_mark, set_mark, drop_mark, checked, take_mark, no_marks, is_empty};

use index::bin_map::{with_bit, without_bit};
use std::marker::Model;

// The size of every set: a granule for each 2 words of the largest arena.
const MARK_WORDS: usize = 64;

const GRANULES: u64 = 64 * (MARK_WORDS as u64);

// The bound of every walk: more turns than a set has granules.
pub const TURNS: u32 = 64 * (MARK_WORDS as u32) + 1;

// A contract sees a set as the list of its words.
#[derive(Clone, Copy)]
pub struct Marks {
    words: [u64; MARK_WORDS],
}

impl Model for Marks {
    ghost use Rattle.std.specs.Prelude.{List, ℕ};

    ghost Value = { List ℕ };

    ghost view = { λ m. m.words };

    ghost inverse = { λ words. record { words = words } };
}

fn holdable(off: u64) -> bool
    ensures { result ≡ holdable wide off }
{
    off % 16 == 0 && off / 16 < GRANULES
}

impl Marks {
    pub fn new() -> Marks
        ensures { result ≡ no_marks }
    {
        Marks {
            words: [0; MARK_WORDS],
        }
    }

    // The bit of a granule that the set can hold.
    fn bit(&self, off: u64) -> Option<u64>
        ensures { result ≡ held_bit wide self.now off }
    {
        if holdable(off) {
            let k = (off / 16 / 64) as usize;
            Some((self.words[k] >> (off / 16 % 64)) % 2)
        } else {
            None
        }
    }

    pub fn has(&self, off: u64) -> bool
        ensures { result ≡ has_mark wide self.now off }
    {
        self.bit(off) == Some(1)
    }

    // It is a granule, and not in the set.
    pub fn lacks(&self, off: u64) -> bool
        ensures { result ≡ lacks_mark wide self.now off }
    {
        self.bit(off) == Some(0)
    }

    pub fn insert(&mut self, off: u64)
        ensures { self.new ≡ set_mark wide self.old off }
    {
        if holdable(off) {
            let k = (off / 16 / 64) as usize;
            self.words[k] = with_bit::<64>(self.words[k], off / 16);
        }
    }

    pub fn remove(&mut self, off: u64)
        ensures { self.new ≡ drop_mark wide self.old off }
    {
        if holdable(off) {
            let k = (off / 16 / 64) as usize;
            self.words[k] = without_bit::<64>(self.words[k], off / 16);
        }
    }

    // Takes it out of the set; false where it is not in it.
    pub fn take(&mut self, off: u64) -> bool
        ensures { checked result self.new ≡ take_mark wide self.old off }
    {
        if !self.has(off) {
            return false;
        }
        self.remove(off);
        true
    }

    pub fn is_empty(&self) -> bool
        ensures { result ≡ is_empty self.now }
    {
        self.words.iter().all(|x| *x == 0)
    }
}
