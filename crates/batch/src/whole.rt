// What a whole list hands back, and why it is refused: then no call of it was made.
ghost use Rattle.std.specs.Prelude.{◌≡◌};
ghost use Rattle.batch.specs.Whole.{refusal_number};

use arena::control::Control;

#[derive(Clone, Copy, PartialEq, Eq, Debug)]
pub enum WholeRefusal {
    BadCount,
    Unsound,
    ListsDoNotFit,
}

impl From<WholeRefusal> for u64 {
    ghost from_gives = { λ why n. n ≡ refusal_number why };

    fn from(why: WholeRefusal) -> u64 {
        match why {
            WholeRefusal::BadCount => 1,
            WholeRefusal::Unsound => 2,
            WholeRefusal::ListsDoNotFit => 8,
        }
    }
}

// That the calls were made, or what refuses the whole, and the record: where it is refused, the one that was given.
#[derive(Clone, Copy)]
pub struct Whole {
    pub answer: Result<(), WholeRefusal>,
    pub control: Control,
}
