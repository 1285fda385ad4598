// What a line says of an answer.
ghost use Rattle.std.specs.Prelude.{◌≡◌, refl};
ghost use Rattle.rules.specs.Calls.{Answer, granted, done, bytes};
ghost use Rattle.calls.specs.CallBytes.{refusal};
ghost use Rattle.arena.specs.Answers.{answer_in};
ghost use Rattle.player.specs.Replayed.{offset_of};

use arena::answers::Reason;
use chunk::access::BlockOff;

// What a call grants: 0 but for a block.
pub trait Shown: Copy {
    ghost says: { Self → Answer };

    fn offset(self) -> u64
        ensures { result ≡ offset_of (says self) };

    // A grant is no refusal.
    ghost grants: { (x : Self) → refusal (says x) ≡ 0 };
}

impl Shown for BlockOff {
    ghost says = { λ b. granted b.0 };

    fn offset(self) -> u64 {
        self.0
    }

    ghost grants = { λ b. refl };
}

impl Shown for () {
    ghost says = { λ x. done };

    fn offset(self) -> u64 {
        0
    }

    ghost grants = { λ x. refl };
}

impl Shown for u64 {
    ghost says = { λ n. bytes n };

    fn offset(self) -> u64 {
        0 // bytes are no place in the arena
    }

    ghost grants = { λ n. refl };
}

// 0 but for a granted block.
pub fn offset_of<T: Shown>(a: Result<T, Reason>) -> u64
    ensures { result ≡ offset_of (answer_in T.says a) }
{
    a.map_or(0, |x| x.offset())
}
