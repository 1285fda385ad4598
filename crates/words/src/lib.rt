// A crate of definitions and laws: nothing here runs.
#![tactic(auto)]

ghost use Rattle.std.specs.Prelude.{◌≡◌};

pub fn nothing(x: u64) -> u64
    ensures { result ≡ x }
{
    x
}
