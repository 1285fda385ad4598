// What a replay counts.
ghost use Rattle.std.specs.Prelude.{◌≡◌};
ghost use Rattle.recorded.specs.Tallies.{noted, counted};

use chunk::access::sum;
use std::fmt;

#[derive(Default, Drop)]
pub struct Tally {
    pub calls: u64,
    pub grants: u64,
    pub refusals: u64,
    pub looks: u64,
    pub not_read: u64,
    pub differ: u64,
}

impl Tally {
    // A number that is not the crate's is counted.
    pub fn note(&mut self, same: bool)
        ensures { self.new ≡ noted same self.old }
    {
        if !same {
            self.differ = sum(self.differ, 1);
        }
    }

    // Lines that were not understood are counted, so that nothing is lost unsaid.
    pub fn count_odd(&mut self, odd: bool)
        ensures { self.new ≡ counted odd self.old }
    {
        if odd {
            self.not_read = sum(self.not_read, 1);
        }
    }
}

impl fmt::Display for Tally {
    fn fmt<W: fmt::Write>(&self, f: &mut fmt::Formatter<W>) -> fmt::Result {
        writeln!(f, "calls {}", self.calls)?;
        writeln!(f, "grants {}", self.grants)?;
        writeln!(f, "refusals {}", self.refusals)?;
        writeln!(f, "looks at the heap {}", self.looks)?;
        writeln!(f, "lines not understood {}", self.not_read)?;
        writeln!(f, "differ {}", self.differ)
    }
}
