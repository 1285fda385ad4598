// One damage: words are changed, the check is asked, the words are put back, the check is asked again.
ghost use Rattle.std.specs.Prelude.{◌≡◌};
ghost use Rattle.damaged.specs.Counts.{told, judged};

use crate::sample::{Place, Sample};
use std::io;

// What is wrong, and the words that make it so.
pub type Damage = (&'static str, &'static [(Place, u64)]);

// The heap that is damaged, how many damages there were, and how many answers were wrong.
#[derive(Drop)]
pub struct Bench {
    heap: Sample,
    pub tried: u64,
    pub wrong: u64,
}

impl Bench {
    pub fn new() -> Bench
        ensures tried { result.tried ≡ 0 }
        ensures wrong { result.wrong ≡ 0 }
    {
        Bench {
            heap: Sample::fresh(128),
            tried: 0,
            wrong: 0,
        }
    }

    // A line: what the check was asked, and its answer, or that it is wrong.
    fn tell(&mut self, rt: &impl Print, name: &str, right: bool, answer: &str) -> io::Result<()>
        ensures { self.new ≡ told right self.old }
    {
        if right {
            return println!(rt; "{name}: {answer}");
        }
        self.wrong = self.wrong.wrapping_add(1);
        println!(rt; "{name}: WRONG")
    }

    // From here on this heap is damaged.
    pub fn take(&mut self, rt: &impl Print, heap: Sample, name: &str) -> io::Result<()>
        ensures { self.new.heap ≡ heap }
    {
        self.heap = heap;
        let accepted = self.heap.is_sound();
        self.tell(rt, name, accepted, "accepted")
    }

    // The damage has to be refused, and what stood before it accepted.
    pub fn judge(
        &mut self,
        rt: &impl Print,
        name: &str,
        refused: bool,
        accepted: bool,
    ) -> io::Result<()>
        ensures { self.new ≡ judged refused accepted self.old }
    {
        self.tried = self.tried.wrapping_add(1);
        self.tell(rt, name, refused && accepted, "refused, mended accepted")
    }

    fn damage(&mut self, rt: &impl Print, damage: Damage) -> io::Result<()>
        ensures { self.new.heap ≡ self.old.heap }
    {
        let (name, changes) = damage;
        let good = self.heap;
        for &(place, value) in changes {
            self.heap.put(place, value);
        }
        let refused = !self.heap.is_sound();
        self.heap = good;
        let accepted = self.heap.is_sound();
        self.judge(rt, name, refused, accepted)
    }

    // Each damage is of the same heap, and no damage is left.
    pub fn damages(&mut self, rt: &impl Print, all: &[Damage]) -> io::Result<()>
        ensures { self.new.heap ≡ self.old.heap }
    {
        for damage in all {
            self.damage(rt, *damage)?;
        }
        Ok(())
    }
}
