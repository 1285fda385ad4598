// The stream cut into records, a byte at a time, so that it may come in pieces of any size. The line holds the first 64 bytes of the record
// at hand.
#![tactic(auto, using(crate::proofs::CutCode::laws))]

ghost use Rattle.std.specs.Prelude.{◌≡◌, false, set};
ghost use Rattle.box_log.specs.Cutting.{at, more, read_line, plain_line, plain_step, line_after, step_at, line_at_end, ending};

use crate::entry::{Entry, read};

// How many bytes of the record have come, 65 for more than 64; and whether a CR came last, which is not among them yet.
#[derive(Clone, Copy, PartialEq, Eq, Debug, Default)]
pub struct Place {
    pub held: usize,
    pub cr: bool,
}

// Where a byte leads, and the record that it ends.
#[derive(Clone, Copy, PartialEq, Eq, Debug)]
pub struct Step {
    pub place: Place,
    pub got: Option<Entry>,
}

impl Place {
    // A byte that the line has no room for is not kept.
    fn keep(self, line: &mut [u8], b: u8) -> Place
        ensures line_after { line.new ≡ set line.old self.held b }
        ensures value { result ≡ at (more self.held) false }
    {
        if self.held < line.len() {
            line[self.held] = b;
        }
        Place {
            held: self.held.saturating_add(1).min(65),
            cr: false,
        }
    }

    // What the line's record says.
    fn read_line(self, line: &[u8]) -> Entry
        ensures { result ≡ read_line line.now self.held }
    {
        line.get(..self.held).map_or(Entry::Odd, read)
    }

    // A byte where no CR came before it ends no record.
    fn plain_byte(self, line: &mut [u8], b: u8) -> Step
        ensures line_after { line.new ≡ plain_line line.old self.held b }
        ensures value { result ≡ plain_step self.held b }
    {
        let place = if b == b'\r' {
            Place { cr: true, ..self }
        } else {
            self.keep(line, b)
        };
        Step { place, got: None }
    }

    // One byte of the stream. The record that it ends is handed out.
    pub fn take_byte(self, line: &mut [u8], b: u8) -> Step
        ensures line_after { line.new ≡ line_after line.old self b }
        ensures value { result ≡ step_at line.old self b }
    {
        if !self.cr {
            return self.plain_byte(line, b);
        }
        if b == b'\n' {
            return Step {
                place: Place::default(),
                got: Some(self.read_line(line)),
            };
        }
        self.keep(line, b'\r').plain_byte(line, b)
    }

    // The stream has ended: the last record may lack its CRLF.
    pub fn finish(self, line: &mut [u8]) -> Option<Entry>
        ensures line_after { line.new ≡ line_at_end line.old self }
        ensures value { result ≡ ending line.old self }
    {
        if self.cr {
            let last = self.keep(line, b'\r');
            return Some(last.read_line(line));
        }
        if self.held == 0 {
            return None;
        }
        Some(self.read_line(line))
    }
}
