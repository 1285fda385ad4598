// The log's bytes to the records, the records to the arena, the lines that answer to a lent buffer.
ghost use Rattle.std.specs.Prelude.{◌≡◌};
ghost use Rattle.box_log.specs.Cutting.{line_after, step_at, line_of, place_of, out_of, line_at_end, ending, at};
ghost use Rattle.box_log.specs.Answers.{header_put, header_end};
ghost use Rattle.player.specs.FeedBytes.{fresh, emptied, desk, tell_b, handed_out, play_all};

use crate::play::play;
use box_log::cut::{Place, Step};
use box_log::entry::Entry;
use box_log::lines::{put_header, put_line};

// The words of the arena at work, how many records were answered, how many bytes of lines are in the buffer.
#[derive(Clone, Copy, PartialEq, Eq, Debug, Default)]
pub struct Run {
    pub words: usize,
    pub lines: u64,
    pub at: usize,
}

impl Run {
    // The buffer's lines were written: the next go to its start.
    fn emptied(self) -> Run
        ensures { result ≡ emptied self }
    {
        Run { at: 0, ..self }
    }
}

// With it the place in the record at hand.
#[derive(Clone, Copy, PartialEq, Eq, Debug, Default)]
pub struct Fed {
    pub place: Place,
    pub run: Run,
}

// Before the first byte the header is in the buffer.
pub fn start(out: &mut [u8]) -> Fed
    ensures out { out.new ≡ header_put out.old }
    ensures value { result ≡ fresh (header_end out.old) }
{
    let at = put_header(out);
    Fed {
        place: Place::default(),
        run: Run {
            at,
            ..Run::default()
        },
    }
}

// One record: its call, and its line.
pub fn tell(e: Entry, run: Run, r: &mut [u64; 72], w: &mut [u64], out: &mut [u8]) -> Run
    ensures { desk result r.new w.new out.new
        ≡ tell_b (desk run r.old w.old out.old) e }
{
    let x = play(e, run.words, r, w);
    let lines = run.lines.wrapping_add(1);
    Run {
        words: x.words,
        lines,
        at: put_line(out, run.at, lines, x.refusal, x.offset),
    }
}

// The record that a byte ended, if it ended one.
fn hand_out(got: Option<Entry>, run: Run, r: &mut [u64; 72], w: &mut [u64], out: &mut [u8]) -> Run
    ensures { desk result r.new w.new out.new
        ≡ handed_out (desk run r.old w.old out.old) got }
{
    match got {
        Some(e) => tell(e, run, r, w, out),
        None => run,
    }
}

// One byte.
fn take(b: u8, from: Fed, line: &mut [u8], r: &mut [u64; 72], w: &mut [u64], out: &mut [u8]) -> Fed
    ensures line { line.new ≡ line_after line.old from.place b }
    ensures place { result.place ≡ (step_at line.old from.place b).place }
    ensures out { desk result.run r.new w.new out.new
        ≡ handed_out (desk from.run r.old w.old out.old)
        (step_at line.old from.place b).got }
{
    let Step { place, got } = from.place.take_byte(line, b);
    Fed {
        place,
        run: hand_out(got, from.run, r, w, out),
    }
}

// A piece of the log: its lines stand from the buffer's start on.
pub fn feed(
    piece: &[u8],
    from: Fed,
    line: &mut [u8],
    r: &mut [u64; 72],
    w: &mut [u64],
    out: &mut [u8],
) -> Fed
    ensures line { line.new ≡ line_of line.old from.place piece.now }
    ensures place { result.place ≡ place_of line.old from.place piece.now }
    ensures out { desk result.run r.new w.new out.new
        ≡ play_all (desk (emptied from.run) r.old w.old out.old)
        (out_of line.old from.place piece.now) }
{
    let mut fed = Fed {
        run: from.run.emptied(),
        ..from
    };
    for b in piece {
        fed = take(*b, fed, line, r, w, out);
    }
    fed
}

// The log has ended: the last record may lack its CRLF.
pub fn end(from: Fed, line: &mut [u8], r: &mut [u64; 72], w: &mut [u64], out: &mut [u8]) -> Run
    ensures line { line.new ≡ line_at_end line.old from.place }
    ensures out { desk result r.new w.new out.new
        ≡ handed_out (desk (emptied from.run) r.old w.old out.old)
        (ending line.old from.place) }
{
    let last = from.place.finish(line);
    hand_out(last, from.run.emptied(), r, w, out)
}
