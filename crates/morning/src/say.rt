// The lines on standard output: a call with its answer, and where the record stands.
use arena::answers::Reason;
use arena::control::Control;
use chunk::access::{BlockOff, NONE};
use std::fmt::Display;
use std::{fmt, io};

// A place of the record, or none.
#[derive(Drop)]
struct Place(u64);

impl Display for Place {
    fn fmt<W: fmt::Write>(&self, f: &mut fmt::Formatter<W>) -> fmt::Result {
        let at = self.0;
        if at == NONE {
            f.write_str("none")
        } else {
            write!(f, "{at}")
        }
    }
}

#[derive(Drop)]
pub struct Bytes(pub u64);

impl Display for Bytes {
    fn fmt<W: fmt::Write>(&self, f: &mut fmt::Formatter<W>) -> fmt::Result {
        write!(f, "{} bytes", self.0)
    }
}

// When the box says no, in words, behind document 01's number.
#[derive(Drop)]
struct Refusal(Reason);

impl Display for Refusal {
    fn fmt<W: fmt::Write>(&self, f: &mut fmt::Formatter<W>) -> fmt::Result {
        let why = self.0;
        write!(f, "refused: {}, ", u64::from(why))?;
        match why {
            Reason::BadCount => f.write_str("the word count is not allowed"),
            Reason::Unsound => f.write_str("not sound"),
            Reason::BadAlignment => f.write_str("no such alignment"),
            Reason::TooMany => f.write_str("more bytes than the arena has"),
            Reason::NotLive(b) => write!(f, "no live block at {}", b.0),
            Reason::NoRoom => f.write_str("no room"),
        }
    }
}

// The line of a call: what it was asked, and its answer.
pub fn line<T: Display + Drop>(
    rt: &impl Print,
    call: &impl Display,
    answer: Result<T, Reason>,
) -> io::Result<()> {
    match answer {
        Ok(value) => println!(rt; "{call} -> {value}"),
        Err(why) => println!(rt; "{call} -> {}", Refusal(why)),
    }
}

// The line of a call that grants a block: where it starts.
pub fn granted(
    rt: &impl Print,
    call: &impl Display,
    answer: Result<BlockOff, Reason>,
) -> io::Result<()> {
    line(rt, call, answer.map(|b| b.0))
}

pub fn record(rt: &impl Print, c: Control) -> io::Result<()> {
    let (top, dv) = (Place(c.top.0), Place(c.dv.0));
    println!(rt;
        "    top {top}, topsize {}, dv {dv}, dvsize {}",
        c.topsize, c.dvsize
    )
}
