// Lines of eight decimal numbers, a byte at a time, one space between two. A line that has a # says nothing, nor does an empty one.
ghost use Rattle.std.specs.Prelude.{◌≡◌, ◌<◌};
ghost use Rattle.recorded.specs.Lines.{fresh_line, numbers_read, line_odd, begun, ended, end_line};
ghost use Rattle.recorded.specs.Lines.{with_number_byte, with_odd_byte, with_digit, with_byte, after_byte};

use crate::tally::Tally;
use chunk::access::sum;

// What a line is so far.
#[derive(Clone, Copy, PartialEq, Eq)]
pub enum Kind {
    Empty,
    Comment,
    Numbers,
    Odd,
}

// The line's numbers, which of them is being read, and what the line is so far.
#[derive(Drop)]
pub struct Line {
    pub numbers: [u64; 8],
    pub at: u64,
    pub kind: Kind,
}

impl Line {
    pub fn new() -> Line
        ensures { result ≡ fresh_line }
    {
        Line {
            numbers: [0; 8],
            at: 0,
            kind: Kind::Empty,
        }
    }

    // Number k is being read, and is 0 so far.
    fn begin(&mut self, k: u64)
        ensures { self.new ≡ begun self.old k }
    {
        self.at = k;
        if k < 8 {
            self.numbers[k as usize] = 0;
        }
    }

    fn read_digit(&mut self, digit: u8)
        requires { digit < 10 }
        ensures { self.new ≡ with_digit self.old digit }
    {
        if self.at < 8 {
            let k = self.at as usize;
            self.numbers[k] = self.numbers[k] % 100000000000 * 10 + digit as u64;
        }
    }

    // A byte that is none of a line of numbers.
    fn odd_byte(&mut self)
        ensures { self.new ≡ with_odd_byte self.old }
    {
        if self.kind != Kind::Comment {
            self.kind = Kind::Odd;
        }
    }

    fn number_byte(&mut self)
        ensures { self.new ≡ with_number_byte self.old }
    {
        if self.kind == Kind::Empty {
            self.kind = Kind::Numbers;
        }
    }

    // A byte inside a line.
    fn add(&mut self, b: u8)
        ensures { self.new ≡ with_byte self.old b }
    {
        match b {
            b'#' => self.kind = Kind::Comment,
            b' ' => {
                self.number_byte();
                self.begin(sum(self.at, 1));
            }
            b'0'..=b'9' => {
                self.number_byte();
                self.read_digit(b - b'0');
            }
            _ => self.odd_byte(),
        }
    }

    // The numbers of a line of eight that ends with this byte. The next line's numbers are not begun: that is `end_line`'s.
    pub fn read_byte(&mut self, b: u8) -> Option<[u64; 8]>
        ensures numbers { result ≡ numbers_read self.old b }
        ensures line { self.new ≡ after_byte self.old b }
    {
        if b != b'\n' {
            self.add(b);
            return None;
        }
        match self.kind {
            Kind::Numbers if self.at == 7 => Some(self.numbers),
            _ => None,
        }
    }

    // The line that ends is neither eight numbers nor a comment nor empty.
    fn is_odd(&self) -> bool
        ensures { result ≡ line_odd self.now }
    {
        match self.kind {
            Kind::Odd => true,
            Kind::Numbers => self.at != 7,
            Kind::Empty | Kind::Comment => false,
        }
    }

    pub fn end_line(&mut self, b: u8, tally: &mut Tally)
        ensures { ended self.new tally.new ≡ end_line self.old b tally.old }
    {
        if b == b'\n' {
            tally.count_odd(self.is_odd());
            self.kind = Kind::Empty;
            self.begin(0);
        }
    }
}
