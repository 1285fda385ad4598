// The answer as two words: the refusal's number, 0 where nothing is refused, and the offset or the usable bytes.
ghost use Rattle.std.specs.Prelude.{◌≡◌, ◌≤◌, length};
ghost use Rattle.rules.specs.Calls.{Answer, granted, done, bytes, refused};
ghost use Rattle.calls.specs.CallBytes.{refusal};
ghost use Rattle.arena.specs.Answers.{reason_of, answer_in};
ghost use Rattle.batch.specs.Whole.{whole_number};
ghost use Rattle.abi.specs.Words.{value_of, refused_value, out_of, odd_record, count_out};

use arena::answers::Reason;
use batch::whole::WholeRefusal;
use chunk::access::BlockOff;
use sound::words_ok;

// Reason 5 carries the offset that it was asked about.
fn refused_value(why: Reason) -> u64
    ensures { result ≡ refused_value (reason_of why) }
{
    match why {
        Reason::NotLive(b) => b.0,
        _ => 0,
    }
}

// What a call grants, as the word that C reads beside a 0.
pub trait Value: Copy {
    ghost says: { Self → Answer };

    fn value(self) -> u64
        ensures value { result ≡ value_of (says self) }
        ensures granted { refusal (says self) ≡ 0 };
}

impl Value for BlockOff {
    ghost says = { λ b. granted b.0 };

    fn value(self) -> u64 {
        self.0
    }
}

impl Value for () {
    ghost says = { λ x. done };

    fn value(self) -> u64 {
        0
    }
}

impl Value for u64 {
    ghost says = { λ n. bytes n };

    fn value(self) -> u64 {
        self
    }
}

// The answer's two words, and the number that C gets back.
pub fn tell<T: Value>(out: &mut [u64], answer: Result<T, Reason>) -> u64
    requires { 2 ≤ length out.old }
    ensures number { result ≡ refusal (answer_in T.says answer) }
    ensures out { out.new ≡ out_of out.old (answer_in T.says answer) }
{
    let (n, value) = match answer {
        Ok(granted) => (0, granted.value()),
        Err(why) => (u64::from(why), refused_value(why)),
    };
    out[0] = n;
    out[1] = value;
    n
}

// A record whose eighth word is not 0 is not sound; the word count comes first.
pub fn odd_record(w: &[u64]) -> Reason
    ensures { refused (reason_of result) ≡ odd_record (length w.now) }
{
    if words_ok(w.len()) {
        Reason::Unsound
    } else {
        Reason::BadCount
    }
}

// How many calls of a list were answered: none where the whole was refused.
pub fn tell_count(out: &mut [u64], whole: Result<(), WholeRefusal>, calls: usize) -> u64
    requires { 2 ≤ length out.old }
    ensures number { result ≡ whole_number whole }
    ensures out { out.new ≡ count_out out.old (whole_number whole) calls }
{
    let (n, answered) = match whole {
        Ok(()) => (0, (calls / 3) as u64),
        Err(why) => (u64::from(why), 0),
    };
    out[0] = n;
    out[1] = answered;
    n
}
