// One record of the log, read from its bytes.
#![tactic(auto, using(crate::proofs::EntryCode::laws))]

ghost use Rattle.std.specs.Prelude.{◌≡◌};
ghost use Rattle.std.specs.Option.{option_map};
ghost use Rattle.box_log.specs.Decimals.{none, number_of};
ghost use Rattle.box_log.specs.Grammar.{kind_of, called, read_record};
ghost use Rattle.box_log.specs.Found.{below, digit_of, parts_of, two_numbers_of, or_odd};

// What a record says: the call and its numbers, or that it has another form.
#[derive(Clone, Copy, PartialEq, Eq, Debug)]
pub enum Entry {
    Setup(u64),
    Malloc(u64),
    Free(u64),
    Realloc(u64, u64),
    Memalign(u64, u64),
    Odd,
}

// The largest number that a record may hold.
const MOST: u64 = 65535;

fn digit(b: u8) -> Option<u64>
    ensures { result ≡ digit_of b }
{
    match b {
        b'0'..=b'9' => Some(u64::from(b - b'0')),
        _ => None,
    }
}

// The number that the bytes are the plain decimal of. No digit stands behind a lone 0.
fn number(s: &[u8]) -> Option<u64>
    ensures { result ≡ below none (number_of s.now) }
{
    let (first, rest) = s.split_first()?;
    let mut n = digit(*first)?;
    for b in rest {
        let d = digit(*b)?;
        if n == 0 {
            return None;
        }
        n = n * 10 + d;
        if n > MOST {
            return None;
        }
    }
    Some(n)
}

// The parts before and after the first comma.
fn parts(s: &[u8]) -> Option<(&[u8], &[u8])>
    ensures { option_map (λ p. (p.0.now, p.1.now)) result ≡ parts_of s.now }
{
    let k = s.iter().position(|b| *b == b',')?;
    Some((&s[..k], &s[k + 1..]))
}

// Two numbers with a comma between them.
fn two_numbers(s: &[u8]) -> Option<(u64, u64)>
    ensures { result ≡ two_numbers_of s.now }
{
    let (n, m) = parts(s)?;
    Some((number(n)?, number(m)?))
}

// The call of that name, with the numbers that stand behind the name's comma.
fn call(name: &[u8], rest: &[u8]) -> Option<Entry>
    ensures { or_odd result ≡ called (kind_of name.now) rest.now }
{
    match str::from_utf8(name).ok()? {
        "setup" => Some(Entry::Setup(number(rest)?)),
        "malloc" => Some(Entry::Malloc(number(rest)?)),
        "free" => Some(Entry::Free(number(rest)?)),
        "realloc" => {
            let (b, n) = two_numbers(rest)?;
            Some(Entry::Realloc(b, n))
        }
        "memalign" => {
            let (a, n) = two_numbers(rest)?;
            Some(Entry::Memalign(a, n))
        }
        _ => None,
    }
}

// The call that a record holds. Longer than 64 bytes it holds none.
fn call_in(s: &[u8]) -> Option<Entry>
    ensures { or_odd result ≡ read_record s.now }
{
    if s.len() > 64 {
        return None;
    }
    let (name, rest) = parts(s)?;
    call(name, rest)
}

// What the record says.
pub fn read(s: &[u8]) -> Entry
    ensures { result ≡ read_record s.now }
{
    call_in(s).unwrap_or(Entry::Odd)
}
