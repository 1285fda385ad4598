// One call of the list, three words, and its line of the answers: a refusal's number, 0 for none, and an offset.
ghost use Rattle.std.specs.Prelude.{◌≡◌};
ghost use Rattle.batch.specs.declared.line.Refusal.TheVariants.{Row};
ghost use Rattle.batch.specs.Lines.{call_of, number_of, line_offset, line_number};

use arena::answers::Reason;
use chunk::access::BlockOff;

#[derive(Clone, Copy)]
pub enum Call {
    Malloc(u64),
    Free(BlockOff),
    Realloc(BlockOff, u64),
    Memalign(u64, u64),
}

// Why a line is refused: one of document 01's rows, or a kind that is not known.
#[derive(Clone, Copy)]
pub enum Refusal {
    Row(Reason),
    UnknownKind,
}

impl From<Reason> for Refusal {
    ghost from_gives = { λ why r. r ≡ Row why };

    fn from(why: Reason) -> Refusal {
        Refusal::Row(why)
    }
}

impl From<Refusal> for u64 {
    ghost from_gives = { λ r n. n ≡ number_of r };

    fn from(refusal: Refusal) -> u64 {
        match refusal {
            Refusal::Row(why) => u64::from(why),
            Refusal::UnknownKind => 9,
        }
    }
}

// Kind 0 to 3 for malloc, free, realloc, memalign, then two numbers, a lone one first.
pub fn call_of(kind: u64, x: u64, y: u64) -> Result<Call, Refusal>
    ensures { result ≡ call_of kind x y }
{
    match kind {
        0 => Ok(Call::Malloc(x)),
        1 => Ok(Call::Free(BlockOff(x))),
        2 => Ok(Call::Realloc(BlockOff(x), y)),
        3 => Ok(Call::Memalign(x, y)),
        _ => Err(Refusal::UnknownKind),
    }
}

// A "done" or a refusal has offset 0.
pub fn words_of(line: Result<u64, Refusal>) -> (u64, u64)
    ensures number { result.0 ≡ line_number line }
    ensures offset { result.1 ≡ line_offset line }
{
    match line {
        Ok(offset) => (0, offset),
        Err(refusal) => (u64::from(refusal), 0),
    }
}
