// What a line of eight numbers says: kind a b refusal offset topsize dv dvsize.
ghost use Rattle.std.specs.Prelude.{◌≡◌};
ghost use Rattle.recorded.specs.Lines.{spare_said};

use chunk::access::BlockOff;

#[derive(Clone, Copy)]
pub enum Call {
    Malloc { bytes: u64 },
    Free { block: BlockOff },
    Realloc { block: BlockOff, bytes: u64 },
    Memalign { alignment: u64, bytes: u64 },
}

// A spare chunk: where it lies, and its bytes.
#[derive(Clone, Copy, PartialEq, Eq)]
pub struct Spare {
    at: u64,
    bytes: u64,
}

impl Spare {
    // A line has 0 0 where there is none.
    pub fn from_numbers(at: u64, bytes: u64) -> Option<Spare>
        ensures { result ≡ spare_said at bytes }
    {
        match (at, bytes) {
            (0, 0) => None,
            _ => Some(Spare { at, bytes }),
        }
    }
}

// What the crate answered, a block's offset or a refusal's number, and its top and its spare chunk after the call.
#[derive(Clone, Copy)]
pub struct Told {
    pub answer: Result<BlockOff, u64>,
    pub topsize: u64,
    pub spare: Option<Spare>,
}

#[derive(Clone, Copy)]
pub enum Entry {
    // A new history begins, in an arena of so many words.
    SetUp { words: u64, topsize: u64 },
    Call(Call, Told),
    // How many chunks there are, and the two sums.
    Look { chunks: u64, heap: u64, owned: u64 },
}

// A kind past 5 is read as a memalign.
impl From<[u64; 8]> for Entry {
    fn from(line: [u64; 8]) -> Entry {
        let [kind, a, b, refusal, offset, topsize, dv, dvsize] = line;
        let call = match kind {
            0 => return Entry::SetUp { words: a, topsize },
            1 => Call::Malloc { bytes: a },
            2 => Call::Free { block: BlockOff(a) },
            3 => Call::Realloc {
                block: BlockOff(a),
                bytes: b,
            },
            5 => {
                return Entry::Look {
                    chunks: a,
                    heap: b,
                    owned: offset,
                };
            }
            _ => Call::Memalign {
                alignment: a,
                bytes: b,
            },
        };
        let told = Told {
            answer: match refusal {
                0 => Ok(BlockOff(offset)),
                _ => Err(refusal),
            },
            topsize,
            spare: Spare::from_numbers(dv, dvsize),
        };
        Entry::Call(call, told)
    }
}
