// The lines of the record, played: each is a call, or a look at the heap, held against the crate's numbers.
ghost use Rattle.std.specs.Prelude.{◌≡◌, ◌≤◌};
ghost use Rattle.recorded.specs.Lines.{fresh_line};

use crate::entry::{Call, Entry, Spare, Told};
use crate::look::{chunks_below, heap_sum, owned_sum};
use crate::tally::Tally;
use crate::text::Line;
use arena::answers::Reason;
use arena::control::image_of;
use arena::on_image;
use chunk::access::{BlockOff, ChunkOff, NONE, difference, from_mem, put, sum};
use chunk::heads::size;
use chunk::image::{DV, DVSIZE, TOPSIZE};

// Word k of the block becomes call * 8192 + k, from word held on.
fn mark(w: &mut [u64], c: ChunkOff, held: u64, call: u64) {
    let end = size(w, c) / 8 + 1;
    for k in held % 65536 + 2..end {
        put(
            w,
            c,
            (k % 65536) as u32,
            difference(call % 8192 * 8192 + k % 65536, 2),
        );
    }
}

// The refusals that the crate has too; no other may be met.
fn number(why: Reason) -> u64 {
    match why {
        Reason::TooMany => 4,
        Reason::NoRoom => 6,
        _ => 9,
    }
}

// The heap, with how many of the words are the arena's, the call's number in its history, the line that is being read, and the counts.
#[derive(Drop)]
pub struct Player {
    record: [u64; 72],
    words: [u64; 8192],
    arena: usize,
    call: u64,
    line: Line,
    tally: Tally,
    ghost arena_fits: { arena ≤ 8192 },
}

impl Player {
    // No arena yet: the first line of a history sets one up.
    pub fn new() -> Player
        ensures arena { result.arena ≡ 0 }
        ensures line { result.line ≡ fresh_line }
    {
        Player {
            record: [0; 72],
            words: [0; 8192],
            arena: 0,
            call: 0,
            line: Line::new(),
            tally: Tally::default(),
        }
    }

    pub fn tally(&self) -> &Tally
        ensures { result.now ≡ self.now.tally }
    {
        &self.tally
    }

    pub fn read(&mut self, bytes: &[u8]) {
        for &b in bytes {
            if let Some(numbers) = self.line.read_byte(b) {
                self.play(Entry::from(numbers));
            }
            self.line.end_line(b, &mut self.tally);
        }
    }

    // Without an arena nothing is the crate's.
    fn play(&mut self, entry: Entry) {
        match entry {
            Entry::SetUp { words, topsize } => self.set_up(words, topsize),
            _ if self.arena < 16 => self.tally.note(false),
            Entry::Call(call, told) => self.ask(call, told),
            Entry::Look {
                chunks,
                heap,
                owned,
            } => self.look(chunks, heap, owned),
        }
    }

    // Too few words are no arena, nor are more than there are.
    fn set_up(&mut self, words: u64, topsize: u64) {
        self.call = 0;
        let n = (words % 65536) as usize;
        self.arena = if n <= 8192 { n } else { 0 };
        if self.arena < 16 {
            self.tally.note(false);
            return;
        }
        let words = &mut self.words[..];
        let reply = arena::setup(&mut words[..self.arena]);
        self.record = image_of(reply.control);
        self.tally.note(topsize == self.record[TOPSIZE]);
    }

    fn look(&mut self, chunks: u64, heap: u64, owned: u64) {
        let words = &self.words[..self.arena];
        self.tally.looks = sum(self.tally.looks, 1);
        self.tally.note(chunks == chunks_below(&self.record, words));
        self.tally.note(heap == heap_sum(&self.record, words));
        self.tally.note(owned == owned_sum(&self.record, words));
    }

    fn ask(&mut self, call: Call, told: Told) {
        self.call = sum(self.call, 1);
        self.tally.calls = sum(self.tally.calls, 1);
        self.call(call, told);
        self.tally.note(told.topsize == self.record[TOPSIZE]);
        let spare = self.spare();
        self.tally.note(told.spare == spare);
    }

    fn call(&mut self, call: Call, told: Told) {
        let words = &mut self.words[..];
        let w = &mut words[..self.arena];
        let r = &mut self.record;
        match call {
            Call::Malloc { bytes } => {
                let answer = on_image::malloc(r, w, bytes);
                self.block(answer, told, 0);
            }
            Call::Free { block } => {
                let answer = on_image::free(r, w, block);
                self.answered(answer, told);
            }
            Call::Realloc { block, bytes } => {
                let held = difference(size(w, from_mem(block)) / 8, 1) % 65536;
                let answer = on_image::realloc(r, w, block, bytes);
                self.block(answer, told, held);
            }
            Call::Memalign { alignment, bytes } => {
                let answer = on_image::memalign(r, w, alignment, bytes);
                self.block(answer, told, 0);
            }
        }
    }

    fn block(&mut self, answer: Result<BlockOff, Reason>, told: Told, held: u64) {
        match answer {
            Ok(block) => self.granted(block, told, held),
            Err(why) => self.refused(why, told),
        }
    }

    fn answered(&mut self, answer: Result<(), Reason>, told: Told) {
        match answer {
            Ok(()) => self.tally.note(told.answer.is_ok()),
            Err(why) => self.refused(why, told),
        }
    }

    fn granted(&mut self, block: BlockOff, told: Told, held: u64) {
        self.tally.grants = sum(self.tally.grants, 1);
        self.tally.note(told.answer == Ok(block));
        let words = &mut self.words[..];
        mark(&mut words[..self.arena], from_mem(block), held, self.call);
    }

    fn refused(&mut self, why: Reason, told: Told) {
        self.tally.refusals = sum(self.tally.refusals, 1);
        self.tally.note(told.answer == Err(number(why)));
    }

    // The spare chunk, as a line says it.
    fn spare(&self) -> Option<Spare> {
        match self.record[DV] {
            NONE => None,
            dv => Spare::from_numbers(dv, self.record[DVSIZE]),
        }
    }
}
