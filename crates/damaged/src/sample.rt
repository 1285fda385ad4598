// The good heaps, made by the core's own calls.
ghost use Rattle.std.specs.Prelude.{◌≡◌, ◌≤◌, take};
ghost use Rattle.words.specs.Edition.{wide};
ghost use Rattle.sound.specs.SoundBytes.{sound_b};

use chunk::access::{BlockOff, ChunkOff, NONE, difference, from_mem, put};
use chunk::heads::set_top_head;
use chunk::heap::Heap;
use chunk::image::{LENGTH, SMALLMAP, Small, TREEMAP, Tree, set_bin};
use free::free_chunk;
use index::sizes::request2size;
use malloc::malloc_chunk;
use sound::sound;

// A word of the record, or of the arena.
#[derive(Clone, Copy)]
pub enum Place {
    Record(usize),
    Word(usize),
}

// The record's words of small bin 0 and of tree bin 0; those of the next bins come behind.
pub const SMALLBINS: usize = 8;

pub const TREEBINS: usize = 40;

// As set-up leaves an arena of fewer than 65536 words: every bin empty, all that there is in the top.
pub fn set_up(image: &mut [u64; 72], words: &mut [u64]) {
    let length = 8 * (words.len() as u64 % 65536);
    image[SMALLMAP] = 0;
    image[TREEMAP] = 0;
    image[LENGTH] = length;
    image[7] = 0;
    for i in 0..32 {
        set_bin::<Small>(image, i, ChunkOff(NONE));
        set_bin::<Tree>(image, i, ChunkOff(NONE));
    }
    let n = difference(length, 80);
    let mut heap = Heap { image, words };
    heap.no_dv();
    heap.set_top(ChunkOff(0), n);
    set_top_head(heap.words, ChunkOff(0), n);
    put(heap.words, ChunkOff(n), 1, 80);
}

// The arena is the first words of the 512.
#[derive(Clone, Copy)]
pub struct Sample {
    record: [u64; 72],
    words: [u64; 512],
    arena: usize,
    ghost arena_fits: { arena ≤ 512 },
}

impl Sample {
    // An arena of n words, and nothing in it.
    pub fn fresh(n: usize) -> Sample
        requires { n ≤ 512 }
        ensures { result.arena ≡ n }
    {
        let mut record = [0; 72];
        let mut words = [0; 512];
        set_up(&mut record, &mut words[..n]);
        Sample {
            record,
            words,
            arena: n,
        }
    }

    // Chunks 0 of 32, 32 of 48, 80 of 240, 320 of 256, all in use; the top at 576.
    pub fn four_used() -> Sample {
        let mut heap = Sample::fresh(128);
        heap.malloc(24);
        heap.malloc(25);
        heap.malloc(232);
        heap.malloc(233);
        heap
    }

    // The same with chunk 80 in small bin 30.
    pub fn one_in_a_bin() -> Sample {
        let mut heap = Sample::four_used();
        heap.free(96);
        heap
    }

    // The same with chunk 80 of 32 in use, and the spare chunk 112 of 208.
    pub fn one_spare() -> Sample {
        let mut heap = Sample::one_in_a_bin();
        heap.malloc(24);
        heap
    }

    // Five chunks of 32; those at 64 and 0 are small bin 4, the newest first; the top at 160.
    pub fn two_in_a_bin() -> Sample {
        let mut heap = Sample::fresh(128);
        for _ in 0..5 {
            heap.malloc(24);
        }
        heap.free(16);
        heap.free(80);
        heap
    }

    // Tree bin 1: root 32 of 432, in its ring 496; child 0 is 960 of 400, child 1 is 1392 of 464. Between them chunks of 32 in use.
    pub fn tree() -> Sample {
        let mut heap = Sample::fresh(512);
        for bytes in [424, 424, 392, 456] {
            heap.malloc(24);
            heap.malloc(bytes);
        }
        heap.malloc(24);
        for block in [48, 976, 1408, 512] {
            heap.free(block);
        }
        heap
    }

    fn malloc(&mut self, bytes: u64) {
        let words = &mut self.words[..];
        let mut heap = Heap {
            image: &mut self.record,
            words: &mut words[..self.arena],
        };
        malloc_chunk(&mut heap, request2size(bytes));
    }

    fn free(&mut self, block: u64) {
        let words = &mut self.words[..];
        let mut heap = Heap {
            image: &mut self.record,
            words: &mut words[..self.arena],
        };
        free_chunk(&mut heap, from_mem(BlockOff(block)));
    }

    pub fn put(&mut self, place: Place, value: u64) {
        match place {
            Place::Record(k) if k < 72 => self.record[k] = value,
            Place::Word(k) if k < 512 => self.words[k] = value,
            _ => {}
        }
    }

    pub fn is_sound(&self) -> bool
        ensures { result ≡ sound_b wide self.now.record (take self.now.arena self.now.words) }
    {
        sound(&self.record, &self.words[..self.arena])
    }
}
