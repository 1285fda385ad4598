// Damages to the small bins, and free chunks that adjoin.
use crate::bench::{Bench, Damage};
use crate::sample::Place::{Record, Word};
use crate::sample::{SMALLBINS, Sample, TREEBINS};
use chunk::access::{NONE, ROOT};
use chunk::image::{DV, DVSIZE, SMALLMAP, TREEMAP};
use std::io;

// Chunk 80 of 240 leaves its bin and is all that a root of tree bin 0 would be, but for its size.
const TWO_PLACES: &[Damage] = &[
    (
        "a small chunk is in a tree",
        &[
            (Record(SMALLMAP), 0),
            (Record(SMALLBINS + 30), NONE),
            (Record(TREEMAP), 1),
            (Record(TREEBINS), 80),
            (Word(12), 80),
            (Word(13), 80),
            (Word(14), NONE),
            (Word(15), NONE),
            (Word(16), ROOT),
            (Word(17), 0),
        ],
    ),
    (
        "a chunk in a small bin is dv too",
        &[(Record(DV), 80), (Record(DVSIZE), 240)],
    ),
];

const HEADS_AND_FEET: &[Damage] = &[
    ("FLAG4 in a free chunk's head", &[(Word(1), 37)]),
    (
        "the first PINUSE is clear, the chunk free",
        &[(Word(1), 32)],
    ),
    ("a free chunk's foot is wrong", &[(Word(4), 48)]),
    ("PINUSE is set behind a free chunk", &[(Word(5), 35)]),
];

const LINKS: &[Damage] = &[
    (
        "a filled small bin's bit is clear",
        &[(Record(SMALLMAP), 0)],
    ),
    (
        "a filled small bin's head is none",
        &[(Record(SMALLBINS + 4), NONE)],
    ),
    (
        "a small bin's head is the older chunk",
        &[(Record(SMALLBINS + 4), 0)],
    ),
    (
        "a small bin's head is a used chunk",
        &[(Record(SMALLBINS + 4), 32)],
    ),
    (
        "the older chunk of a list is in no place",
        &[(Word(10), NONE)],
    ),
    ("a chunk's word 2 leads to itself", &[(Word(10), 64)]),
    ("the list goes round", &[(Word(2), 64)]),
    ("the list goes on to the top", &[(Word(2), 160)]),
    ("the older chunk's word 3 is none", &[(Word(3), NONE)]),
    ("the newest chunk's word 3 is not none", &[(Word(11), 0)]),
    (
        "two chunks of 32 are in small bin 6",
        &[
            (Record(SMALLMAP), 64),
            (Record(SMALLBINS + 4), NONE),
            (Record(SMALLBINS + 6), 64),
        ],
    ),
];

const ADJOINING: &[Damage] = &[
    (
        "three free chunks adjoin",
        &[
            (Record(DV), 32),
            (Record(DVSIZE), 32),
            (Word(5), 32),
            (Word(8), 32),
            (Word(9), 32),
        ],
    ),
    (
        "a free chunk adjoins the top",
        &[
            (Record(DV), 128),
            (Record(DVSIZE), 32),
            (Word(17), 33),
            (Word(20), 32),
            (Word(21), 784),
        ],
    ),
    (
        "a free chunk covers two more",
        &[(Word(1), 64 + 33), (Word(12), 96)],
    ),
];

pub fn small_bins(rt: &impl Print, bench: &mut Bench) -> io::Result<()> {
    bench.take(rt, Sample::one_in_a_bin(), "M, free 96")?;
    bench.damages(rt, TWO_PLACES)?;
    bench.take(rt, Sample::two_in_a_bin(), "two chunks in small bin 4")?;
    bench.damages(rt, HEADS_AND_FEET)?;
    bench.damages(rt, LINKS)?;
    bench.damages(rt, ADJOINING)
}
