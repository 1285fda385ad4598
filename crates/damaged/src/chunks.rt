// Damages to the word count, the tiling, the top, the maps and the spare chunk.
use crate::bench::{Bench, Damage};
use crate::sample::Place::{Record, Word};
use crate::sample::{SMALLBINS, Sample, TREEBINS, set_up};
use chunk::access::NONE;
use chunk::image::{DV, DVSIZE, LENGTH, SMALLMAP, TOP, TOPSIZE, TREEMAP};
use sound::sound;
use std::io;

// Everything but the count is as set-up leaves it.
fn set_up_is_sound(words: &mut [u64], n: usize) -> bool {
    if n > words.len() {
        return false;
    }
    let mut record = [0; 72];
    let arena = &mut words[..n];
    set_up(&mut record, arena);
    sound(&record, arena)
}

pub fn counts(rt: &impl Print, bench: &mut Bench) -> io::Result<()> {
    let mut words = [0; 8194];
    for (bad, good, name) in [
        (14, 16, "14 words"),
        (17, 16, "17 words"),
        (127, 128, "127 words"),
        (8194, 8192, "8194 words"),
    ] {
        let refused = !set_up_is_sound(&mut words, bad);
        let accepted = set_up_is_sound(&mut words, good);
        bench.judge(rt, name, refused, accepted)?;
    }
    Ok(())
}

const FRESH: &[Damage] = &[
    ("the record's length is less", &[(Record(LENGTH), 1008)]),
    ("the record's length is more", &[(Record(LENGTH), 1040)]),
    ("PINUSE of a top that is first is clear", &[(Word(1), 944)]),
    ("no foot word", &[(Word(119), 0)]),
];

const HEADS: &[Damage] = &[
    ("FLAG4 in a used chunk's head", &[(Word(1), 39)]),
    ("FLAG4 in the top's head", &[(Word(73), 373)]),
    ("the first PINUSE is clear", &[(Word(1), 34)]),
    ("PINUSE is clear behind a used chunk", &[(Word(5), 50)]),
    (
        "the top's PINUSE is clear behind a used chunk",
        &[(Word(73), 368)],
    ),
    ("the top's CINUSE is set", &[(Word(73), 371)]),
    ("a used chunk's CINUSE is clear", &[(Word(11), 241)]),
    ("the foot word is 96", &[(Word(119), 96)]),
    ("a chunk reaches into the top", &[(Word(41), 275)]),
    ("a chunk ends before the next", &[(Word(41), 243)]),
    ("a size is 0", &[(Word(11), 3)]),
    ("a head of all bits", &[(Word(11), NONE)]),
];

const SIZES: &[Damage] = &[
    (
        "two sizes of 40 in the place of 32 and 48",
        &[(Word(1), 43), (Word(6), 43)],
    ),
    (
        "two sizes of 16 in the place of 32",
        &[(Word(1), 19), (Word(3), 19)],
    ),
];

const TOPS: &[Damage] = &[
    ("the record's top is wrong", &[(Record(TOP), 560)]),
    ("the record's top is none", &[(Record(TOP), NONE)]),
    ("the record's topsize is wrong", &[(Record(TOPSIZE), 352)]),
    (
        "the record's top is the chunk before the top",
        &[(Record(TOP), 320), (Record(TOPSIZE), 624)],
    ),
    (
        "16 bytes between the last chunk and the top",
        &[(Record(TOP), 592), (Record(TOPSIZE), 352), (Word(75), 353)],
    ),
];

const EMPTY_PLACES: &[Damage] = &[
    ("dvsize without a dv", &[(Record(DVSIZE), 32)]),
    (
        "dv is a used chunk",
        &[(Record(DV), 32), (Record(DVSIZE), 48)],
    ),
    ("dv is the top", &[(Record(DV), 576), (Record(DVSIZE), 368)]),
    (
        "bit 4 is set, small bin 4 is empty",
        &[(Record(SMALLMAP), 16)],
    ),
    (
        "bit 32 of the small map is set",
        &[(Record(SMALLMAP), 1 << 32)],
    ),
    ("bit 0 is set, tree bin 0 is empty", &[(Record(TREEMAP), 1)]),
    (
        "bit 32 of the tree map is set",
        &[(Record(TREEMAP), 1 << 32)],
    ),
    (
        "an empty small bin's head is not none",
        &[(Record(SMALLBINS + 4), 0)],
    ),
    (
        "an empty tree bin's root is not none",
        &[(Record(TREEBINS), 80)],
    ),
];

const SPARE: &[Damage] = &[
    ("dv's size is wrong", &[(Record(DVSIZE), 192)]),
    ("dv is the chunk before it", &[(Record(DV), 80)]),
    ("dv is no multiple of 16", &[(Record(DV), 120)]),
    ("dv is past the arena", &[(Record(DV), 65648)]),
    ("dv's foot is wrong", &[(Word(40), 192)]),
    ("PINUSE is set behind dv", &[(Word(41), 259)]),
    ("dv's PINUSE is clear", &[(Word(15), 208)]),
    ("dv's CINUSE is set", &[(Word(15), 211)]),
    (
        "a free chunk in no place",
        &[(Record(DV), NONE), (Record(DVSIZE), 0)],
    ),
    (
        "dv is in its small bin too",
        &[
            (Record(SMALLMAP), 1 << 26),
            (Record(SMALLBINS + 26), 112),
            (Word(16), NONE),
            (Word(17), NONE),
        ],
    ),
];

pub fn tilings(rt: &impl Print, bench: &mut Bench) -> io::Result<()> {
    bench.take(rt, Sample::fresh(128), "fresh")?;
    bench.damages(rt, FRESH)?;
    bench.take(rt, Sample::four_used(), "M")?;
    bench.damages(rt, HEADS)?;
    bench.damages(rt, SIZES)?;
    bench.damages(rt, TOPS)?;
    bench.damages(rt, EMPTY_PLACES)?;
    bench.take(rt, Sample::one_spare(), "D")?;
    bench.damages(rt, SPARE)
}
