// Damages to a tree, on 512 words. Word k of the root 32 is word 4 + k of the arena, of its ring's member 496 word 62 + k, of child 0,
// 960, word 120 + k, of child 1, 1392, word 174 + k.
use crate::bench::{Bench, Damage};
use crate::sample::Place::{Record, Word};
use crate::sample::{SMALLBINS, Sample, TREEBINS};
use chunk::access::{NONE, ROOT};
use chunk::image::{SMALLMAP, TREEMAP};
use std::io;

const BINS: &[Damage] = &[
    ("a filled tree bin's bit is clear", &[(Record(TREEMAP), 0)]),
    (
        "bit 0 is set too, tree bin 0 is empty",
        &[(Record(TREEMAP), 3)],
    ),
    (
        "a filled tree bin's root is none",
        &[(Record(TREEBINS + 1), NONE)],
    ),
    (
        "a tree bin's root is a child",
        &[(Record(TREEBINS + 1), 960)],
    ),
    (
        "a tree bin's root is a ring member",
        &[(Record(TREEBINS + 1), 496)],
    ),
    (
        "a tree bin's root is a used chunk",
        &[(Record(TREEBINS + 1), 0)],
    ),
    (
        "a tree of bin 1's sizes is in bin 2",
        &[
            (Record(TREEMAP), 4),
            (Record(TREEBINS + 1), NONE),
            (Record(TREEBINS + 2), 32),
            (Word(11), 2),
            (Word(69), 2),
            (Word(127), 2),
            (Word(181), 2),
        ],
    ),
    (
        "a large chunk is in a small bin",
        &[
            (Word(8), NONE),
            (Record(SMALLMAP), 16),
            (Record(SMALLBINS + 4), 960),
            (Word(122), NONE),
            (Word(123), NONE),
        ],
    ),
];

const NODES: &[Damage] = &[
    ("the root's word 7 is wrong", &[(Word(11), 0)]),
    ("a child's word 7 is wrong", &[(Word(127), 2)]),
    ("a ring member's word 7 is wrong", &[(Word(69), 0)]),
    ("the root's parent word is none", &[(Word(10), NONE)]),
    ("the root's parent word is the root", &[(Word(10), 32)]),
    (
        "a child's parent word is the other child",
        &[(Word(126), 1392)],
    ),
    ("a child's parent word is none", &[(Word(126), NONE)]),
    (
        "a child's parent word is the root's marker",
        &[(Word(126), ROOT)],
    ),
    ("FLAG4 in the root's head", &[(Word(5), 437)]),
    ("the root's foot is wrong", &[(Word(58), 416)]),
];

const CHILDREN: &[Damage] = &[
    (
        "the children have changed sides",
        &[(Word(8), 1392), (Word(9), 960)],
    ),
    ("child 0 is in no place", &[(Word(8), NONE)]),
    ("child 1 is in no place", &[(Word(9), NONE)]),
    ("both children are one chunk", &[(Word(9), 960)]),
    ("a chunk has two parents", &[(Word(124), 1392)]),
    ("a child's child is the root", &[(Word(124), 32)]),
    ("a child's child is a used chunk", &[(Word(125), 0)]),
    (
        "a size above the half is below child 0",
        &[(Word(9), NONE), (Word(125), 1392), (Word(180), 960)],
    ),
];

const RINGS: &[Damage] = &[
    ("the root's word 2 leads to itself", &[(Word(6), 32)]),
    ("the root's word 3 leads to itself", &[(Word(7), 32)]),
    ("a ring member's word 2 leads to itself", &[(Word(64), 496)]),
    ("a ring member's word 3 leads to itself", &[(Word(65), 496)]),
    ("a lone chunk's word 2 is none", &[(Word(122), NONE)]),
    ("a lone chunk's word 3 is none", &[(Word(123), NONE)]),
    ("a ring member has a parent", &[(Word(68), 32)]),
    ("a ring member has a child 0", &[(Word(66), 960)]),
    ("a ring member has a child 1", &[(Word(67), 1392)]),
    (
        "a ring member is in no place",
        &[(Word(6), 32), (Word(7), 32)],
    ),
];

const MOVED: &[Damage] = &[
    // the ring's other member stands below child 0 instead
    (
        "one size is twice in a tree",
        &[
            (Word(6), 32),
            (Word(7), 32),
            (Word(64), 496),
            (Word(65), 496),
            (Word(68), 960),
            (Word(125), 496),
        ],
    ),
    // child 0 stands in child 1's ring instead
    (
        "two sizes are in one ring",
        &[
            (Word(8), NONE),
            (Word(126), NONE),
            (Word(122), 1392),
            (Word(123), 1392),
            (Word(176), 960),
            (Word(177), 960),
        ],
    ),
];

pub fn trees(rt: &impl Print, bench: &mut Bench) -> io::Result<()> {
    bench.take(rt, Sample::tree(), "a tree with two children and a ring")?;
    bench.damages(rt, BINS)?;
    bench.damages(rt, NODES)?;
    bench.damages(rt, CHILDREN)?;
    bench.damages(rt, RINGS)?;
    bench.damages(rt, MOVED)
}
