// The searches of tmalloc_small and tmalloc_large: the best node by its remainder.
#![tactic(auto, using(crate::proofs::SearchLaws::laws))]

ghost use Rattle.std.specs.Prelude.{◌≡◌, ◌+◌};
ghost use Rattle.words.specs.Edition.{wide, no_link};
ghost use Rattle.treebin.specs.Found.{IsFind};
ghost use Rattle.treebin.specs.SearchBytes.{best, no_best, better_b, leftmost, down_b, passed_by, walked, walk_b, best_above, best_tree};

use crate::insert::{LEVELS, child_word};
use chunk::access::{ChunkOff, NONE, link};
use chunk::heads::size;
use chunk::image::{Tree, bin_at, map};
use index::bin_map::filled_from;
use index::tree_bin::{child_side, compute_tree_index, first_key, next_key};

// The best node so far and what it leaves over, or NONE with the largest remainder, so that any node is better.
#[derive(Clone, Copy)]
pub struct Found {
    pub at: ChunkOff,
    pub rsize: u64,
}

// The best on a way down, and the deepest right subtree passed by.
#[derive(Clone, Copy)]
pub struct Way {
    pub found: Found,
    pub rest: ChunkOff,
}

// No node yet: any remainder is better.
fn no_best() -> Found
    ensures { best result.at.0 result.rsize ≡ no_best wide }
{
    Found {
        at: ChunkOff(NONE),
        rsize: NONE,
    }
}

// t, of s bytes, where it holds n with less left over than had.
fn better(had: Found, t: ChunkOff, s: u64, n: u64) -> Found
    ensures { best result.at.0 result.rsize ≡ better_b n t.0 s (best had.at.0 had.rsize) }
{
    if s < n {
        return had;
    }
    if s - n < had.rsize {
        return Found {
            at: t,
            rsize: s - n,
        };
    }
    had
}

fn leftmost_child(w: &[u64], t: ChunkOff) -> ChunkOff
    ensures { result.0 ≡ leftmost wide w.now t.0 }
{
    let c = link(w, t, 4);
    if c.0 == NONE { link(w, t, 5) } else { c }
}

// The best on the way down by leftmost children, if it is better than what is had.
pub fn smallest(w: &[u64], from: ChunkOff, n: u64, had: Found) -> Found
    ensures { best result.at.0 result.rsize ≡ down_b wide w.now n 64 from.0 (best had.at.0 had.rsize) }
{
    let mut t = from;
    let mut b = had;
    for _ in 0..LEVELS {
        if t.0 == NONE {
            break;
        }
        b = better(b, t, size(w, t), n);
        t = leftmost_child(w, t);
    }
    b
}

// The right child that a way to the left passes by, where there is one, else what was passed before.
fn passed_by(w: &[u64], t: ChunkOff, key: u64, before: ChunkOff) -> ChunkOff
    ensures { result.0 ≡ passed_by wide w.now t.0 key before.0 }
{
    if child_side(key) != 0 {
        return before;
    }
    let c = link(w, t, 5);
    if c.0 == NONE { before } else { c }
}

// The way of a size down its own tree: the best on it, and the deepest right subtree passed by.
// At remainder zero it stops at once, and there is nothing left to look at. Document 01 names the form: a loop left by a break with the
// best node, which a `for` can't be.
pub fn walk_own(w: &[u64], root: ChunkOff, n: u64, key: u64) -> Way
    ensures { walked (best result.found.at.0 result.found.rsize) result.rest.0 ≡ walk_b wide w.now n 64 root.0 key (no_link wide) (no_best wide) }
{
    let mut t = root;
    let mut b = no_best();
    let mut rest = ChunkOff(NONE);
    let mut k = key;
    let mut left = LEVELS;
    let way = loop {
        if left == 0 {
            break Way { found: b, rest };
        }
        b = better(b, t, size(w, t), n);
        if b.rsize == 0 {
            break Way {
                found: b,
                rest: ChunkOff(NONE),
            };
        }
        rest = passed_by(w, t, k, rest);
        t = link(w, t, child_word(k));
        if t.0 == NONE {
            break Way { found: b, rest };
        }
        k = next_key(k);
        left -= 1;
    };
    way
}

// What was found, if it is a node.
fn known(b: Found) -> Option<Found>
    ensures { IsFind result (best b.at.0 b.rsize) }
{
    if b.at.0 == NONE { None } else { Some(b) }
}

// The smallest of the first filled tree from bin i on.
pub fn best_from(r: &[u64; 72], w: &[u64], i: u32, n: u64) -> Option<Found>
    ensures { IsFind result (best_above wide r.now w.now i n) }
{
    if i > 31 {
        return None;
    }
    match filled_from(map::<Tree>(r), i) {
        Some(j) => known(smallest(w, bin_at::<Tree>(r, j), n, no_best())),
        None => None,
    }
}

// The smallest tree chunk that fits, by its remainder.
pub fn best_tree(r: &[u64; 72], w: &[u64], n: u64) -> Option<Found>
    ensures { IsFind result (best_tree wide r.now w.now n) }
{
    let i = compute_tree_index(n);
    let root = bin_at::<Tree>(r, i);
    if root.0 == NONE {
        return best_from(r, w, i + 1, n);
    }
    let way = walk_own(w, root, n, first_key(n, i));
    let found = way.found;
    let b = smallest(w, way.rest, n, found);
    if b.at.0 == NONE {
        return best_from(r, w, i + 1, n);
    }
    Some(b)
}
