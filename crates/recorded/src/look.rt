// A look at the heap: how many chunks lie below the top, and two sums, over heads, feet and links, and over the owners' words.
#![tactic(auto, using(crate::proofs::SumsCode::laws))]

ghost use Rattle.std.specs.Prelude.{◌≡◌, ◌-◌};
ghost use Rattle.recorded.specs.Sums.{Makes, walked, walk, chunks_below, heap_sum, owned_sum};
ghost use Rattle.recorded.specs.Sums.{add_to, add_words, add_links, add_chunk, add_top, add_owned};

use chunk::access::{ChunkOff, get, plus_offset, sum};
use chunk::heads::{cinuse, size};
use chunk::image::{DV, TOP, TOPSIZE};

// The bound of every walk.
const TURNS: u32 = 4096;

// Over the chunks below the top, in address order: `each` makes the next number of the number so far and of a chunk. Where the walk ends,
// and the last number.
fn walk<F: Fn(u64, ChunkOff) -> u64>(r: &[u64; 72], w: &[u64], each: F) -> (ChunkOff, u64)
    requires { F.IsAlwaysCallable each }
    ensures { (h : _) → Makes (F.post each) h → walked result.0.0 result.1 ≡ walk h r.now w.now }
{
    let mut c = ChunkOff(0);
    let mut n: u64 = 0;
    for _ in 0..TURNS {
        if c.0 == r[TOP] {
            return (c, n);
        }
        n = each(n, c);
        c = plus_offset(c, size(w, c));
    }
    (c, n)
}

fn add(s: u64, x: u64) -> u64
    ensures { result ≡ add_to s x }
{
    (s % 1000003 * 31 + x % 1000003) % 1000003
}

fn add_words(w: &[u64], c: ChunkOff, first: u64, last: u64, s: u64) -> u64
    ensures { result ≡ add_words w.now c.0 (last - first) first s }
{
    (first..last).fold(s, |all, k| add(all, get(w, c, (k % 65536) as u32)))
}

fn add_links(r: &[u64; 72], w: &[u64], c: ChunkOff, n: u64, s: u64) -> u64
    ensures { result ≡ add_links r.now w.now c.0 n s }
{
    if c.0 == r[DV] {
        s
    } else if n < 256 {
        add_words(w, c, 2, 4, s)
    } else {
        add_words(w, c, 2, 8, s)
    }
}

fn add_chunk(r: &[u64; 72], w: &[u64], c: ChunkOff, n: u64, s: u64) -> u64
    ensures { result ≡ add_chunk r.now w.now c.0 n s }
{
    let head = add(s, get(w, c, 1));
    if cinuse(w, c) {
        return head;
    }
    let links = add_links(r, w, c, n, head);
    add(links, get(w, plus_offset(c, n), 0))
}

fn add_top(r: &[u64; 72], w: &[u64], c: ChunkOff, s: u64) -> u64
    ensures { result ≡ add_top r.now w.now c.0 s }
{
    let top = add(s, get(w, c, 1));
    add(top, get(w, plus_offset(c, r[TOPSIZE]), 1))
}

fn add_owned(w: &[u64], c: ChunkOff, n: u64, s: u64) -> u64
    ensures { result ≡ add_owned w.now c.0 n s }
{
    if cinuse(w, c) {
        add_words(w, c, 2, n / 8 + 1, s)
    } else {
        s
    }
}

pub fn chunks_below(r: &[u64; 72], w: &[u64]) -> u64
    ensures { result ≡ chunks_below r.now w.now }
{
    let (_, n) = walk(r, w, |n, _| sum(n, 1));
    n
}

pub fn heap_sum(r: &[u64; 72], w: &[u64]) -> u64
    ensures { result ≡ heap_sum r.now w.now }
{
    let (end, s) = walk(r, w, |s, c| add_chunk(r, w, c, size(w, c), s));
    add_top(r, w, end, s)
}

pub fn owned_sum(r: &[u64; 72], w: &[u64]) -> u64
    ensures { result ≡ owned_sum r.now w.now }
{
    let (_, s) = walk(r, w, |s, c| add_owned(w, c, size(w, c), s));
    s
}
