// Document 02, (xiii): the rebuild after a lost record. One walk of the heads finds the top, a second enters the free chunks into their
// bins, from the lowest offset up. Total: any words have an answer. The record that it makes stands as 72 words.
#![tactic(auto, using(crate::proofs::RebuildCode::laws), unfolding(crate::specs::RebuildBytes::top_here, crate::specs::RebuildBytes::top_of, crate::specs::RebuildBytes::enter_b, crate::specs::RebuildBytes::empty_image, crate::specs::RebuildBytes::allowed_start, crate::specs::RebuildBytes::rebuild_b))]

ghost use Rattle.std.specs.Prelude.{◌≡◌, true};
ghost use Rattle.words.specs.Edition.{wide};
ghost use Rattle.marks.specs.Marks.{turns};
ghost use Rattle.chunk.specs.Running.{Becomes};
ghost use Rattle.rebuild.specs.RebuildBytes.{place_of, top_here, seek_top, top_of, enter_b, fill_from, empty_image, allowed_start, refusal_of, image_or_empty, rebuilt, rebuild_b};

use chunk::access::{ChunkOff, NONE, get, sum};
use chunk::heap::Heap;
use chunk::image::{DVSIZE, LENGTH, SMALLMAP, TOP, TOPSIZE, TREEMAP};
use marks::TURNS;
use sound::words_ok;
use tiles::{chunk_at, head_is};
use treebin::bins::insert_chunk;

// Why no record is made: the words' number or start, or no tiling in the words.
#[derive(Clone, Copy, PartialEq, Eq, Debug)]
pub enum RebuildError {
    BadCount,
    Unsound,
}

// The top stands at p and ends at end. pu: the chunk before is in use.
fn top_here(w: &[u64], end: u64, p: u64, pu: bool) -> bool
    ensures { result ≡ top_here wide w.now end p pu }
{
    pu && p < end && head_is(w, ChunkOff(p), end - p)
}

// Chunks from 0 up to the top: its offset.
fn seek_top(w: &[u64], end: u64) -> Option<u64>
    ensures { result ≡ place_of wide (seek_top wide w.now end turns 0 true) }
{
    let mut p: u64 = 0;
    let mut pu = true;
    for _ in 0..TURNS {
        if top_here(w, end, p, pu) {
            return Some(p);
        }
        let t = chunk_at(w, p, pu, end)?;
        p += t.size;
        pu = t.used;
    }
    None
}

// The foot word, and the walk.
fn find_top(w: &[u64], end: u64) -> Option<u64>
    ensures { result ≡ place_of wide (top_of wide w.now end) }
{
    if get(w, ChunkOff(end), 1) == 80 {
        seek_top(w, end)
    } else {
        None
    }
}

// A free chunk goes into its bin.
fn enter(h: &mut Heap, p: ChunkOff, n: u64)
    ensures { Becomes h.old h.new (enter_b wide h.old.image.now h.old.words.now p.0 n) }
{
    if !h.cinuse(p) {
        insert_chunk(h, p, n);
    }
}

// The chunks from 0 to the top, in address order.
fn fill(h: &mut Heap, top: u64)
    ensures { Becomes h.old h.new (fill_from wide top turns 0 h.old.image.now h.old.words.now) }
{
    let mut p: u64 = 0;
    for _ in 0..TURNS {
        if p >= top {
            return;
        }
        let c = ChunkOff(p);
        let n = h.size(c);
        enter(h, c, n);
        p = sum(p, n);
    }
}

// Every bin empty, no dv.
fn empty_image(top: u64, topsize: u64, length: u64) -> [u64; 72]
    ensures { result ≡ empty_image wide top topsize length }
{
    let mut r = [NONE; 72];
    r[SMALLMAP] = 0;
    r[TREEMAP] = 0;
    r[DVSIZE] = 0;
    r[TOP] = top;
    r[TOPSIZE] = topsize;
    r[LENGTH] = length;
    r[7] = 0;
    r
}

// Set-up's starts: 0 alone, until request (iv).
fn start_ok(start: u64) -> bool
    ensures { result ≡ allowed_start start }
{
    start == 0
}

// A refusal changes no word; its record is set-up's empty one.
pub fn rebuild(w: &mut [u64], start: u64) -> Result<[u64; 72], RebuildError>
    ensures { rebuilt (refusal_of result) (image_or_empty wide result) w.new ≡ rebuild_b wide w.old start }
{
    if !words_ok(w.len()) || !start_ok(start) {
        return Err(RebuildError::BadCount);
    }
    let length = 8 * (w.len() as u64);
    let end = length - 80;
    let top = find_top(w, end).ok_or(RebuildError::Unsound)?;
    let mut r = empty_image(top, end - top, length);
    let mut h = Heap {
        image: &mut r,
        words: w,
    };
    fill(&mut h, top);
    Ok(r)
}
