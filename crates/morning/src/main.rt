// Document 01's "A morning on 128 words", case by case, on the calls themselves: what each answers, and where top and dv stand.
#![tactic(auto)]

mod heap;
mod say;

use crate::heap::Heap;
use std::io;

// State M: four blocks, the top at 576.
fn state_m<'a>(rt: &impl Print, words: &'a mut [u64]) -> io::Result<Heap<'a>> {
    let mut heap = Heap::set_up(rt, words)?;
    for bytes in [24, 25, 232, 233] {
        heap.malloc(rt, bytes)?;
    }
    Ok(heap)
}

// State D: block 96 is 32 bytes long, the spare chunk behind it 208.
fn state_d<'a>(rt: &impl Print, words: &'a mut [u64]) -> io::Result<Heap<'a>> {
    let mut heap = state_m(rt, words)?;
    heap.free(rt, 96)?;
    heap.malloc(rt, 24)?;
    Ok(heap)
}

fn fresh_malloc<'a>(rt: &impl Print, words: &'a mut [u64], bytes: u64) -> io::Result<Heap<'a>> {
    let mut heap = Heap::set_up(rt, words)?;
    heap.malloc(rt, bytes)?;
    Ok(heap)
}

// ---- the cases that are not starred

// A resize up to what the top can give, and one byte past it.
fn resized(rt: &impl Print, words: &mut [u64], bytes: u64) -> io::Result<()> {
    let mut heap = fresh_malloc(rt, words, 24)?;
    heap.realloc(rt, 16, bytes)?;
    heap.say(rt)
}

// What is given back is not live.
fn given_back_twice(rt: &impl Print, words: &mut [u64]) -> io::Result<()> {
    let mut heap = state_m(rt, words)?;
    heap.free(rt, 16)?;
    heap.usable(rt, 16)?;
    heap.usable(rt, 48)?;
    heap.free(rt, 16)?;
    heap.say(rt)
}

// On 16 words the top has 48 bytes.
fn sixteen_words(rt: &impl Print) -> io::Result<()> {
    let mut words = [0u64; 16];
    fresh_malloc(rt, &mut words, 24)?.malloc(rt, 0)?;
    fresh_malloc(rt, &mut words, 25)?;
    Ok(())
}

fn set_up(rt: &impl Print, words: &mut [u64]) -> io::Result<()> {
    Heap::set_up(rt, words)?.say(rt)
}

// Counts that no arena has.
fn bad_counts(rt: &impl Print) -> io::Result<()> {
    set_up(rt, &mut [0; 14])?;
    set_up(rt, &mut [0; 17])?;
    set_up(rt, &mut [0; 8194])
}

fn not_starred(rt: &impl Print, words: &mut [u64]) -> io::Result<()> {
    resized(rt, words, 920)?;
    resized(rt, words, 921)?;
    given_back_twice(rt, words)?;
    sixteen_words(rt)?;
    bad_counts(rt)
}

// ---- the starred cases, which are proved, once more

fn served_from_bins(rt: &impl Print, words: &mut [u64]) -> io::Result<()> {
    let mut heap = state_m(rt, words)?;
    heap.say(rt)?;
    heap.free(rt, 16)?;
    heap.malloc(rt, 1)
}

fn served_from_dv(rt: &impl Print, words: &mut [u64]) -> io::Result<()> {
    let mut heap = state_d(rt, words)?;
    heap.say(rt)?;
    heap.malloc(rt, 100)?;
    heap.malloc(rt, 88)?;
    heap.say(rt)
}

fn grown_or_moved(rt: &impl Print, words: &mut [u64], bytes: u64) -> io::Result<()> {
    let mut heap = state_d(rt, words)?;
    heap.realloc(rt, 96, bytes)?;
    heap.say(rt)
}

fn fresh_memalign(rt: &impl Print, words: &mut [u64], alignment: u64) -> io::Result<()> {
    let mut heap = Heap::set_up(rt, words)?;
    heap.memalign(rt, alignment, 24)?;
    heap.say(rt)
}

fn lead_of_32(rt: &impl Print, words: &mut [u64]) -> io::Result<()> {
    let mut heap = fresh_malloc(rt, words, 72)?;
    heap.memalign(rt, 64, 24)?;
    heap.say(rt)
}

fn all_given_back(rt: &impl Print, words: &mut [u64]) -> io::Result<()> {
    let mut heap = state_m(rt, words)?;
    for block in [336, 16, 96, 48] {
        heap.free(rt, block)?;
    }
    heap.say(rt)
}

fn starred(rt: &impl Print, words: &mut [u64]) -> io::Result<()> {
    served_from_bins(rt, words)?;
    served_from_dv(rt, words)?;
    grown_or_moved(rt, words, 232)?;
    grown_or_moved(rt, words, 233)?;
    fresh_malloc(rt, words, 920)?.say(rt)?;
    fresh_malloc(rt, words, 921)?;
    fresh_memalign(rt, words, 64)?;
    fresh_memalign(rt, words, 32)?;
    lead_of_32(rt, words)?;
    all_given_back(rt, words)
}

// ---- document 02, (xiii): the record is lost

// State D: the spare chunk goes into its bin, and the bin serves.
fn record_lost(rt: &impl Print, words: &mut [u64]) -> io::Result<()> {
    state_d(rt, words)?;
    let mut heap = Heap::rebuild(rt, words, 0)?;
    heap.say(rt)?;
    heap.malloc(rt, 100)?;
    heap.malloc(rt, 88)?;
    heap.say(rt)
}

// Without its foot word it is no arena.
fn foot_word_lost(rt: &impl Print, words: &mut [u64; 128]) -> io::Result<()> {
    words[119] = 81;
    Heap::rebuild(rt, words, 0)?.say(rt)
}

fn main(rt: HostRuntime) -> io::Result<()> {
    let mut words = [0u64; 128];
    not_starred(&rt, &mut words)?;
    starred(&rt, &mut words)?;
    record_lost(&rt, &mut words)?;
    foot_word_lost(&rt, &mut words)
}
