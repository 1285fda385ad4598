// An arena's words and its record, and the calls on them, each with its line.
use crate::say::{Bytes, granted, line, record};
use arena::answers::{Reason, Reply};
use arena::control::Control;
use chunk::access::BlockOff;
use std::io;

#[derive(Drop)]
pub struct Heap<'a> {
    words: &'a mut [u64],
    control: Control,
}

impl<'a> Heap<'a> {
    pub fn set_up(rt: &impl Print, words: &'a mut [u64]) -> io::Result<Heap<'a>> {
        let Reply { answer, control } = arena::setup(words);
        line(
            rt,
            &format_args!("set-up on {} words", words.len()),
            answer.map(|_| "done"),
        )?;
        Ok(Heap { words, control })
    }

    // The record is lost, and made anew from the words.
    pub fn rebuild(rt: &impl Print, words: &'a mut [u64], start: u64) -> io::Result<Heap<'a>> {
        let Reply { answer, control } = arena::rebuild(words, start);
        line(
            rt,
            &format_args!("rebuild, start {start}"),
            answer.map(|_| "done"),
        )?;
        Ok(Heap { words, control })
    }

    // The answer of a call that hands a record back.
    fn ask<T, F: FnOnce(Control, &mut [u64]) -> Reply<T>>(&mut self, call: F) -> Result<T, Reason>
        requires { F.IsAlwaysCallable call }
    {
        let Reply { answer, control } = call(self.control, self.words);
        self.control = control;
        answer
    }

    pub fn malloc(&mut self, rt: &impl Print, bytes: u64) -> io::Result<()> {
        let block = self.ask(|c, w| arena::malloc(c, w, bytes));
        granted(rt, &format_args!("malloc {bytes}"), block)
    }

    pub fn free(&mut self, rt: &impl Print, block: u64) -> io::Result<()> {
        let done = self.ask(|c, w| arena::free(c, w, BlockOff(block)));
        line(rt, &format_args!("free {block}"), done.map(|_| "done"))
    }

    pub fn realloc(&mut self, rt: &impl Print, block: u64, bytes: u64) -> io::Result<()> {
        let moved = self.ask(|c, w| arena::realloc(c, w, BlockOff(block), bytes));
        granted(rt, &format_args!("realloc {block} to {bytes}"), moved)
    }

    pub fn memalign(&mut self, rt: &impl Print, alignment: u64, bytes: u64) -> io::Result<()> {
        let block = self.ask(|c, w| arena::memalign(c, w, alignment, bytes));
        granted(rt, &format_args!("memalign {alignment}, {bytes}"), block)
    }

    pub fn usable(&self, rt: &impl Print, block: u64) -> io::Result<()> {
        let answer = arena::usable(self.control, self.words, BlockOff(block));
        line(rt, &format_args!("usable {block}"), answer.map(Bytes))
    }

    // Where the record stands.
    pub fn say(&self, rt: &impl Print) -> io::Result<()> {
        record(rt, self.control)
    }
}
