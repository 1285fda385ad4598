// The calls: set-up, malloc, free, realloc, memalign, usable, lend, rebuild, for any record, arena and numbers.
// The record goes in and out by value.
#![tactic(auto, using(crate::proofs::CallsCode::laws))]

pub mod answers;
pub mod control;
pub mod on_image;
pub mod refusals;

ghost use Rattle.std.specs.Prelude.{◌≡◌, ◌+◌, ◌*◌, is_ok};
ghost use Rattle.words.specs.Logic.{pick};
ghost use Rattle.words.specs.Edition.{wide};
ghost use Rattle.rules.specs.Calls.{Answer, Call, Malloc, Free, Realloc, Memalign, Usable};
ghost use Rattle.lend.specs.LendBytes.{lent, lent_from};
ghost use Rattle.calls.specs.Record.{image, numbers_of};
ghost use Rattle.calls.specs.ByValue.{ends, call_a, set_up_a, rebuild_a};
ghost use Rattle.arena.specs.Record.{numbers};
ghost use Rattle.arena.specs.Answers.{answer_in, block_answer, done_answer, bytes_answer};
ghost use Rattle.arena.specs.Closures.{Makes, HandsOver};

use crate::answers::{Reason, Reply};
use crate::control::{Control, control_of, control_with, image_of};
use chunk::access::{BlockOff, NONE};
use sound::words_ok;

// A refused call hands back the record that it was given.
fn hand_back<T>(answer: Result<T, Reason>, r: &[u64; 72], c: Control) -> Reply<T>
    ensures answer { result.answer ≡ answer }
    ensures control { numbers result.control ≡ pick (is_ok answer) (numbers_of r.now) (numbers c) }
{
    let control = if answer.is_ok() { control_of(r) } else { c };
    Reply { answer, control }
}

// A call on the record's words, for a record that goes in and out by value.
fn by_value<T, F: FnOnce(&mut [u64; 72], &mut [u64]) -> Result<T, Reason>>(
    c: Control,
    w: &mut [u64],
    call: F,
) -> Reply<T>
    requires { F.IsAlwaysCallable call }
    ensures { (says : T → Answer) (k : Call) → HandsOver says → Makes says F.FnOnce call k
        → ends (answer_in says result.answer) (numbers result.control) w.new ≡ call_a wide (numbers c) w.old k }
{
    let mut r = image_of(c);
    let a = call(&mut r, w);
    hand_back(a, &r, c)
}

// Two words are written: the top's head and the foot word.
pub fn setup(w: &mut [u64]) -> Reply<()>
    ensures { ends (done_answer result.answer) (numbers result.control) w.new ≡ set_up_a wide w.old }
{
    if !words_ok(w.len()) {
        return Reply {
            answer: Err(Reason::BadCount),
            control: control_with(NONE, 0, 0),
        };
    }
    let n = w.len();
    let length = 8 * (n as u64);
    w[1] = length - 79;
    w[n - 9] = 80;
    Reply {
        answer: Ok(()),
        control: control_with(0, length - 80, length),
    }
}

pub fn malloc(c: Control, w: &mut [u64], bytes: u64) -> Reply<BlockOff>
    ensures { ends (block_answer result.answer) (numbers result.control) w.new ≡ call_a wide (numbers c) w.old (Malloc bytes) }
{
    by_value(c, w, |r, w| on_image::malloc(r, w, bytes))
}

pub fn free(c: Control, w: &mut [u64], b: BlockOff) -> Reply<()>
    ensures { ends (done_answer result.answer) (numbers result.control) w.new ≡ call_a wide (numbers c) w.old (Free b.0) }
{
    by_value(c, w, |r, w| on_image::free(r, w, b))
}

pub fn realloc(c: Control, w: &mut [u64], b: BlockOff, bytes: u64) -> Reply<BlockOff>
    ensures { ends (block_answer result.answer) (numbers result.control) w.new ≡ call_a wide (numbers c) w.old (Realloc b.0 bytes) }
{
    by_value(c, w, |r, w| on_image::realloc(r, w, b, bytes))
}

pub fn memalign(c: Control, w: &mut [u64], alignment: u64, bytes: u64) -> Reply<BlockOff>
    ensures { ends (block_answer result.answer) (numbers result.control) w.new ≡ call_a wide (numbers c) w.old (Memalign alignment bytes) }
{
    by_value(c, w, |r, w| on_image::memalign(r, w, alignment, bytes))
}

// The bytes of a live block that are its owner's. Neither record nor arena is changed.
pub fn usable(c: Control, w: &[u64], b: BlockOff) -> Result<u64, Reason>
    ensures { ends (bytes_answer result) (numbers c) w.now ≡ call_a wide (numbers c) w.now (Usable b.0) }
{
    let r = image_of(c);
    on_image::usable(&r, w, b)
}

// The words of a live block as a part of the arena, empty exactly where `usable` refuses.
pub fn lend<'a>(c: Control, w: &'a mut [u64], b: BlockOff) -> &'a mut [u64]
    ensures words { result.now ≡ lent wide (image (numbers c)) w.old b.0 }
    ensures block { result.ref_ptr.0 ≡ w.entry.ref_ptr.0 }
    ensures start { result.ref_ptr.1 ≡ lent_from wide (image (numbers c)) w.old b.0 * 8 + w.entry.ref_ptr.1 }
{
    let r = image_of(c);
    lend::lend(&r, w, b)
}

// The record is lost: a new one, from the arena's words and its start alone; set-up's empty one where it is refused.
pub fn rebuild(w: &mut [u64], start: u64) -> Reply<()>
    ensures { ends (done_answer result.answer) (numbers result.control) w.new ≡ rebuild_a wide w.old start }
{
    match rebuild::rebuild(w, start) {
        Ok(r) => Reply {
            answer: Ok(()),
            control: control_of(&r),
        },
        Err(why) => Reply {
            answer: Err(Reason::from(why)),
            control: control_with(NONE, 0, 0),
        },
    }
}
