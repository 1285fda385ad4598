// The calls for C, Rust and whatever else links an archive: the record as 72 words that the caller keeps, the answer as two words.
// A record of another length than 72 or an answer shorter than 2 is refused with 2, and nothing is written.
#![tactic(auto)]

mod answer;

ghost use Rattle.std.specs.Prelude.{◌≡◌, ◌≤◌, ℕ, List, length, Option, None, Some};
ghost use Rattle.rules.specs.Calls.{Call, Malloc, Free, Realloc, Memalign, Usable};
ghost use Rattle.calls.specs.CallBytes.{refusal};
ghost use Rattle.arena.specs.Answers.{answer_in};
ghost use Rattle.arena.specs.Closures.{Makes};
ghost use Rattle.abi.specs.Words.{lent_ok, Taken, copied, said, out_of, call_c, set_up_c, rebuild_c, sound_c, ran, batch_c};

use crate::answer::{Value, odd_record, tell, tell_count};
use arena::answers::Reason;
use arena::control::image_of;
use arena::on_image;
use batch::batch_on_image;
use chunk::access::BlockOff;
use sound::words_ok;

// The image's eighth word, which is 0.
const SPARE: usize = 7;

// ---- what was lent

fn lent_ok(rec: usize, out: usize) -> bool
    ensures { result ≡ lent_ok rec out }
{
    rec == 72 && out >= 2
}

fn image_in(rec: &[u64]) -> [u64; 72]
    requires { length rec.now ≡ 72 }
    ensures { result ≡ rec.now }
{
    let mut r = [0u64; 72];
    r.copy_from_slice(rec);
    r
}

// The record's words, written: the eighth word stays 0.
fn copy_out(r: &mut [u64; 72], rec: &mut [u64])
    requires { length rec.old ≡ 72 }
    ensures { rec.new ≡ copied r.old }
{
    r[SPARE] = 0;
    rec.copy_from_slice(r);
}

// A record that is not taken, and the number of its refusal: too few words were lent, or the eighth of the record's is not 0.
fn turned_down(rec: &[u64], w: &[u64], out: &mut [u64]) -> Option<u64>
    ensures taken { result ≡ None → Taken rec.now out.old out.new }
    ensures call { (n : ℕ) → result ≡ Some n → (k : Call) → said n rec.now w.now out.new ≡ call_c rec.now w.now out.old k }
    ensures batch { (n : ℕ) → result ≡ Some n → (cs xs : List ℕ) → ran n rec.now w.now out.new xs ≡ batch_c rec.now w.now out.old cs xs }
{
    if !lent_ok(rec.len(), out.len()) {
        return Some(u64::from(Reason::Unsound));
    }
    if rec[SPARE] != 0 {
        return Some(tell::<u64>(out, Err(odd_record(w))));
    }
    None
}

// The record's words and the answer's, written.
fn hand_out<T: Value>(
    rec: &mut [u64],
    r: &mut [u64; 72],
    out: &mut [u64],
    a: Result<T, Reason>,
) -> u64
    requires rec_len { length rec.old ≡ 72 }
    requires out_len { 2 ≤ length out.old }
    ensures number { result ≡ refusal (answer_in T.says a) }
    ensures rec { rec.new ≡ copied r.old }
    ensures out { out.new ≡ out_of out.old (answer_in T.says a) }
{
    copy_out(r, rec);
    tell(out, a)
}

// A call on the record that was lent, and its answer.
fn on_record<T: Value, F: FnOnce(&mut [u64; 72], &mut [u64]) -> Result<T, Reason>>(
    rec: &mut [u64],
    w: &mut [u64],
    out: &mut [u64],
    call: F,
) -> u64
    requires { F.IsAlwaysCallable call }
    ensures { (k : Call) → Makes T.says F.FnOnce call k → said result rec.new w.new out.new ≡ call_c rec.old w.old out.old k }
{
    if let Some(number) = turned_down(rec, w, out) {
        return number;
    }
    let mut r = image_in(rec);
    let a = call(&mut r, w);
    hand_out(rec, &mut r, out, a)
}

// ---- the calls

pub fn nuka_setup(rec: &mut [u64], w: &mut [u64], out: &mut [u64]) -> u64
    ensures { said result rec.new w.new out.new ≡ set_up_c rec.old w.old out.old }
{
    if !lent_ok(rec.len(), out.len()) {
        return u64::from(Reason::Unsound);
    }
    let x = arena::setup(w);
    let mut r = image_of(x.control);
    hand_out(rec, &mut r, out, x.answer)
}

// The record that was lent is written, not read.
pub fn nuka_rebuild(rec: &mut [u64], w: &mut [u64], out: &mut [u64], start: u64) -> u64
    ensures { said result rec.new w.new out.new
        ≡ rebuild_c rec.old w.old out.old start }
{
    if !lent_ok(rec.len(), out.len()) {
        return u64::from(Reason::Unsound);
    }
    let x = arena::rebuild(w, start);
    let mut r = image_of(x.control);
    hand_out(rec, &mut r, out, x.answer)
}

pub fn nuka_malloc(rec: &mut [u64], w: &mut [u64], out: &mut [u64], bytes: u64) -> u64
    ensures { said result rec.new w.new out.new ≡ call_c rec.old w.old out.old (Malloc bytes) }
{
    on_record(rec, w, out, |r, w| on_image::malloc(r, w, bytes))
}

pub fn nuka_free(rec: &mut [u64], w: &mut [u64], out: &mut [u64], offset: u64) -> u64
    ensures { said result rec.new w.new out.new ≡ call_c rec.old w.old out.old (Free offset) }
{
    on_record(rec, w, out, |r, w| on_image::free(r, w, BlockOff(offset)))
}

pub fn nuka_realloc(rec: &mut [u64], w: &mut [u64], out: &mut [u64], offset: u64, bytes: u64) -> u64
    ensures { said result rec.new w.new out.new ≡ call_c rec.old w.old out.old (Realloc offset bytes) }
{
    on_record(
        rec,
        w,
        out,
        |r, w| on_image::realloc(r, w, BlockOff(offset), bytes),
    )
}

pub fn nuka_memalign(
    rec: &mut [u64],
    w: &mut [u64],
    out: &mut [u64],
    alignment: u64,
    bytes: u64,
) -> u64
    ensures { said result rec.new w.new out.new ≡ call_c rec.old w.old out.old (Memalign alignment bytes) }
{
    on_record(
        rec,
        w,
        out,
        |r, w| on_image::memalign(r, w, alignment, bytes),
    )
}

pub fn nuka_usable(rec: &[u64], w: &[u64], out: &mut [u64], offset: u64) -> u64
    ensures { said result rec.now w.now out.new ≡ call_c rec.now w.now out.old (Usable offset) }
{
    if let Some(number) = turned_down(rec, w, out) {
        return number;
    }
    let r = image_in(rec);
    tell(out, on_image::usable(&r, w, BlockOff(offset)))
}

// One check for a whole list of calls, three words each; the answers are two words each.
pub fn nuka_batch(
    rec: &mut [u64],
    w: &mut [u64],
    out: &mut [u64],
    calls: &[u64],
    answers: &mut [u64],
) -> u64
    ensures { ran result rec.new w.new out.new answers.new
        ≡ batch_c rec.old w.old out.old calls.now answers.old }
{
    if let Some(number) = turned_down(rec, w, out) {
        return number;
    }
    let mut r = image_in(rec);
    let whole = batch_on_image(&mut r, w, calls, answers);
    copy_out(&mut r, rec);
    tell_count(out, whole, calls.len())
}

// 0 for a sound pair, else the number of the refusal that every call would give.
pub fn nuka_sound(rec: &[u64], w: &[u64]) -> u64
    ensures { result ≡ sound_c rec.now w.now }
{
    if rec.len() != 72 {
        return u64::from(Reason::Unsound);
    }
    if !words_ok(w.len()) {
        return u64::from(Reason::BadCount);
    }
    let r = image_in(rec);
    if r[SPARE] == 0 && sound::sound(&r, w) {
        0
    } else {
        u64::from(Reason::Unsound)
    }
}
