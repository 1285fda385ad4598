// One record of the log, played on the calls. The arena at work is the first words of a lent buffer; its record stands in 72 words beside
// it.
#![tactic(auto, using(crate::proofs::PlayCode::laws))]

ghost use Rattle.std.specs.Prelude.{◌≡◌};
ghost use Rattle.rules.specs.Calls.{Malloc, Free, Realloc, Memalign};
ghost use Rattle.arena.specs.Answers.{answer_in};
ghost use Rattle.player.specs.PlayBytes.{said, shown, is_ready, scene, call_on, set_up_of, play_b};

use crate::shown::{Shown, offset_of};
use arena::answers::{Reason, Reply, refusal_of};
use arena::control::image_of;
use arena::on_image;
use box_log::entry::Entry;
use chunk::access::BlockOff;

// How many words the arena at work has from now on, 0 for none; and what the record's line says.
#[derive(Clone, Copy, PartialEq, Eq, Debug)]
pub struct Played {
    pub words: usize,
    pub refusal: u64,
    pub offset: u64,
}

// What the line says of a call's answer.
fn answered<T: Shown>(words: usize, a: Result<T, Reason>) -> Played
    ensures { result ≡ shown words (answer_in T.says a) }
{
    Played {
        words,
        refusal: refusal_of(&a),
        offset: offset_of(a),
    }
}

// A set-up was granted, and its words are in the buffer.
fn ready(words: usize, room: usize) -> bool
    ensures { result ≡ is_ready words room }
{
    words != 0 && words <= room
}

// A refused set-up leaves the arena at work as it is.
fn set_up(words: usize, r: &mut [u64; 72], w: &mut [u64], n: usize) -> Played
    ensures { scene result r.new w.new ≡ set_up_of words r.old w.old n }
{
    if n > w.len() {
        return answered::<()>(words, Err(Reason::BadCount));
    }
    let Reply { answer, control } = arena::setup(&mut w[..n]);
    match answer {
        Ok(()) => {
            *r = image_of(control);
            answered(n, answer)
        }
        Err(_) => answered(words, answer),
    }
}

// A record of another form answers 9, before any set-up too. A call before any granted set-up finds no sound arena.
pub fn play(e: Entry, words: usize, r: &mut [u64; 72], w: &mut [u64]) -> Played
    ensures { scene result r.new w.new ≡ play_b e words r.old w.old }
{
    match e {
        Entry::Odd => Played {
            words,
            refusal: 9,
            offset: 0,
        },
        Entry::Setup(n) => set_up(words, r, w, n as usize),
        _ if !ready(words, w.len()) => answered::<()>(words, Err(Reason::Unsound)),
        Entry::Malloc(n) => answered(words, on_image::malloc(r, &mut w[..words], n)),
        Entry::Free(b) => answered(words, on_image::free(r, &mut w[..words], BlockOff(b))),
        Entry::Realloc(b, n) => {
            answered(words, on_image::realloc(r, &mut w[..words], BlockOff(b), n))
        }
        Entry::Memalign(a, n) => answered(words, on_image::memalign(r, &mut w[..words], a, n)),
    }
}
