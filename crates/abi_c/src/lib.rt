// The nine calls that C and Rust link by name: each is the function of that name in `abi`, under the same contract.
#![tactic(auto)]

ghost use Rattle.std.specs.Prelude.{◌≡◌};
ghost use Rattle.rules.specs.Calls.{Malloc, Free, Realloc, Memalign, Usable};
ghost use Rattle.abi.specs.Words.{said, call_c, set_up_c, rebuild_c, sound_c, ran, batch_c};

#[unsafe(no_mangle)]
pub extern "C" fn nuka_setup(rec: &mut [u64], w: &mut [u64], out: &mut [u64]) -> u64
    ensures { said result rec.new w.new out.new ≡ set_up_c rec.old w.old out.old }
{
    abi::nuka_setup(rec, w, out)
}

// The record that was lent is written, not read.
#[unsafe(no_mangle)]
pub extern "C" fn nuka_rebuild(rec: &mut [u64], w: &mut [u64], out: &mut [u64], start: u64) -> u64
    ensures { said result rec.new w.new out.new
        ≡ rebuild_c rec.old w.old out.old start }
{
    abi::nuka_rebuild(rec, w, out, start)
}

#[unsafe(no_mangle)]
pub extern "C" fn nuka_malloc(rec: &mut [u64], w: &mut [u64], out: &mut [u64], bytes: u64) -> u64
    ensures { said result rec.new w.new out.new ≡ call_c rec.old w.old out.old (Malloc bytes) }
{
    abi::nuka_malloc(rec, w, out, bytes)
}

#[unsafe(no_mangle)]
pub extern "C" fn nuka_free(rec: &mut [u64], w: &mut [u64], out: &mut [u64], offset: u64) -> u64
    ensures { said result rec.new w.new out.new ≡ call_c rec.old w.old out.old (Free offset) }
{
    abi::nuka_free(rec, w, out, offset)
}

#[unsafe(no_mangle)]
pub extern "C" fn nuka_realloc(
    rec: &mut [u64],
    w: &mut [u64],
    out: &mut [u64],
    offset: u64,
    bytes: u64,
) -> u64
    ensures { said result rec.new w.new out.new ≡ call_c rec.old w.old out.old (Realloc offset bytes) }
{
    abi::nuka_realloc(rec, w, out, offset, bytes)
}

#[unsafe(no_mangle)]
pub extern "C" fn nuka_memalign(
    rec: &mut [u64],
    w: &mut [u64],
    out: &mut [u64],
    alignment: u64,
    bytes: u64,
) -> u64
    ensures { said result rec.new w.new out.new ≡ call_c rec.old w.old out.old (Memalign alignment bytes) }
{
    abi::nuka_memalign(rec, w, out, alignment, bytes)
}

#[unsafe(no_mangle)]
pub extern "C" fn nuka_usable(rec: &[u64], w: &[u64], out: &mut [u64], offset: u64) -> u64
    ensures { said result rec.now w.now out.new ≡ call_c rec.now w.now out.old (Usable offset) }
{
    abi::nuka_usable(rec, w, out, offset)
}

// One check for a whole list of calls, three words each; the answers are two words each.
#[unsafe(no_mangle)]
pub extern "C" fn nuka_batch(
    rec: &mut [u64],
    w: &mut [u64],
    out: &mut [u64],
    calls: &[u64],
    answers: &mut [u64],
) -> u64
    ensures { ran result rec.new w.new out.new answers.new
        ≡ batch_c rec.old w.old out.old calls.now answers.old }
{
    abi::nuka_batch(rec, w, out, calls, answers)
}

// 0 for a sound pair, else the number of the refusal that every call would give.
#[unsafe(no_mangle)]
pub extern "C" fn nuka_sound(rec: &[u64], w: &[u64]) -> u64
    ensures { result ≡ sound_c rec.now w.now }
{
    abi::nuka_sound(rec, w)
}
