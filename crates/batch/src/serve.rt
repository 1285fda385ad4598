// A heap at work and a granule for each of its live blocks, as the calls of one list change them.
ghost use Rattle.std.specs.Prelude.{◌≡◌};
ghost use Rattle.words.specs.Edition.{wide};
ghost use Rattle.rules.specs.Calls.{Malloc, Free, Realloc, Memalign};
ghost use Rattle.chunk.specs.Running.{SameLoans};
ghost use Rattle.arena.specs.Answers.{block_answer, done_answer};
ghost use Rattle.batch.specs.BatchBytes.{said, marked, by_kind};
ghost use Rattle.batch.specs.Lines.{tells, meant, line_number, line_offset, made_by};
ghost use Rattle.batch.specs.Working.{state};

use crate::line::{Call, Refusal, call_of};
use crate::set::{entered, known, moved};
use arena::answers::Reason;
use arena::refusals::{aligned, few};
use chunk::access::{BlockOff, from_mem};
use chunk::heap::Heap;
use free::free_chunk;
use index::sizes::request2size;
use malloc::malloc_chunk;
use marks::Marks;
use memalign::memalign_chunk;
use realloc::realloc_chunk;

fn malloc(heap: &mut Heap, live: &mut Marks, bytes: u64) -> Result<BlockOff, Reason>
    ensures call { tells (block_answer result) (state heap.new live.new) ≡ marked wide (state heap.old live.old) (Malloc bytes) }
    ensures loan { SameLoans heap.old heap.new }
{
    few(heap.words.len(), bytes)?;
    let p = malloc_chunk(heap, request2size(bytes));
    entered(live, p)
}

fn free(heap: &mut Heap, live: &mut Marks, b: BlockOff) -> Result<(), Reason>
    ensures call { tells (done_answer result) (state heap.new live.new) ≡ marked wide (state heap.old live.old) (Free b.0) }
    ensures loan { SameLoans heap.old heap.new }
{
    known(live, b)?;
    live.remove(b.0);
    free_chunk(heap, from_mem(b));
    Ok(())
}

fn realloc(heap: &mut Heap, live: &mut Marks, b: BlockOff, bytes: u64) -> Result<BlockOff, Reason>
    ensures call { tells (block_answer result) (state heap.new live.new) ≡ marked wide (state heap.old live.old) (Realloc b.0 bytes) }
    ensures loan { SameLoans heap.old heap.new }
{
    few(heap.words.len(), bytes)?;
    known(live, b)?;
    let p = realloc_chunk(heap, from_mem(b), request2size(bytes));
    moved(live, b, p)
}

fn memalign(
    heap: &mut Heap,
    live: &mut Marks,
    alignment: u64,
    bytes: u64,
) -> Result<BlockOff, Reason>
    ensures call { tells (block_answer result) (state heap.new live.new) ≡ marked wide (state heap.old live.old) (Memalign alignment bytes) }
    ensures loan { SameLoans heap.old heap.new }
{
    aligned(alignment)?;
    few(heap.words.len(), bytes)?;
    let p = memalign_chunk(heap, alignment, request2size(bytes));
    entered(live, p)
}

// The offset of the answer, 0 for a "done".
fn make(heap: &mut Heap, live: &mut Marks, call: Call) -> Result<u64, Reason>
    ensures call { made_by result (state heap.new live.new) ≡ marked wide (state heap.old live.old) (meant call) }
    ensures loan { SameLoans heap.old heap.new }
{
    match call {
        Call::Malloc(bytes) => malloc(heap, live, bytes).map(|b| b.0),
        Call::Free(b) => free(heap, live, b).map(|()| 0),
        Call::Realloc(b, bytes) => realloc(heap, live, b, bytes).map(|b| b.0),
        Call::Memalign(alignment, bytes) => memalign(heap, live, alignment, bytes).map(|b| b.0),
    }
}

// The call that three words name.
pub fn line(heap: &mut Heap, live: &mut Marks, kind: u64, x: u64, y: u64) -> Result<u64, Refusal>
    ensures call { said (line_number result) (line_offset result) (state heap.new live.new)
        ≡ by_kind (marked wide) (state heap.old live.old) kind x y }
    ensures loan { SameLoans heap.old heap.new }
{
    let call = call_of(kind, x, y)?;
    Ok(make(heap, live, call)?)
}
