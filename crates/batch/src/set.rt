// The set of live blocks: row 5 asks it, and it follows what the core has answered.
ghost use Rattle.std.specs.Prelude.{◌≡◌};
ghost use Rattle.words.specs.Edition.{wide};
ghost use Rattle.arena.specs.Answers.{block_answer};
ghost use Rattle.batch.specs.BatchBytes.{enters, moves};
ghost use Rattle.batch.specs.Lines.{tells, known_row, link_of, Known};

use arena::answers::Reason;
use arena::refusals::granted;
use chunk::access::{BlockOff, ChunkOff};
use marks::Marks;

// Row 5.
pub fn known(live: &Marks, b: BlockOff) -> Result<(), Reason>
    ensures { result ≡ known_row live.now b }
{
    if live.has(b.0) {
        Ok(())
    } else {
        Err(Reason::NotLive(b))
    }
}

// Row 6, or the new block is live.
pub fn entered(live: &mut Marks, p: Option<ChunkOff>) -> Result<BlockOff, Reason>
    requires { Known p }
    ensures { tells (block_answer result) live.new ≡ enters wide live.old (link_of p) }
{
    let b = granted(p)?;
    live.insert(b.0);
    Ok(b)
}

// Row 6, or the block is live where it is now.
pub fn moved(live: &mut Marks, old: BlockOff, p: Option<ChunkOff>) -> Result<BlockOff, Reason>
    requires { Known p }
    ensures { tells (block_answer result) live.new ≡ moves wide live.old old.0 (link_of p) }
{
    let b = granted(p)?;
    live.remove(old.0);
    live.insert(b.0);
    Ok(b)
}
