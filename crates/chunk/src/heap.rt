// A heap at work: its record and the arena's words, both lent. A step that writes words alone takes them alone, and the check, which
// changes nothing, reads both as they are.
ghost use Rattle.std.specs.Prelude.{◌≡◌};
ghost use Rattle.words.specs.Edition.{wide};
ghost use Rattle.chunk.specs.Bytes.{word};

use crate::access;
use crate::access::ChunkOff;

#[derive(Drop)]
pub struct Heap<'a> {
    pub image: &'a mut [u64; 72],
    pub words: &'a mut [u64],
}

impl Heap<'_> {
    // Word k of the chunk at c.
    pub fn get(&self, c: ChunkOff, k: u32) -> u64
        ensures { result ≡ word wide self.now.words.now c.0 k }
    {
        access::get(self.words, c, k)
    }

    // The chunk that word k of c leads to.
    pub fn link(&self, c: ChunkOff, k: u32) -> ChunkOff
        ensures { result.0 ≡ word wide self.now.words.now c.0 k }
    {
        access::link(self.words, c, k)
    }
}
