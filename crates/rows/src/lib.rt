// Rows 3 and 4 of document 01's table, asked by the calls one at a time and by the batch alike.
#![tactic(auto)]

ghost use Rattle.std.specs.Prelude.{◌≡◌, ◌*◌, ltb};
ghost use Rattle.words.specs.Edition.{W, wide};
ghost use Rattle.rules.specs.Calls.{is_in, alignments};

// Row 4: more bytes than the arena has. In words, rounded up, since 8 times any word count may be too large a number.
pub fn too_many(words: usize, bytes: u64) -> bool
    ensures { result ≡ ltb (W wide * words) bytes }
{
    (words as u64) < bytes.div_ceil(8)
}

// Row 3: 32, 64, .. 4,096.
pub fn alignment_ok(alignment: u64) -> bool
    ensures { result ≡ is_in alignment (alignments wide) }
{
    matches!(alignment, 32 | 64 | 128 | 256 | 512 | 1024 | 2048 | 4096)
}
