// The bins of large chunks, and the way down a bin's tree, for words of 64 bits.
ghost use Rattle.std.specs.Prelude.{◌≡◌, ◌*◌, ◌%◌, ◌^◌, ◌<◌};
ghost use Rattle.index.specs.TreeBin.{min_size, tree_index, left_shift, key_at, side};

// The bin of a size, from its leading zeros. A size is held at 0xffffff, which is in bin 31 with all above it. From 256 on
// its highest set bit is k + 8; below 256 k is 0. Bit i of `pairs` is set where the bits i and i - 1 of the size are: at k + 8
// that is the upper half of a pair of bins, and below 256 nothing.
pub fn compute_tree_index(size: u64) -> u32
    ensures { result ≡ tree_index size }
{
    let held = if size > 0xffffff { 0xffffff } else { size };
    let k = 55 - u64::leading_zeros(held | 256);
    let pairs = held & (held << 1);
    2 * k + (pairs >> (k + 8)) as u32
}

// The smallest size of a bin.
pub fn min_size_for_tree_index(i: u32) -> u64
    ensures { result ≡ min_size (i % 32) }
{
    let bin = i % 32;
    let half = bin >> 1;
    let odd = (bin & 1) as u64;
    (1 << (half + 8)) | (odd << (half + 7))
}

// How far a size of the bin is shifted left to have its first branching bit on top.
pub fn leftshift_for_tree_index(i: u32) -> u32
    ensures { result ≡ left_shift 64 (i % 32) }
{
    let bin = i % 32;
    if bin == 31 { 0 } else { 63 - ((bin >> 1) + 6) }
}

// The shifted size that the way down starts with.
pub fn first_key(size: u64, i: u32) -> u64
    ensures { result ≡ key_at 64 (i % 32) size 0 }
{
    size << leftshift_for_tree_index(i)
}

// The child that a shifted size chooses: its highest bit.
pub fn child_side(key: u64) -> u64
    ensures { (result ≡ side 64 key) × (result < 2) }
{
    key >> 63
}

// The shifted size one level down.
pub fn next_key(key: u64) -> u64
    ensures { result ≡ key * 2 % 2 ^ 64 }
{
    key << 1
}
