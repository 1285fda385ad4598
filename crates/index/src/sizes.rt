// Sizes of chunks, in bytes, for words of 8 bytes. Sums wrap, so that every request has an answer;
// the law `need-word` says for which requests none did.
ghost use Rattle.std.specs.Prelude.{◌≡◌, ℕ, ◌+◌, ◌*◌, ◌%◌, ◌^◌, ◌<◌};
ghost use Rattle.index.specs.Sizes.{round_up, need, small_bin};

// a rounded up to a multiple of alignment, a power of two.
fn align_up(a: u64, alignment: u64) -> u64
    requires { (k : ℕ) × (k < 64) × (alignment ≡ 2 ^ k) }
    ensures { result ≡ round_up alignment a % 2 ^ 64 }
{
    std::num::wrapping_add_u64(a, alignment - 1) & !(alignment - 1)
}

// The request and its overhead, rounded up.
pub fn pad_request(amt: u64) -> u64
    ensures { result ≡ round_up 16 (amt + 8) % 2 ^ 64 }
{
    align_up(std::num::wrapping_add_u64(amt, 8), 16)
}

// The size of the chunk that a request needs.
pub fn request2size(req: u64) -> u64
    ensures { result ≡ need 8 req % 2 ^ 64 }
{
    if req < 23 { 32 } else { pad_request(req) }
}

// The small bin of a chunk of this size.
pub fn small_index(size: u64) -> u32
    ensures { result ≡ small_bin size % 32 }
{
    ((size >> 3) % 32) as u32
}

// The size of the chunks in a small bin.
pub fn small_index2size(i: u32) -> u64
    ensures { result ≡ 8 * i }
{
    (i as u64) << 3
}
