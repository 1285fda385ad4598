// The maps of filled bins: a u32 whose bit i is set exactly when bin i holds something.
ghost use Rattle.std.specs.Prelude.{◌≡◌, ◌+◌, ◌%◌, ◌<◌, ◌==◌};
ghost use Rattle.index.specs.Bit.{bit};
ghost use Rattle.index.specs.BinMap.{mark, clear, bit_place, left_bits, least_bit, first_from, own_or_next, in_map};

// All bits left of x's lowest set bit: a wrapping add of one to the inverted shifted map bit.
pub fn left_bits(x: u32) -> u32
    ensures { result ≡ left_bits 32 x }
{
    let up = x << 1;
    up | std::num::wrapping_add_u32(!up, 1)
}

// x's lowest set bit alone, 0 for 0.
pub fn least_bit(x: u32) -> u32
    ensures { result ≡ least_bit 32 x }
{
    x & std::num::wrapping_add_u32(!x, 1)
}

// Is bin i filled?
pub fn is_marked(map: u32, i: u32) -> bool
    ensures { result ≡ (bit (i % 32) map == 1) }
{
    map & (1 << (i % 32)) != 0
}

// The map with bit i set.
pub fn mark_bin(map: u32, i: u32) -> u32
    ensures { result ≡ mark (i % 32) map }
{
    map | (1 << (i % 32))
}

// The map with bit i clear.
pub fn clear_bin(map: u32, i: u32) -> u32
    ensures { result ≡ clear (i % 32) map }
{
    map & !(1 << (i % 32))
}

// Where bit i stands. A width that no word has leaves bit 0.
fn bit_place<const N: u64>(i: u64) -> u64
    ensures place { result ≡ bit_place N i }
    ensures in_the_word { result < 64 }
{
    if 0 < N && N <= 64 { i % N } else { 0 }
}

// The word with bit i set, and with it clear. i is taken modulo N: 32 in the maps of bins, 64 in the sets of the check.
pub fn with_bit<const N: u64>(word: u64, i: u64) -> u64
    ensures { result ≡ mark (bit_place N i) word }
{
    word | (1 << bit_place::<N>(i))
}

pub fn without_bit<const N: u64>(word: u64, i: u64) -> u64
    ensures { result ≡ clear (bit_place N i) word }
{
    word & !(1 << bit_place::<N>(i))
}

// A place of a map, if it is one.
fn in_map(i: u32) -> Option<u32>
    ensures { result ≡ in_map 32 i }
{
    if i < 32 { Some(i) } else { None }
}

// The next filled bin above bin i.
pub fn next_filled(map: u32, i: u32) -> Option<u32>
    ensures { result ≡ in_map 32 (first_from 32 map (i % 32 + 1)) }
{
    let bit = 1 << (i % 32);
    in_map(u32::trailing_zeros(left_bits(bit) & map))
}

// The first filled bin from bin i on.
pub fn filled_from(map: u32, i: u32) -> Option<u32>
    ensures { result ≡ in_map 32 (first_from 32 map (i % 32)) }
{
    let bit = 1 << (i % 32);
    in_map(u32::trailing_zeros((left_bits(bit) | bit) & map))
}

// The first filled bin.
pub fn lowest_filled(map: u32) -> Option<u32>
    ensures { result ≡ in_map 32 (first_from 32 map 0) }
{
    in_map(u32::trailing_zeros(map))
}

// The bin that serves a small need of bin i: its own, or the next one up where only that is filled.
pub fn own_or_next(map: u32, i: u32) -> Option<u32>
    ensures { result ≡ in_map 32 (own_or_next 32 map (i % 32)) }
{
    let bits = map >> (i % 32);
    if bits & 3 != 0 {
        in_map(i % 32 + (!bits & 1))
    } else {
        None
    }
}
