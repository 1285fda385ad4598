// Size and index arithmetic of the allocator: pure functions on numbers, no arena. Every public
// function has an answer for every input: bin numbers are taken modulo 32, and sums wrap.
#![tactic(auto)]

pub mod bin_map;
pub mod sizes;
pub mod tree_bin;
