// A box's log, played: its bytes in pieces of any length, the calls on an arena in a lent buffer, the lines that answer. No function here
// reads or writes a file.
#![tactic(auto)]

pub mod feed;
pub mod play;
pub mod shown;
