// Numbers that many crates use.
#![tactic(auto)]

pub mod kinds;
pub mod statuses;

// The word with every bit set.
pub const ALL: u64 = 18446744073709551615;
