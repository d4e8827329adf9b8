// The codes in the bytes of a plan: name characters and condition values.
#![tactic(auto)]

pub mod names;
pub mod value;
