// The fields of a plan (01: book) by position.
#![tactic(auto)]

pub mod fields;
