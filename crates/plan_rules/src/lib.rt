// The causes 1 to 14 for which a plan (01: book) is refused, and the tests of single flags, characters, nodes,
// conditions and orders.
#![tactic(auto)]

pub mod tests;
