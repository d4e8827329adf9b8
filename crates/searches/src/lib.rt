// Searches by `any`: what one over a range or a slice answers. No code.
#![tactic(auto)]
