// The trial plans (01: trial books) marked *, from their bytes. No code.
#![tactic(auto)]
