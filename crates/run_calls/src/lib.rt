// Lists of start, finish, skip and finish-together calls on one plan, with one list of blocked nodes: demand 3 over
// bytes. No code.
#![tactic(auto)]
