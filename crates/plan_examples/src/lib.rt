// Definitions and laws only: 01's book B and other small plans, and their refusals by computation.
#![tactic(auto)]
