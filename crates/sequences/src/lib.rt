// Definitions and laws only: sequences of the root's children.
#![tactic(auto)]
