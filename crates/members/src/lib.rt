// Definitions and laws only: members of an all-of root.
#![tactic(auto)]
