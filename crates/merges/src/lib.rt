// Definitions and laws only: two plans merged under a new root.
#![tactic(auto)]
