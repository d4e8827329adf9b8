// Definitions and laws only: lengths and longest waits as functions of a plan's bytes.
#![tactic(auto)]
