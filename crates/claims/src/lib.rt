// Closed claims over what the calls answer. No code.
#![tactic(auto)]
