// Theory only: and/or plans, their executions, summaries and verdicts, and the claims about lists of calls. See
// docs/theory.md.
#![tactic(auto)]
