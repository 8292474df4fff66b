// No code: runs, knowledge, routines, verdicts, traces, replies and printed lines (specs/), with laws (proofs/).
#![tactic(auto)]
