// No code: lists of numbers, tests over lists, and their order (specs/), with laws (proofs/).
#![tactic(auto)]
