// No code: what a packed sheet says, the truth of its formulas and one step of its actions (specs/), with laws (proofs/).
#![tactic(auto)]
