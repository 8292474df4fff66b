// No code: what a call is on the machine (specs/), and that functions which are lent memory give it back as their contracts say (proofs/).
#![tactic(auto)]
