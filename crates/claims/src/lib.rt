// No code: what the demands say of the library's functions (specs/), and its proof from their contracts (proofs/).
#![tactic(auto)]
