// The run of a compiled sheet down a page: definitions (specs/), and the theorem that every row is the computed style (proofs/).
#![tactic(auto)]
