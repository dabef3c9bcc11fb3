// The style of an element down its path, and the row and store of a style call (specs/), with the laws between them (proofs/).
#![tactic(auto)]

pub mod settings; // settings.rt: what a call is told beside its texts
