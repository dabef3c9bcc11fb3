// The cases of document 01 that are proved: one list in specs/Proved.antt, one theorem in proofs/Theorem.antt.
#![tactic(auto)]

mod calls; // calls.rt: a call that no program makes
