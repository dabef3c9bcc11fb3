// The run: the style rows of a whole page, by a compiled sheet that goes down it once.
#![tactic(auto)]

pub mod input; // input.rt: what a run reads
pub mod rows; // rows.rt: one step for each row
pub mod suffices; // suffices.rt: whether what is lent suffices
pub mod run; // run.rt: the entry point
