// The selectors of a compiled sheet at one row, as code: each is visited by its block in the parent's part of the state and leaves one in the own part.
#![tactic(auto)]

pub mod blocks; // blocks.rt: the block of a selector
pub mod visiting; // visiting.rt: one selector at a row
pub mod passing; // passing.rt: the selectors of a sheet at a row
pub mod document; // document.rt: what the document is told
