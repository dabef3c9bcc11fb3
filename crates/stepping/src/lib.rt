// The step of a run as code: the selectors of a compiled sheet at one row of a page, from what the state keeps of the row's parent.
#![tactic(auto)]

pub mod specificity; // specificity.rt: how specific a selector is
pub mod merging; // merging.rt: the styles of a selector
pub mod passing; // passing.rt: the selectors of the sheet
pub mod step; // step.rt: one row
