// Demand 3: a compiled sheet, run down a page, leaves in each element's row the style that is computed from the sheets' texts.
#![tactic(auto)]

pub mod three_calls; // three_calls.rt: the claim as the contract of one function, which makes the three calls
