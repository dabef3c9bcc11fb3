// Selectors that surely fail at an element, passed over without a visit, by what is told of the element once.
#![tactic(auto)]

pub mod hints; // hints.rt: what is told of an element, and what it excludes
pub mod skipping; // skipping.rt: selectors that surely fail at an element
