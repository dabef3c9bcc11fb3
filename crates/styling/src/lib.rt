// The style call: the computed style of one element, from three sheets and a page, in the crate's cascade or in the book order.
#![tactic(auto)]

pub mod front; // front.rt: how much of the stores an element asks for
pub mod style; // style.rt: the entry points
