// Unicode as the readers need it: UTF-8, and the property White_Space.
#![tactic(auto)]

pub mod utf8; // utf8.rt: scalar values read from bytes, written to a store, and texts that are well formed
pub mod white_space; // white_space.rt: the 25 code points with the property White_Space
pub mod trim; // trim.rt: White_Space at the start of a text, and the words between it
