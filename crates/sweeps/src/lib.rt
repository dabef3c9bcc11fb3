// A segment of a selector at one row, as code: its compounds are swept in the bytes of a compiled sheet, by the flags of the parent's part of the state into those of the own part.
#![tactic(auto)]

pub mod elements; // elements.rt: an element as it is handed, and the row of a pass
pub mod pieces; // pieces.rt: one component at a row
pub mod compounds; // compounds.rt: the tests of a compound, and the segments of a selector
pub mod parts; // parts.rt: bytes of a part of the state
pub mod sweeping; // sweeping.rt: a segment at a row, by the flags of a part
