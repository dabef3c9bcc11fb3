// The style of an element down its path, in the crate's cascade or in the book order: from the rules of three sheets that lie in the stores of a style call, with their styles kept there.
#![tactic(auto)]

pub mod tops; // tops.rt: the rows that decide descendant combinators, found once for a call
pub mod rules; // rules.rt: what the rules of a sheet say of an element, merged into its row
pub mod path; // path.rt: the style of an element, down its path
