// Pages: rows of nodes and attributes over one byte text, and the path of an element.
#![tactic(auto)]

pub mod lent; // lent.rt: a page, as it is lent to be read
pub mod rows; // rows.rt: the numbers of a row, and the texts that it names
pub mod ancestors; // ancestors.rt: how deep a row lies, and its place among its siblings
pub mod rules; // rules.rt: the rules of a row
pub mod texts; // texts.rt: the texts of a row
pub mod check; // check.rt: which pages are accepted
