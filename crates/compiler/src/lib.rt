// The compiler: the selectors of three sheets (specs/) as the bytes of a compiled sheet.
#![tactic(auto)]

pub mod lent; // lent.rt: rows with their texts, and what a rule gives its selectors
pub mod past; // past.rt: whether bytes passed the end of a store
pub mod styles; // styles.rt: the styles of a rule, counted and written
pub mod selector; // selector.rt: one selector, written
pub mod rules; // rules.rt: rules, written, and their selectors counted
pub mod writing; // writing.rt: the rows of three sheets as one compiled sheet
pub mod compile; // compile.rt: the entry point
pub mod answers; // answers.rt: what compiling answers, in numbers
