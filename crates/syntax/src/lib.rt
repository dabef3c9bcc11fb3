// Rules, selectors, declarations and styles: what they are (specs/), how they lie in rows (specs/Layout.antt, specs/RuleLayout.antt), and
// writers of rows.
#![tactic(auto)]

pub mod rows; // rows.rt: the columns of rows, and the numbers for what stands in them
pub mod styles; // styles.rt: a style in numbers
pub mod walk; // walk.rt: going forward in rows
pub mod writers; // writers.rt: the rows of components, and the heads of selectors and rules
