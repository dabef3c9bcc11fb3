// Compiled sheets: what their bytes are (specs/), how they are read, checked and written.
#![tactic(auto)]

pub mod places; // places.rt: what is answered of bytes that are passed over
pub mod bytes; // bytes.rt: compiled bytes, as they are lent
pub mod numbers; // numbers.rt: numbers, plain and in a range
pub mod texts; // texts.rt: texts with their length
pub mod components; // components.rt: one component
pub mod styles; // styles.rt: one style
pub mod sheets; // sheets.rt: selectors, and the check of a whole sheet
