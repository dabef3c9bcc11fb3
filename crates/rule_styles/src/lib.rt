// The styles of rules, made once for a style call and kept in its stores.
#![tactic(auto)]

pub mod rows; // rows.rt: style rows, written, and the styles that are kept for a rule
pub mod deciding; // deciding.rt: the styles of a rule that decide
pub mod placing; // placing.rt: the styles of rules, made once for a call
pub mod styled; // styled.rt: three sheets whose styles are made
