// Declarations, read from the rest of a text as html2text 0.17.4 reads them (src/css/parser.rs).
#![tactic(auto)]

pub mod texts; // texts.rt: texts moved within the store
pub mod rows; // rows.rt: declarations written to rows, and their texts kept
pub mod rules; // rules.rt: declarations, one and many
pub mod styles; // styles.rt: styles of declarations
pub mod attributes; // attributes.rt: style attributes, and colour attributes
