// Selectors and lists of them (specs/), read as html2text 0.17.4 reads them (src/css/parser.rs).
#![tactic(auto)]

pub mod readings; // readings.rt: what a reader answers
pub mod nth; // nth.rt: the arguments of nth-child
pub mod attr; // attr.rt: attribute selectors
pub mod components; // components.rt: components of selectors
pub mod selectors; // selectors.rt: selectors
pub mod selector_lists; // selector_lists.rt: selectors parted by ','
