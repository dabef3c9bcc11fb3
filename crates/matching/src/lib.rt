// Matching: which selectors match an element, and how specific they are (`Selector` of html2text's src/css.rs).
#![tactic(auto)]

pub mod nth; // nth.rt: nth-child(an+b) on signed numbers
pub mod texts; // texts.rt: words parted by White_Space
pub mod components; // components.rt: the rows of a selector's components, and its specificity
pub mod elements; // elements.rt: what a simple selector asks of an element
pub mod matcher; // matcher.rt: whether a selector matches a row of a page
pub mod topmost; // topmost.rt: whether a selector matches the rows of a path
