// What the attributes of an element say, merged into its style row: `style`, `color` and `bgcolor` (`computed_style` of html2text's src/css.rs). Style calls
// and runs share it.
#![tactic(auto)]

pub mod colours; // colours.rt: `color` and `bgcolor`
pub mod inline; // inline.rt: `style`
pub mod merging; // merging.rt: the attributes of an element, in their order
