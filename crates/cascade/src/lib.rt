// Which declaration wins a slot of a style: the cascade of html2text 0.17.4 (src/lib.rs, src/css.rs), and beside it that of CSS Cascading Level 3.
#![tactic(auto)]

pub mod specificity; // specificity.rt: specificities, their sum and their order
pub mod slots; // slots.rt: a slot, and what a new candidate makes of it
pub mod rows; // rows.rt: style rows, merged into and inherited
