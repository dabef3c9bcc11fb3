// The sheets of the three origins (specs/): agent's, user's and author's, one call's, in one set of stores; and the rules that lie there.
#![tactic(auto)]

pub mod checks; // checks.rt: what is asked of the three texts before anything is written
pub mod reading; // reading.rt: the three sheets into one set of stores
pub mod walk; // walk.rt: places in rule rows
pub mod styles; // styles.rt: the styles of a rule
