// Heights as exact lengths (document 02, S-8): a height's value in whole units, of which a pixel has 381 × 10,000.
#![tactic(auto)]

pub mod answers; // answers.rt: what the call answers, in the documents' numbers
pub mod numbers; // numbers.rt: numbers with decimals, recognised
pub mod numerals; // numerals.rt: what the text of a number says
pub mod dimensions; // dimensions.rt: numbers with a unit and without
pub mod tokens; // tokens.rt: the one token of a value
pub mod height; // height.rt: the call
