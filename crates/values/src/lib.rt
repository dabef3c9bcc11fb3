// Values of declarations, read from the rest of a text as html2text 0.17.4 reads them (src/css/parser.rs), and the declarations that
// properties make of them.
#![tactic(auto)]

pub mod words; // words.rt: fixed words, and tables of them
pub mod tokens; // tokens.rt: what token rows say
pub mod statements; // statements.rt: the tokens of a statement with its brackets, and values
pub mod colours; // colours.rt: colours by name, by '#' and by `rgb`
pub mod heights; // heights.rt: heights, and numbers that are zero
pub mod keywords; // keywords.rt: the first name of a value that a table has
pub mod contents; // contents.rt: the length of the strings of a value
pub mod colour_values; // colour_values.rt: colours of values
pub mod properties; // properties.rt: declarations of a property with a value
