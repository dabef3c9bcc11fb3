// Tokens of CSS, as html2text 0.17.4 reads them (src/css/parser.rs). Each reader is handed the rest of the text and answers how
// many bytes it takes; the text that they stand for goes to a lent store from a fill on. Readers are total: any bytes, any fill.
#![tactic(auto)]

pub mod whitespace; // whitespace.rt: white space and comments
pub mod numbers; // numbers.rt: numbers, recognised
pub mod strings; // strings.rt: the characters of a quoted string
pub mod names; // names.rt: names, with escapes
pub mod tokens; // tokens.rt: tokens
pub mod rows; // rows.rt: tokens written to lent numbers

// What was read takes so many bytes of the text, and stands for so many in the store, from the fill on. It is no `Taken<usize>`, whose `value` would not say
// that it is the length of a text.
#[derive(Clone, Copy)]
pub struct Written {
    pub taken: usize,
    pub length: usize,
}
