// What every reader and writer is made of: tests of bytes and fixed words, parts of texts, lent stores, and the refusals.
#![tactic(auto)]

pub mod bytes; // bytes.rt: a byte, and a word at the start of a text
pub mod texts; // texts.rt: a part of a text
pub mod taken; // taken.rt: a value that was read, with the bytes that it takes
pub mod columns; // columns.rt: a kind of a row with its two numbers
pub mod stores; // stores.rt: bytes emitted to a lent store, and stores cleared
pub mod writer; // writer.rt: a store with its fill
pub mod lent; // lent.rt: the stores that are lent together, and the texts of three sheets
pub mod least; // least.rt: least lengths of the stores
pub mod refusals; // refusals.rt: the refusals of documents 01 and 02
