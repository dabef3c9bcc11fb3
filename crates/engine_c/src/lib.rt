// The functions that programs in C call (include/hicsolmab.h), exported from a static library: those of crates/engine, with its clauses, and nothing else. They
// stand twice, since a crate is a library or a static library and not both, a `pub use` exports nothing, and crates/replay calls the library. C lends each slice
// by itself.
#![tactic(auto)]

mod sheet; // sheet.rt: a sheet into lent stores
mod compile; // compile.rt: three sheets into a compiled sheet
mod pages; // pages.rt: which pages are accepted
mod style; // style.rt: the style of an element
mod run; // run.rt: the style rows of a page
mod length; // length.rt: a height's value as an exact length
