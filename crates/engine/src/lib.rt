// The functions that programs in C and Rust call (include/hicsolmab.h): the entry points, and nothing else. None of them asks anything of its
// arguments. An answer that is an enum becomes a struct of numbers, of which the first is the refusal's, 0 where nothing is refused.
#![tactic(auto)]

pub mod sheet; // sheet.rt: a sheet into lent stores
pub mod compile; // compile.rt: three sheets into a compiled sheet
pub mod pages; // pages.rt: which pages are accepted
pub mod style; // style.rt: the style of an element
pub mod run; // run.rt: the style rows of a page
pub mod length; // length.rt: a height's value as an exact length
