// What a comparison with html2text asks (tools/compare/comparison.h), exported from a static library: the functions of crates/comparison, with its clauses, and
// nothing else. They stand twice, since a crate is a library or a static library and not both, a `pub use` exports nothing, and crates/replay calls the library. C
// lends each slice by itself.
#![tactic(auto)]

mod values_read; // values_read.rt: style and colour attributes
mod matches; // matches.rt: whether a selector matches an element
mod bytes; // bytes.rt: whether bytes are a compiled sheet
