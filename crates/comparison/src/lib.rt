// What a comparison with html2text asks, and no viewer: the functions below the engine's entry points, for tools/compare (comparison.h there) and for the
// replay of vectors. None of them asks anything of its arguments. Each returns a struct of numbers, of which the first is the refusal's, 0 where
// nothing is refused.
#![tactic(auto)]

pub mod values_read; // values_read.rt: style and colour attributes
pub mod matches; // matches.rt: whether a selector matches an element
pub mod bytes; // bytes.rt: whether bytes are a compiled sheet
