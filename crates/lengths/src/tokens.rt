// The one token of a value, read from the value's text. The unit's name goes to the text store.
ghost use Rattle.std.specs.Prelude.{◌≡◌, ◌+◌, ◌≤◌, length};
ghost use Rattle.std.proofs.lemmas.List.Edits.{sets};
ghost use Rattle.lexer.specs.Name.{ident_of, name_text};
ghost use Rattle.lengths.specs.Number.{plus};
ghost use Rattle.lengths.specs.Length.{only_whitespace, length_of};
ghost use Rattle.lengths.specs.Reading.{length_behind, unit_text};

use crate::answers::{Length, LengthError};
use crate::dimensions::{dimension_length, number_length};
use crate::numbers::parse_number;
use combinators::bytes::byte_is;
use combinators::texts::part_of;
use lexer::names::parse_ident;
use lexer::whitespace::skip_optional_whitespace;

// A '+' or none. One call; a function for its bound and its own definition.
fn plus_of(t: &[u8]) -> usize
    ensures value { result ≡ plus t.now }
    ensures upper_bound { result ≤ length t.now }
{
    usize::from(byte_is(t, 0, b'+'))
}

// Whether `s` is white space and comments alone.
#[tactic(auto, unfolding(crate::specs::Length::only_whitespace, combinators::specs::Choice::is))]
fn only_whitespace(s: &[u8]) -> bool
    ensures { result ≡ only_whitespace s.now }
{
    skip_optional_whitespace(s) == s.len()
}

// The length of a number by what stands behind it, `rest`; its token starts at `place`.
fn length_behind(
    place: usize,
    number: &[u8],
    rest: &[u8],
    texts: &mut [u8],
) -> Result<Option<Length>, LengthError>
    requires { length rest.now + 2 ≤ length texts.old }
    ensures value { result ≡ length_behind place number.now rest.now }
    ensures texts_after { texts.new ≡ sets texts.old 0 (name_text (ident_of rest.now)) }
{
    match parse_ident(rest, texts, 0) {
        None if only_whitespace(rest) => Ok(number_length(number)),
        Some(unit) if only_whitespace(&rest[unit.taken..]) => {
            dimension_length(place, number, part_of(texts, 0, unit.length))
        }
        _ => Ok(None),
    }
}

// The length that a value is.
pub fn length_of(s: &[u8], texts: &mut [u8]) -> Result<Option<Length>, LengthError>
    requires { length s.now + 2 ≤ length texts.old }
    ensures value { result ≡ length_of s.now }
    ensures texts_after { texts.new ≡ sets texts.old 0 (unit_text s.now) }
{
    let w = skip_optional_whitespace(s);
    let start = w + plus_of(&s[w..]);
    let t = &s[start..];
    let Some(n) = parse_number(t) else {
        return Ok(None);
    };
    if byte_is(t, n, b'%') {
        return Ok(None);
    }
    let (number, rest) = t.split_at(n);
    length_behind(w, number, rest, texts)
}
