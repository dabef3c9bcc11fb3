// Numbers at the start of a text, recognised: how many bytes they take.
ghost use Rattle.std.specs.Prelude.{◌≡◌, ◌≤◌, length, IfSome};
ghost use Rattle.lexer.specs.Taken.{taken_answer};
ghost use Rattle.lexer.specs.Number.{is_digit, digits, decimal, unsigned, sign, signed, number};

use crate::whitespace::skip_optional_whitespace;
use combinators::bytes::{byte_is, peek};

// Whether `b` is a digit: the library's, in the word of the definitions, so that no caller has to turn one into the other.
#[tactic(auto, unfolding(crate::specs::Number::is_digit, combinators::specs::Choice::within, combinators::specs::Choice::and))]
pub fn is_digit(b: u8) -> bool
    ensures { result ≡ is_digit b }
{
    b.is_ascii_digit()
}

// How many digits `s` begins with: a count and no Option, since before a full stop or behind a sign there may be none.
pub fn parse_integer(s: &[u8]) -> usize
    ensures value { result ≡ digits s.now }
    ensures upper_bound { result ≤ length s.now }
{
    s.iter().take_while(|b| is_digit(**b)).count()
}

// Digits or none, a full stop, and digits.
pub fn parse_decimal(s: &[u8]) -> Option<usize>
    ensures value { result ≡ taken_answer (decimal s.now) }
    ensures upper_bound { IfSome result (λ n. n ≤ length s.now) }
{
    let n = parse_integer(s);
    if !byte_is(s, n, b'.') {
        return None;
    }
    let m = parse_integer(&s[n + 1..]);
    (m > 0).then_some(n + 1 + m)
}

// An integer, or else a decimal: of `1.5` it takes `1`. crates/lengths tries them the other way round, which is another rule with its own definition.
#[tactic(auto, unfolding(crate::specs::Number::unsigned, crate::specs::Taken::taken_answer, combinators::specs::Choice::pick, combinators::specs::Choice::is))]
fn parse_unsigned(s: &[u8]) -> Option<usize>
    ensures value { result ≡ taken_answer (unsigned s.now) }
    ensures upper_bound { IfSome result (λ n. n ≤ length s.now) }
{
    match parse_integer(s) {
        0 => parse_decimal(s),
        n => Some(n),
    }
}

// How many bytes a sign takes, a count likewise: without one there are none.
#[tactic(auto, unfolding(crate::specs::Number::sign, combinators::specs::Choice::pick, combinators::specs::Choice::or, combinators::specs::Choice::is))]
pub fn parse_sign(s: &[u8]) -> usize
    ensures value { result ≡ sign s.now }
    ensures upper_bound { result ≤ length s.now }
{
    usize::from(matches!(peek(s, 0), b'-' | b'+'))
}

// A sign or none, and a number without one behind it. This and `parse_number`, and both again in crates/lengths with its own numbers without a
// sign, stay apart: a reader handed in would bring its clauses along, which are longer than the body.
pub fn parse_signed(s: &[u8]) -> Option<usize>
    ensures value { result ≡ taken_answer (signed s.now) }
    ensures upper_bound { IfSome result (λ n. n ≤ length s.now) }
{
    let k = parse_sign(s);
    Some(k + parse_unsigned(&s[k..])?)
}

// White space or none, and a number with a sign or none behind it.
pub fn parse_number(s: &[u8]) -> Option<usize>
    ensures value { result ≡ taken_answer (number s.now) }
    ensures upper_bound { IfSome result (λ n. n ≤ length s.now) }
{
    let w = skip_optional_whitespace(s);
    Some(w + parse_signed(&s[w..])?)
}
