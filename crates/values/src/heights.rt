// Heights: whether they are zero as an f32. The text of a number is white space and comments or none, a sign or none, and then digits,
// or a full stop and digits.
ghost use Rattle.std.specs.Prelude.{◌≡◌};
ghost use Rattle.values.specs.Property.{unsigned_zero, number_zero, units, any_of, height_of};
ghost use Rattle.values.specs.View.{first_text, second_text};
ghost use Rattle.values.specs.Tokens.{value_tokens};
ghost use Rattle.values.specs.ValueAnswer.{height_answer};

use crate::tokens::Tokens;
use crate::words::any_of;
use combinators::texts::part_of;
use decimal::rounds_to_zero;
use lexer::numbers::{parse_integer, parse_sign};
use lexer::rows::{DIMENSION, NUMBER, TOKEN_FIRST, TOKEN_SECOND, TOKEN_START};
use lexer::whitespace::skip_optional_whitespace;

// The eight units of a length.
const UNITS: [&str; 8] = ["in", "cm", "mm", "pt", "pc", "px", "em", "ex"];

// Whether a number without a sign is zero.
fn unsigned_is_zero(t: &[u8]) -> bool
    ensures { result ≡ unsigned_zero t.now }
{
    let n = parse_integer(t);
    let fraction = t.get(n + 1..).unwrap_or(&[]); // no point: no digits behind it
    rounds_to_zero(&t[..n], fraction)
}

// Whether a number is zero, its sign aside: both zeros are.
fn number_is_zero(n: &[u8]) -> bool
    ensures { result ≡ number_zero n.now }
{
    let w = skip_optional_whitespace(n);
    let t = &n[w..];
    let k = parse_sign(t);
    unsigned_is_zero(&t[k..])
}

// Whether the number of the first token is zero.
fn token_is_zero(tokens: Tokens) -> bool
    ensures { result ≡ number_zero (first_text tokens.entry.rows.now tokens.entry.store.now 0) }
{
    number_is_zero(tokens.text(0))
}

// Whether the unit of the first token, a dimension, is one of a length's. It lies behind the number.
fn has_unit(tokens: Tokens) -> bool
    ensures { result ≡ any_of (second_text tokens.entry.rows.now tokens.entry.store.now 0) units }
{
    let start = tokens.place(0, TOKEN_START) + tokens.place(0, TOKEN_FIRST);
    let unit = part_of(tokens.store, start, tokens.place(0, TOKEN_SECOND));
    any_of(unit, &UNITS)
}

// Whether the height that the tokens of a value are is zero: one dimension with a unit of a length, or one number that is zero.
pub fn parse_height(tokens: Tokens) -> Option<bool>
    ensures { result ≡ height_answer (height_of (value_tokens tokens.entry)) }
{
    if tokens.count() != 1 {
        None
    } else if tokens.is_kind(0, DIMENSION) {
        has_unit(tokens).then_some(token_is_zero(tokens))
    } else if tokens.is_kind(0, NUMBER) {
        token_is_zero(tokens).then_some(true)
    } else {
        None
    }
}
