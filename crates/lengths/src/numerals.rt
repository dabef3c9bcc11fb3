// What the text of a number says: its sign, its decimals, and its digits read as one number.
ghost use Rattle.std.specs.Prelude.{◌≡◌, ◌+◌};
ghost use Rattle.lexer.specs.Name.{hex_digit};
ghost use Rattle.values.specs.Colour.{numeral};
ghost use Rattle.lengths.specs.Length.{ten};
ghost use Rattle.lengths.specs.Numeral.{capped, unsigned_numeral, numeral_of};

use combinators::bytes::byte_is;
use lexer::names::hex_digit_of;
use lexer::numbers::{parse_integer, parse_sign};
use lexer::whitespace::skip_optional_whitespace;

const TEN: u64 = 10;

// The most that the digits of a length can make: 10,000, with its four decimals. More digits only make it more.
pub const MOST_DIGITS: u64 = 100000000;

// A number: whether a '-' stands before it, how many decimals it has, and its digits read as one number, or one above the most, which
// is compared with the most and with zero as any other number is.
#[derive(Clone, Copy)]
pub struct Numeral {
    pub negative: bool,
    pub decimals: usize,
    pub digits: u64,
}

// The number that the digits of `t` make behind those that are worth `leading`, or one above the most.
fn digits_from(leading: u64, t: &[u8]) -> u64
    ensures { result ≡ capped (numeral ten hex_digit leading t.now) }
{
    let mut value = leading;
    for digit in t {
        if value > MOST_DIGITS {
            return MOST_DIGITS + 1;
        }
        value = value * TEN + u64::from(hex_digit_of(*digit));
    }
    value.min(MOST_DIGITS + 1)
}

// A number behind its sign: digits, and where a point follows them, those behind it.
fn unsigned_numeral(u: &[u8], negative: bool) -> Numeral
    ensures { result ≡ unsigned_numeral negative u.now }
{
    let n = parse_integer(u);
    let fraction = u.get(n + 1..).unwrap_or(&[]); // no point: no decimals
    Numeral {
        negative,
        decimals: fraction.len(),
        digits: digits_from(digits_from(0, &u[..n]), fraction),
    }
}

// A number, behind white space and comments.
pub fn numeral_of(n: &[u8]) -> Numeral
    ensures { result ≡ numeral_of n.now }
{
    let w = skip_optional_whitespace(n);
    let t = &n[w..];
    let negative = byte_is(t, 0, b'-');
    let k = parse_sign(t);
    unsigned_numeral(&t[k..], negative)
}
