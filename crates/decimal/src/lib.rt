// Whether a decimal rounds to zero as an f32 (IEEE 754 binary32, ties to even): "it is zero exactly if, sign aside, it is at most
// 2^-150". Its digits stand as ASCII, as many as there are, before and behind the point; none is looked at behind the one that decides.
#![tactic(auto)]

ghost use Rattle.std.specs.Prelude.{◌≡◌};
ghost use Rattle.decimal.specs.Decimal.{digit, rounds_to_zero};
ghost use Rattle.decimal.specs.Looked.{digits_test, zero_test};

use combinators::bytes::peek;

// The decimal places of 2^-150, all of them: read as one number they are 5^150.
const PLACES: [u8; 150] = [
    0, 0, 0, 0, 0, 0, 0, 0, 0, 0, 0, 0, 0, 0, 0, 0, 0, 0, 0, 0, 0, 0, 0, 0, 0, 0, 0, 0, 0, 0, 0, 0,
    0, 0, 0, 0, 0, 0, 0, 0, 0, 0, 0, 0, 0, 7, // the 46th, the first that is not 0
    0, 0, 6, 4, 9, 2, 3, 2, 1, 6, 2, 4, 0, 8, 5, 3, 5, 4, 6, 1, 8, 6, 4, 7, 9, 1, 6, 4, 4, 9, 5, 8,
    0, 6, 5, 6, 4, 0, 1, 3, 0, 9, 7, 0, 9, 3, 8, 2, 5, 7, 8, 8, 5, 8, 7, 8, 5, 3, 4, 1, 4, 1, 9, 4,
    4, 8, 9, 5, 5, 4, 1, 3, 4, 2, 9, 3, 0, 3, 0, 0, 7, 4, 3, 3, 1, 9, 0, 9, 4, 1, 8, 1, 0, 6, 0, 7,
    9, 1, 0, 1, 5, 6, 2, 5,
];

// Before the point stand no places: whatever digit is not 0 is above the table.
const NO_PLACES: [u8; 0] = [];

// What the zero test answers, and how many digits it looked at.
#[derive(Clone, Copy)]
pub struct ZeroTest {
    pub zero: bool,
    pub looked: usize,
}

// What a digit is worth; any other byte counts as 0.
#[tactic(auto, unfolding(crate::specs::Decimal::digit, combinators::specs::Choice::pick, combinators::specs::Choice::within, combinators::specs::Choice::and))]
fn digit_of(b: u8) -> u8
    ensures { result ≡ digit b }
{
    char::from(b).to_digit(10).unwrap_or(0) as u8
}

// Whether digits are at most those of `table`, behind which stand zeros. The first that differ decide, and none behind them is looked
// at.
fn test_digits(s: &[u8], table: &[u8]) -> ZeroTest
    ensures { result ≡ digits_test table.now s.now }
{
    for (i, b) in s.iter().enumerate() {
        let d = digit_of(*b);
        let t = peek(table, i);
        if d != t {
            return ZeroTest {
                zero: d < t,
                looked: i + 1,
            };
        }
    }
    ZeroTest {
        zero: true, // a tie goes to the even number, which 0 is
        looked: s.len(),
    }
}

// Whether the decimal is at most 2^-150, so that the nearest f32 is zero, and how many digits had to be looked at to tell. `integer`
// has the digits before the point, and `fraction` those behind it.
pub fn zero_test(integer: &[u8], fraction: &[u8]) -> ZeroTest
    ensures { result ≡ zero_test integer.now fraction.now }
{
    let whole = test_digits(integer, &NO_PLACES);
    if whole.zero {
        let rest = test_digits(fraction, &PLACES);
        ZeroTest {
            zero: rest.zero,
            looked: integer.len() + rest.looked,
        }
    } else {
        whole
    }
}

// The answer alone, for who does not ask how many digits it took.
pub fn rounds_to_zero(integer: &[u8], fraction: &[u8]) -> bool
    ensures { result ≡ rounds_to_zero integer.now fraction.now }
{
    zero_test(integer, fraction).zero
}
