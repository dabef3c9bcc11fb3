// The length of a number, with a unit or without. The table of units is data: their names, what a length in each counts, and how much a
// ten-thousandth of each is.
ghost use Rattle.std.specs.Prelude.{◌≡◌, Ok};
ghost use Rattle.lengths.specs.Length.{with_unit, dimension_length, number_length};

use crate::answers::{Kind, Length, LengthError};
use crate::numerals::{MOST_DIGITS, numeral_of};
use values::words::lookup;

// The eight units: their names, what an amount in each counts, and how much a ten-thousandth of each is.
const UNITS: [(&str, (Kind, u32)); 8] = [
    ("px", (Kind::Units, 381)),
    ("in", (Kind::Units, 36576)),
    ("cm", (Kind::Units, 14400)),
    ("mm", (Kind::Units, 1440)),
    ("pt", (Kind::Units, 508)),
    ("pc", (Kind::Units, 6096)),
    ("em", (Kind::Em, 1)),
    ("ex", (Kind::Ex, 1)),
];

// What the last digit of a number is worth in ten-thousandths, by its decimals. No length has more than four.
const SCALES: [u64; 5] = [10000, 1000, 100, 10, 1];

// The length of a number that starts at `place`, in a unit of the kind of which a ten-thousandth is the factor. `place` goes with the number for the error alone.
fn with_unit(place: usize, n: &[u8], kind: Kind, factor: u32) -> Result<Option<Length>, LengthError>
    ensures { result ≡ with_unit place n.now kind factor }
{
    let numeral = numeral_of(n);
    let Some(scale) = SCALES.get(numeral.decimals) else {
        return Err(LengthError::BadLength(place)); // five decimals or more
    };
    let amount = numeral.digits * scale;
    if amount > MOST_DIGITS || numeral.negative && amount > 0 {
        return Err(LengthError::BadLength(place)); // above 10,000, or below zero
    }
    Ok(Some(Length {
        kind,
        amount: amount * u64::from(factor),
    }))
}

// The length of a number that starts at `place`, with the unit behind it.
pub fn dimension_length(place: usize, n: &[u8], unit: &[u8]) -> Result<Option<Length>, LengthError>
    ensures { result ≡ dimension_length place n.now unit.now }
{
    let Some((kind, factor)) = lookup(unit, &UNITS) else {
        return Ok(None);
    };
    with_unit(place, n, kind, factor)
}

// The length of a number without a unit: exactly zero, or none. It is no refusal, whatever the number is.
pub fn number_length(n: &[u8]) -> Option<Length>
    ensures { Ok result ≡ number_length n.now }
{
    (numeral_of(n).digits == 0).then_some(Length {
        kind: Kind::Units,
        amount: 0,
    })
}
