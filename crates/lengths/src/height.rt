// `height_length`: the length that a height's value is. Refusals are looked for in the order of documents 01 and 02; nothing is written before the
// text is known to be UTF-8.
ghost use Rattle.std.specs.Prelude.{◌≡◌};
ghost use Rattle.combinators.specs.Lent.{SameStores};
ghost use Rattle.sheets.specs.SheetAnswer.{SheetLent};
ghost use Rattle.lengths.specs.HeightLength.{numbers_of, leaving, length_left, height_length};

use crate::answers::{Length, LengthError};
use crate::tokens::length_of;
use characters::utf8::is_valid;
use combinators::lent::Stores;
use sheets::sheet::SHEET_LIMIT;

// Reads a value for which the stores suffice, whatever they hold, and leaves them zero.
fn read_value(s: &[u8], stores: &mut Stores<'_>) -> Result<Option<Length>, LengthError>
    requires { SheetLent s.now stores.old.rules.now stores.old.tokens.now stores.old.brackets.now stores.old.texts.now }
    ensures same { SameStores stores.old stores.new }
    ensures stores_after { leaving (numbers_of result) stores.new ≡ length_left s.now stores.old.rules.now stores.old.tokens.now stores.old.brackets.now stores.old.texts.now }
{
    let answer = length_of(s, stores.texts);
    stores.clear();
    answer
}

// Reads a height's value, refused as a sheet is and of errors of its own: no length, so much of a kind, or refusal 12. All stores are work stores.
// The three tests stand here as in `read_sheet`: one function for both would need an error without a panic, which is none of a height's, and a `From` for
// each of the two, which is longer than the tests.
pub fn height_length(s: &[u8], stores: &mut Stores<'_>) -> Result<Option<Length>, LengthError>
    ensures same { SameStores stores.old stores.new }
    ensures stores_after { leaving (numbers_of result) stores.new ≡ height_length s.now stores.old.rules.now stores.old.tokens.now stores.old.brackets.now stores.old.texts.now }
{
    if s.len() > SHEET_LIMIT {
        return Err(LengthError::TooLong);
    }
    if !stores.suffice(s.len()) {
        return Err(LengthError::ShortStore);
    }
    if !is_valid(s) {
        return Err(LengthError::NotUtf8);
    }
    read_value(s, stores)
}
