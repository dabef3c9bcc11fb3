// `read_sheet`: a sheet into lent stores. Refusals are looked for in the order of their numbers; nothing is written before the text is known to
// be UTF-8.
ghost use Rattle.std.specs.Prelude.{◌≡◌};
ghost use Rattle.sheets.specs.declared.sheet.SheetError.TheVariants as SheetError;
ghost use Rattle.combinators.specs.Lent.{SameStores};
ghost use Rattle.sheets.specs.SheetAnswer.{numbers_of, SheetLent, leaving, sheet_left, read_sheet};

use crate::statements::parse_stylesheet;
use characters::utf8::is_valid;
use combinators::lent::Stores;
use selectors::readings::{Panic, Read};

// The bytes that a sheet may have.
pub const SHEET_LIMIT: usize = 32768;

// Why a sheet is refused, the error of a `Result`; of a panic the byte where the crate panics.
#[derive(Clone, Copy, Debug, PartialEq, Eq)]
pub enum SheetError {
    TooLong,
    ShortStore,
    NotUtf8,
    Panic(usize),
}

impl From<Panic> for SheetError {
    ghost from_gives = { λ panic error. error ≡ SheetError.Panic panic.place };

    fn from(panic: Panic) -> SheetError {
        SheetError::Panic(panic.place)
    }
}

// Reads a sheet for which the stores suffice, whatever they hold.
fn read_text(s: &[u8], stores: &mut Stores<'_>) -> Result<Read, SheetError>
    requires { SheetLent s.now stores.old.rules.now stores.old.tokens.now stores.old.brackets.now stores.old.texts.now }
    ensures same { SameStores stores.old stores.new }
    ensures stores_after { leaving (numbers_of result) stores.new ≡ sheet_left s.now stores.old.rules.now stores.old.tokens.now stores.old.brackets.now stores.old.texts.now }
{
    stores.clear();
    Ok(parse_stylesheet(s, stores)?)
}

// Reads a sheet, if none of the three tests refuses it: its rules, which lie in the stores' rules and their texts in the texts; the bytes taken are all
// before the first one not read. `height_length` has the tests again: one function for both would need an error without a panic and a `From` for each
// of the two, which is longer than the tests.
pub fn read_sheet(s: &[u8], stores: &mut Stores<'_>) -> Result<Read, SheetError>
    ensures same { SameStores stores.old stores.new }
    ensures stores_after { leaving (numbers_of result) stores.new ≡ read_sheet s.now stores.old.rules.now stores.old.tokens.now stores.old.brackets.now stores.old.texts.now }
{
    if s.len() > SHEET_LIMIT {
        return Err(SheetError::TooLong);
    }
    if !stores.suffice(s.len()) {
        return Err(SheetError::ShortStore);
    }
    if !is_valid(s) {
        return Err(SheetError::NotUtf8);
    }
    read_text(s, stores)
}
