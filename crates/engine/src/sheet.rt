// `hicsolmab_read_sheet`: a sheet into lent stores.
ghost use Rattle.std.specs.Prelude.{◌≡◌};
ghost use Rattle.sheets.specs.SheetAnswer.{numbers_of, read_sheet};
ghost use Rattle.engine.specs.Sheet.{numbers_in};

use combinators::lent::Stores;
use selectors::readings::Read;
use sheets::answers::SheetNumbers;
use sheets::sheet::{SheetError, read_sheet};

// The refusal's number and place; of a sheet that was read the count of its rules, the first byte not read, the numbers that the rules take and
// the bytes of their texts. What does not apply is 0. Numbers, for C has no `Result`.
#[repr(C)]
#[derive(Clone, Copy)]
pub struct SheetResult {
    pub refusal: u32,
    pub place: usize,
    pub count: usize,
    pub stop: usize,
    pub numbers: usize,
    pub bytes: usize,
}

impl From<Result<Read, SheetError>> for SheetResult {
    ghost from_gives = { λ answer told. numbers_in told ≡ numbers_of answer };

    fn from(answer: Result<Read, SheetError>) -> SheetResult {
        let SheetNumbers {
            refusal,
            count,
            stop,
            numbers,
            bytes,
        } = SheetNumbers::from(answer);
        SheetResult {
            refusal: refusal.number,
            place: refusal.place,
            count,
            stop,
            numbers,
            bytes,
        }
    }
}

// Reads a sheet, as `read_sheet` does: its rules to `rules`, their texts to `texts`; `tokens` and `brackets` are work stores.
// They come one by one, as C lends them, and are put together as for `hicsolmab_height_length`: both are exported, and answer other structs.
#[unsafe(no_mangle)]
pub extern "C" fn hicsolmab_read_sheet(
    sheet: &[u8],
    rules: &mut [u32],
    tokens: &mut [u32],
    brackets: &mut [u8],
    texts: &mut [u8],
) -> SheetResult
    ensures { record { answer = numbers_in result; rules = rules.new; tokens = tokens.new; brackets = brackets.new; texts = texts.new } ≡ read_sheet sheet.now rules.old tokens.old brackets.old texts.old }
{
    let mut stores = Stores {
        rules,
        tokens,
        brackets,
        texts,
    };
    read_sheet(sheet, &mut stores).into()
}
