// What `read_sheet` answers, in document 01's numbers.
ghost use Rattle.std.specs.Prelude.{◌≡◌};
ghost use Rattle.sheets.specs.SheetAnswer.{refusal_of, refused_sheet, numbers_of};

use crate::sheet::SheetError;
use combinators::refusals::{
    NOT_UTF8, PANIC, Refusal, SHORT_STORE, TOO_LONG, no_refusal, refused, refused_at,
};
use selectors::readings::Read;

// The refusal; of a sheet that was read the count of its rules, the first byte not read, the numbers that the rules take and the bytes of their texts.
// What does not apply is 0: so the documents and C have it.
#[derive(Clone, Copy)]
pub struct SheetNumbers {
    pub refusal: Refusal,
    pub count: usize,
    pub stop: usize,
    pub numbers: usize,
    pub bytes: usize,
}

// One `From` for each error.
impl From<SheetError> for Refusal {
    ghost from_gives = { λ error refusal. refusal ≡ refusal_of error };

    #[tactic(auto, unfolding(crate::specs::SheetAnswer::refusal_of))]
    fn from(error: SheetError) -> Refusal {
        match error {
            SheetError::TooLong => refused(TOO_LONG),
            SheetError::ShortStore => refused(SHORT_STORE),
            SheetError::NotUtf8 => refused(NOT_UTF8),
            SheetError::Panic(place) => refused_at(PANIC, place),
        }
    }
}

// A refusal and no sheet: zeros, as in other answers, but of this answer's fields.
fn refused_sheet(refusal: Refusal) -> SheetNumbers
    ensures { result ≡ refused_sheet refusal }
{
    SheetNumbers {
        refusal,
        count: 0,
        stop: 0,
        numbers: 0,
        bytes: 0,
    }
}

// What an answer stands for.
impl From<Result<Read, SheetError>> for SheetNumbers {
    ghost from_gives = { λ answer numbers. numbers ≡ numbers_of answer };

    #[tactic(auto, unfolding(crate::specs::SheetAnswer::numbers_of))]
    fn from(answer: Result<Read, SheetError>) -> SheetNumbers {
        match answer {
            Ok(read) => SheetNumbers {
                refusal: no_refusal(),
                count: read.count,
                stop: read.taken,
                numbers: read.numbers,
                bytes: read.text,
            },
            Err(error) => refused_sheet(Refusal::from(error)),
        }
    }
}
