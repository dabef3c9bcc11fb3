// `hicsolmab_height_length`: the length that a height's value is.
ghost use Rattle.std.specs.Prelude.{◌≡◌};
ghost use Rattle.lengths.specs.HeightLength.{numbers_of, height_length};
ghost use Rattle.engine.specs.Length.{numbers_in};

use combinators::lent::Stores;
use lengths::answers::{Length, LengthError, LengthNumbers};
use lengths::height::height_length;

// The refusal's number and place; of a length what it counts, and how much of it. What does not apply is 0.
// Numbers, for C has no `Result`.
#[repr(C)]
#[derive(Clone, Copy)]
pub struct LengthResult {
    pub refusal: u32,
    pub place: usize,
    pub kind: u32,
    pub amount: u64,
}

impl From<Result<Option<Length>, LengthError>> for LengthResult {
    ghost from_gives = { λ answer told. numbers_in told ≡ numbers_of answer };

    fn from(answer: Result<Option<Length>, LengthError>) -> LengthResult {
        let LengthNumbers {
            refusal,
            kind,
            amount,
        } = LengthNumbers::from(answer);
        LengthResult {
            refusal: refusal.number,
            place: refusal.place,
            kind,
            amount,
        }
    }
}

// Reads a height's value, as `height_length` does; all four are work stores. They come one by one, as C lends them, and are put together as for
// `hicsolmab_read_sheet`: both are exported, and answer other structs.
#[unsafe(no_mangle)]
pub extern "C" fn hicsolmab_height_length(
    value: &[u8],
    rules: &mut [u32],
    tokens: &mut [u32],
    brackets: &mut [u8],
    texts: &mut [u8],
) -> LengthResult
    ensures { record { answer = numbers_in result; rules = rules.new; tokens = tokens.new; brackets = brackets.new; texts = texts.new } ≡ height_length value.now rules.old tokens.old brackets.old texts.old }
{
    let mut stores = Stores {
        rules,
        tokens,
        brackets,
        texts,
    };
    height_length(value, &mut stores).into()
}
