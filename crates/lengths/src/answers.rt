// What `height_length` answers, in the numbers of documents 01 and 02.
ghost use Rattle.std.specs.Prelude.{◌≡◌};
ghost use Rattle.lengths.specs.Unit.{kind_number};
ghost use Rattle.lengths.specs.HeightLength.{refusal_of, without_length, numbers_of};

use combinators::refusals::{
    BAD_LENGTH, NOT_UTF8, Refusal, SHORT_STORE, TOO_LONG, no_refusal, refused, refused_at,
};

// What an amount counts: units, or ten-thousandths of an `em` or an `ex`.
#[derive(Clone, Copy, Debug, PartialEq, Eq)]
pub enum Kind {
    Units,
    Em,
    Ex,
}

// The kinds by their numbers in an answer, which C has; the first where there is no length.
pub const NO_KIND: u32 = 0;

pub const UNIT_KIND: u32 = 1;

pub const EM_KIND: u32 = 2;

pub const EX_KIND: u32 = 3;

impl From<Kind> for u32 {
    ghost from_gives = { λ kind number. number ≡ kind_number kind };

    #[tactic(auto, unfolding(crate::specs::Unit::kind_number))]
    fn from(kind: Kind) -> u32 {
        match kind {
            Kind::Units => UNIT_KIND,
            Kind::Em => EM_KIND,
            Kind::Ex => EX_KIND,
        }
    }
}

// A length, so much of a kind.
#[derive(Clone, Copy, Debug, PartialEq, Eq)]
pub struct Length {
    pub kind: Kind,
    pub amount: u64,
}

// Why a value is refused, the error of a `Result`; of a bad length the first byte of the number that is no exact length.
#[derive(Clone, Copy, Debug, PartialEq, Eq)]
pub enum LengthError {
    TooLong,
    ShortStore,
    NotUtf8,
    BadLength(usize),
}

// One `From` for each error.
impl From<LengthError> for Refusal {
    ghost from_gives = { λ error refusal. refusal ≡ refusal_of error };

    #[tactic(auto, unfolding(crate::specs::HeightLength::refusal_of))]
    fn from(error: LengthError) -> Refusal {
        match error {
            LengthError::TooLong => refused(TOO_LONG),
            LengthError::ShortStore => refused(SHORT_STORE),
            LengthError::NotUtf8 => refused(NOT_UTF8),
            LengthError::BadLength(place) => refused_at(BAD_LENGTH, place),
        }
    }
}

// The refusal; of a length its kind and its amount. What does not apply is 0: so the documents and C have it.
#[derive(Clone, Copy)]
pub struct LengthNumbers {
    pub refusal: Refusal,
    pub kind: u32,
    pub amount: u64,
}

// A refusal, or that there is none, and no length: zeros, as in other answers, but of this answer's fields.
fn without_length(refusal: Refusal) -> LengthNumbers
    ensures { result ≡ without_length refusal }
{
    LengthNumbers {
        refusal,
        kind: NO_KIND,
        amount: 0,
    }
}

// What an answer stands for.
impl From<Result<Option<Length>, LengthError>> for LengthNumbers {
    ghost from_gives = { λ answer numbers. numbers ≡ numbers_of answer };

    #[tactic(auto, unfolding(crate::specs::HeightLength::numbers_of))]
    fn from(answer: Result<Option<Length>, LengthError>) -> LengthNumbers {
        match answer {
            Ok(Some(length)) => LengthNumbers {
                refusal: no_refusal(),
                kind: u32::from(length.kind),
                amount: length.amount,
            },
            Ok(None) => without_length(no_refusal()),
            Err(error) => without_length(Refusal::from(error)),
        }
    }
}
