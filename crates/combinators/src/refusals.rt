// The refusals of documents 01 and 02, in the order in which they are looked for, each with what its place is. They are numbers, since the documents and C
// have them so; in the crates an error is an enum, and `From` gives its number.
ghost use Rattle.std.specs.Prelude.{◌≡◌};
ghost use Rattle.combinators.specs.Refusal.{no_refusal, refused, refused_at, refused_in, Refuses};

// Nothing is refused.
pub const NO_REFUSAL: u32 = 0;

// A sheet or compiled bytes over their limit; no place.
pub const TOO_LONG: u32 = 1;

// A lent buffer too short; no place.
pub const SHORT_STORE: u32 = 2;

// A sheet that is not UTF-8; no place.
pub const NOT_UTF8: u32 = 3;

// A page over a limit, or a list that is no whole count of rows; no place.
pub const TOO_LARGE: u32 = 5;

// A row of a page against the rules: the first one; or no row at all.
pub const BAD_ROW: u32 = 6;

// A name or value of a page that cannot be read: its row.
pub const BAD_TEXT: u32 = 7;

// The asked row is no element or beyond the page; no place.
pub const NO_ELEMENT: u32 = 8;

// Compiled bytes that are no sheet: where the failing number or text starts, or the first byte left over.
pub const BAD_BYTES: u32 = 9;

// The crate panics while reading, at a number of `nth-child`: the text, and the byte of its first digit.
pub const PANIC: u32 = 4;

// A number with a unit that is no exact length, or out of range: its first byte, the sign included.
pub const BAD_LENGTH: u32 = 12;

// The compiled sheet would exceed its buffer or 65,536 bytes; no place.
pub const NO_ROOM: u32 = 10;

// A refusal's number, the text that it is in and its place, as C is told them: all 0 where nothing is refused, and no `Option`.
#[derive(Clone, Copy)]
pub struct Refusal {
    pub number: u32,
    pub text: usize,
    pub place: usize,
}

pub fn no_refusal() -> Refusal
    ensures { result ≡ no_refusal }
{
    refused(NO_REFUSAL)
}

// A refusal without a place.
pub fn refused(number: u32) -> Refusal
    ensures { result ≡ refused number }
{
    refused_at(number, 0)
}

// A refusal with a place.
pub fn refused_at(number: u32, place: usize) -> Refusal
    ensures { result ≡ refused_at number place }
{
    refused_in(number, 0, place)
}

// A refusal with a place in one of the texts.
pub fn refused_in(number: u32, text: usize, place: usize) -> Refusal
    ensures { result ≡ refused_in number text place }
{
    Refusal {
        number,
        text,
        place,
    }
}

// What an answer stands for that tells nothing but an error.
#[tactic(auto, unfolding(crate::specs::Refusal::Refuses))]
pub fn refusal_of<E: Into<Refusal>>(answer: Result<(), E>) -> Refusal
    ensures { Refuses E.converts answer result }
{
    match answer {
        Ok(()) => no_refusal(),
        Err(error) => error.into(),
    }
}
