// The calls that a vector can ask for, and where their arguments stand.
use std::fmt;

/// A call. A vector names it by its number.
#[derive(Clone, Copy)]
pub enum Call {
    // Entry points.
    ReadSheet,
    Compile,
    CheckPage,
    // The style of an element, by html2text's cascade and in the book order.
    Style,
    StyleBook,
    // The styles of all elements of a page. `out` holds its rows, and in place of the compiled bytes, which it only reads, its state is lent.
    Run,
    // What only the comparison asks.
    CheckBytes,
    StyleAttribute,
    Colour,
    Matches,
    // A selector on each row of a page, whose answers are put into `rules`.
    Rows,
    // The selector of a sheet, which is read first, on a row.
    Selector,
    // An entry point again: the length that a height's value is. Its amount is told as millions and what is left.
    HeightLength,
    // What no number above names. It gives nothing. A call like the others and no `None`, for its vector is read to the end and told like theirs.
    Unknown,
}

impl From<u32> for Call {
    fn from(number: u32) -> Self {
        match number {
            1 => Call::ReadSheet,
            2 => Call::Compile,
            3 => Call::CheckPage,
            4 => Call::Style,
            5 => Call::StyleBook,
            6 => Call::Run,
            7 => Call::CheckBytes,
            8 => Call::StyleAttribute,
            9 => Call::Colour,
            10 => Call::Matches,
            11 => Call::Rows,
            12 => Call::Selector,
            13 => Call::HeightLength,
            _ => Call::Unknown,
        }
    }
}

impl fmt::Display for Call {
    fn fmt<W: fmt::Write>(&self, f: &mut fmt::Formatter<W>) -> fmt::Result {
        f.write_str(match self {
            Call::ReadSheet => "sheet",
            Call::Compile => "compiled sheet",
            Call::CheckPage => "page",
            Call::Style => "style",
            Call::StyleBook => "style in the book order",
            Call::Run => "run",
            Call::CheckBytes => "compiled bytes",
            Call::StyleAttribute => "style attribute",
            Call::Colour => "colour attribute",
            Call::Matches => "selector",
            Call::Rows => "selector on all rows",
            Call::Selector => "selector of a sheet",
            Call::HeightLength | Call::Unknown => "no known call",
        })
    }
}

/// A call gives so many numbers; where it has fewer, the others are 0.
pub const RESULTS: usize = 6;

pub type Results = [usize; RESULTS];

/// So many arguments are kept, which no call exceeds.
pub const ARGUMENTS: usize = 15;

// Arguments are numbers and no enum: they are places in a vector's list, and one place has another meaning in another call.

// Those of every call: with what the lent buffers are filled, and how long they are.
pub const FILLING: usize = 0;

pub const RULES_LENT: usize = 1;

pub const TOKENS_LENT: usize = 2;

pub const BRACKETS_LENT: usize = 3;

pub const TEXTS_LENT: usize = 4;

pub const BYTES_LENT: usize = 5;

pub const OUT_LENT: usize = 6;

// Behind them the lengths of what is lent to read, in its order, and then other numbers. A sheet, an attribute or compiled bytes have one length, three
// sheets have three. A page has the numbers of its nodes and of its attributes and the bytes of its text.
pub const FIRST: usize = 7;

pub const SECOND: usize = 8;

pub const THIRD: usize = 9;

// Behind a page, for a selector: the numbers of its components (of a selector of a sheet, where they start in its rules), the bytes of its texts (of the
// sheet), and the count of its components.
pub const COMPONENTS: usize = 10;

pub const NAMES: usize = 11;

pub const COUNT: usize = 12;

// The same for a style: the bytes of its three sheets, the agent's here and the user's and the author's behind it.
pub const AGENT: usize = 10;

// Behind either the row, and for a style whether document styles are on.
pub const ROW: usize = 13;

pub const DOCUMENT_STYLES: usize = 14;

// Behind a page, for a run: the compiled bytes, and whether document styles are on.
pub const SHEET: usize = 10;

pub const RUN_DOCUMENT_STYLES: usize = 11;
