// A refused sheet, in words.
use crate::place::{Marked, Place};
use combinators::refusals::{NOT_UTF8, PANIC, SHORT_STORE, TOO_LONG};
use sheets::sheet::{SHEET_LIMIT, SheetError};
use std::fmt;

#[derive(Clone, Copy)]
pub struct Refusal<'a> {
    pub sheet: &'a [u8],
    pub error: SheetError,
}

impl fmt::Display for Refusal<'_> {
    fn fmt<W: fmt::Write>(&self, f: &mut fmt::Formatter<W>) -> fmt::Result {
        match self.error {
            SheetError::TooLong => {
                writeln!(
                    f,
                    "refused {TOO_LONG}: the sheet has more than {SHEET_LIMIT} bytes"
                )
            }
            SheetError::ShortStore => writeln!(f, "refused {SHORT_STORE}: a store is too short"),
            SheetError::NotUtf8 => writeln!(f, "refused {NOT_UTF8}: the sheet is not UTF-8"),
            SheetError::Panic(byte) => {
                let sheet = self.sheet;
                let place = Marked(Place { sheet, byte });
                write!(f, "refused {PANIC}: the Rust crate panics at {place}")
            }
        }
    }
}
