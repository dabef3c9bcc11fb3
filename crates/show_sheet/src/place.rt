// A byte of a sheet, for a person: its line and column, both from 1, in short or with the line itself and a mark under the byte. A line ends
// at a line feed; a column is a character.
use crate::text::{Blanks, Line};
use combinators::texts::part_of;
use std::fmt;

fn is_line_feed(byte: &u8) -> bool {
    *byte == b'\n'
}

/// A byte of a sheet. It is displayed by its line and column, as compilers write them.
#[derive(Clone, Copy)]
pub struct Place<'a> {
    pub sheet: &'a [u8],
    pub byte: usize,
}

impl<'a> Place<'a> {
    fn line(self) -> usize {
        self.before().split(is_line_feed).count()
    }

    fn column(self) -> usize {
        let head = str::from_utf8(self.head()).unwrap_or_default();
        head.chars().count() + 1
    }

    // The bytes before it.
    fn before(self) -> &'a [u8] {
        part_of(self.sheet, 0, self.byte)
    }

    // Those of them on its line.
    fn head(self) -> &'a [u8] {
        let mut lines = self.before().rsplit(is_line_feed);
        lines.next().unwrap_or_default()
    }

    // The bytes of its line from it on.
    fn tail(self) -> &'a [u8] {
        let rest = self.sheet.get(self.byte..).unwrap_or_default();
        rest.split(is_line_feed).next().unwrap_or_default()
    }
}

impl fmt::Display for Place<'_> {
    fn fmt<W: fmt::Write>(&self, f: &mut fmt::Formatter<W>) -> fmt::Result {
        write!(f, "{}:{}", self.line(), self.column())
    }
}

/// The same with its line, and a mark under the byte.
#[derive(Clone, Copy)]
pub struct Marked<'a>(pub Place<'a>);

impl fmt::Display for Marked<'_> {
    fn fmt<W: fmt::Write>(&self, f: &mut fmt::Formatter<W>) -> fmt::Result {
        let place = self.0;
        let (byte, line, column) = (place.byte, place.line(), place.column());
        let head = Line(place.head());
        writeln!(f, "byte {byte}, line {line}, column {column}:")?;
        writeln!(f, "{head}{}", Line(place.tail()))?;
        writeln!(f, "{}^", Blanks(head))
    }
}
