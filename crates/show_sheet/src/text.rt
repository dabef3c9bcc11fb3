// Names, lines and colours of a sheet as text. A character that would not stand for itself is escaped.
ghost use Rattle.std.specs.Prelude.{Some};
ghost use Rattle.show_sheet.specs.Colours.{colour_text};

use std::fmt;
use streams::write_escaped;

/// A name of a sheet. Its escapes are undone, so characters of other kinds can stand in it.
#[derive(Clone, Copy)]
pub struct Name<'a>(pub &'a [u8]);

impl fmt::Display for Name<'_> {
    fn fmt<W: fmt::Write>(&self, f: &mut fmt::Formatter<W>) -> fmt::Result {
        write_escaped(f, self.0, |c| {
            c.is_ascii_alphanumeric() || c == '-' || c == '_' || !c.is_ascii()
        })
    }
}

/// A line of a sheet, or a part of it.
#[derive(Clone, Copy)]
pub struct Line<'a>(pub &'a [u8]);

impl fmt::Display for Line<'_> {
    fn fmt<W: fmt::Write>(&self, f: &mut fmt::Formatter<W>) -> fmt::Result {
        write_escaped(f, self.0, |c| !c.is_ascii_control())
    }
}

/// Blanks as wide as a line is written.
#[derive(Clone, Copy)]
pub struct Blanks<'a>(pub Line<'a>);

impl fmt::Display for Blanks<'_> {
    fn fmt<W: fmt::Write>(&self, f: &mut fmt::Formatter<W>) -> fmt::Result {
        let text = str::from_utf8(self.0.0).map_err(|_| fmt::Error)?;
        for c in text.chars() {
            f.write_str(if c.is_ascii_control() { "    " } else { " " })?;
        }
        Ok(())
    }
}

/// A colour by its hexadecimal digits.
#[derive(Clone, Copy)]
pub struct Colour(pub u32);

impl fmt::Display for Colour {
    ghost output = { λ c. Some (colour_text c.0) };

    fn fmt<W: fmt::Write>(&self, f: &mut fmt::Formatter<W>) -> fmt::Result {
        let colour = self.0;
        write!(f, "#{colour:06x}")
    }
}
