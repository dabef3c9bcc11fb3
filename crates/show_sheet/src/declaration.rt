// Declarations as text, from their rows. Of a height only zero is known, of a display only none. The rows are lent numbers by the project's rule,
// so that kinds and words stay the numbers that `syntax::rows` names.
use crate::text::{Colour, Name};
use combinators::texts::part_of;
use std::fmt;
use streams::Quoted;
use syntax::rows::{
    BACKGROUND_COLOR, COLOR, CONTENT, DECLARATION_IMPORTANT, DECLARATION_KIND, DECLARATION_SECOND,
    DECLARATION_START, DECLARATION_VALUE, DECLARATION_WIDTH, DISPLAY, FLAG_TRUE, HEIGHT,
    MAX_HEIGHT, OVERFLOW, OVERFLOW_AUTO, OVERFLOW_HIDDEN, OVERFLOW_SCROLL, OVERFLOW_VISIBLE,
    OVERFLOW_Y, UNKNOWN, VISIBILITY, WHITE_SPACE, WHITE_SPACE_NORMAL, WHITE_SPACE_PRE,
    WHITE_SPACE_PRE_WRAP,
};

/// A declaration, whose row has its texts in a store.
#[derive(Clone, Copy)]
pub struct Declaration<'a> {
    pub row: [u32; DECLARATION_WIDTH],
    pub texts: &'a [u8],
}

impl Declaration<'_> {
    /// The byte of the sheet where its name starts.
    pub fn start(self) -> usize {
        self.row[DECLARATION_START] as usize
    }
}

impl fmt::Display for Declaration<'_> {
    fn fmt<W: fmt::Write>(&self, f: &mut fmt::Formatter<W>) -> fmt::Result {
        let value = self.row[DECLARATION_VALUE];
        let length = self.row[DECLARATION_SECOND] as usize;
        let text = part_of(self.texts, value as usize, length);
        match self.row[DECLARATION_KIND] {
            COLOR => write!(f, "color: {}", Colour(value)),
            BACKGROUND_COLOR => write!(f, "background-color: {}", Colour(value)),
            HEIGHT => write!(f, "height: {}", flag_word(value, "zero", "other")),
            MAX_HEIGHT => write!(f, "max-height: {}", flag_word(value, "zero", "other")),
            OVERFLOW => write!(f, "overflow: {}", overflow_word(value)),
            OVERFLOW_Y => write!(f, "overflow-y: {}", overflow_word(value)),
            DISPLAY => write!(f, "display: {}", flag_word(value, "none", "other")),
            WHITE_SPACE => write!(f, "white-space: {}", white_space_word(value)),
            CONTENT => write!(f, "content: {}", Quoted(text)),
            VISIBILITY => write!(f, "visibility: {}", flag_word(value, "hidden", "visible")),
            UNKNOWN => write!(f, "unknown: {}", Name(text)),
            _ => Ok(()),
        }?;
        if self.row[DECLARATION_IMPORTANT] == FLAG_TRUE {
            f.write_str(" !important")?;
        }
        Ok(())
    }
}

// The word for a flag that is set, or the one for a flag that is not.
fn flag_word<'a>(flag: u32, set: &'a str, unset: &'a str) -> &'a str {
    if flag == FLAG_TRUE { set } else { unset }
}

fn overflow_word(value: u32) -> &'static str {
    match value {
        OVERFLOW_VISIBLE => "visible",
        OVERFLOW_HIDDEN => "hidden",
        OVERFLOW_SCROLL => "scroll",
        OVERFLOW_AUTO => "auto",
        _ => "",
    }
}

fn white_space_word(value: u32) -> &'static str {
    match value {
        WHITE_SPACE_NORMAL => "normal",
        WHITE_SPACE_PRE => "pre",
        WHITE_SPACE_PRE_WRAP => "pre-wrap",
        _ => "",
    }
}
