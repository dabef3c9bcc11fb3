// Styles of a compiled sheet: whether it is important, where its declaration starts, the slot, and the slot's value. Slots and words are numbers of lent
// bytes and rows, so the last arm of a `match` is that of any other.
ghost use Rattle.std.specs.Prelude.{◌≡◌, ◌++◌, length};
ghost use Rattle.syntax.specs.Layout.{white_space_number, white_space_of, style_slot_of, style_of, style_in};
ghost use Rattle.compiled.specs.Number.{number_bytes};
ghost use Rattle.compiled.specs.Style.{style_body, style_bytes, content_at, number_up_to, value_at, style_numbers_at, style_at};
ghost use Rattle.compiled.specs.Sheet.{styles_at};
ghost use Rattle.compiled.specs.Answer.{read_answer, read_within, place_answer};
ghost use Rattle.compiled.specs.Wrote.{Wrote};

use crate::bytes::SheetBytes;
use crate::numbers::{emit_number, emit_numbers, read_number, read_ranged};
use crate::places::{Fault, Read};
use crate::texts::{emit_number_text, read_text};
use combinators::writer::Writer;
use syntax::rows::{
    BACKGROUND_SLOT, COLOUR_SLOT, CONTENT_SLOT, DISPLAY_SLOT, FLAG_FALSE, FLAG_TRUE, LAST_SLOT,
    VISIBILITY_SLOT, WHITE_SPACE_PRE_WRAP, WHITE_SPACE_SLOT, flag_of,
};
use syntax::styles::{StyleNumbers, Value};

// Colours are below 16,777,216.
const GREATEST_COLOUR: u32 = 16777215;

// Behind the slot, a number up to `greatest`.
fn read_number_up_to(s: &[u8], at: usize, start: u32, greatest: u32) -> Result<Read<Value>, Fault>
    ensures { result ≡ read_answer (number_up_to greatest s.now start at) }
{
    let number = read_ranged(s, at, 0, greatest)?;
    Ok(number.map(|number| Value {
        number,
        second: 0,
        start,
    }))
}

impl SheetBytes<'_> {
    // Behind the slot, a text, of a style whose declaration starts at `from`.
    fn read_content(self, at: usize, from: u32) -> Result<Read<Value>, Fault>
        ensures { result ≡ read_answer (content_at self.entry.bytes.now from at) }
    {
        Ok(read_text(self.bytes, at)?.map(|text| Value {
            number: text.start as u32,
            second: text.size as u32,
            start: from,
        }))
    }

    // What stands behind the slot: a content's first number is where it starts in the bytes.
    fn read_value(self, at: usize, start: u32, slot: u32) -> Result<Read<Value>, Fault>
        ensures { result ≡ read_answer (value_at self.entry.bytes.now start slot at) }
    {
        match slot {
            DISPLAY_SLOT => Ok(Read {
                next: at,
                value: Value {
                    number: 0,
                    second: 0,
                    start,
                },
            }),
            CONTENT_SLOT => self.read_content(at, start),
            WHITE_SPACE_SLOT => read_number_up_to(self.bytes, at, start, WHITE_SPACE_PRE_WRAP),
            VISIBILITY_SLOT => read_number_up_to(self.bytes, at, start, FLAG_TRUE),
            _ => read_number_up_to(self.bytes, at, start, GREATEST_COLOUR),
        }
    }

    // The style at `at`.
    pub fn read_style(self, at: usize) -> Result<Read<StyleNumbers>, Fault>
        ensures value { result ≡ read_answer (style_numbers_at self.entry.bytes.now at) }
        ensures read_within { read_within (length self.entry.bytes.now) result }
    {
        let important = read_ranged(self.bytes, at, FLAG_FALSE, FLAG_TRUE)?;
        let start = read_number(self.bytes, important.next)?;
        let slot = read_ranged(self.bytes, start.next, COLOUR_SLOT, LAST_SLOT)?;
        let value = self.read_value(slot.next, start.value, slot.value)?;
        Ok(value.map(|value| StyleNumbers {
            slot: slot.value,
            important: important.value == FLAG_TRUE,
            value,
        }))
    }

    // The place behind the style at `at`.
    pub fn skip_style(self, at: usize) -> Result<usize, Fault>
        ensures { result ≡ place_answer (style_at self.entry.bytes.now at) }
    {
        Ok(self.read_style(at)?.next)
    }

    // The place behind the styles at `at`, which start with their count.
    pub fn skip_styles(self, at: usize) -> Result<usize, Fault>
        ensures { result ≡ place_answer (styles_at (style_at self.entry.bytes.now) self.entry.bytes.now at) }
    {
        let Read {
            mut next,
            value: count,
        } = read_number(self.bytes, at)?;
        for _ in 0..count {
            next = self.skip_style(next)?;
        }
        Ok(next)
    }
}

// The number of a white-space word that a style row has: any other than the first two is the last.
fn white_space_number(value: u32) -> u32
    ensures { result ≡ white_space_number (white_space_of value) }
{
    value.min(WHITE_SPACE_PRE_WRAP)
}

// Writes the slot of a style and what stands behind it, with its text in `texts`.
fn emit_slot(slot: u32, value: Value, texts: &[u8], writer: &mut Writer<'_>)
    ensures { Wrote writer.old writer.new (number_bytes (style_slot_of (style_of texts.now slot value)) ++ style_body (style_of texts.now slot value)) }
{
    match slot {
        COLOUR_SLOT | BACKGROUND_SLOT => emit_numbers(&[slot, value.number], writer),
        DISPLAY_SLOT => emit_number(DISPLAY_SLOT, writer),
        WHITE_SPACE_SLOT => {
            let word = white_space_number(value.number);
            emit_numbers(&[WHITE_SPACE_SLOT, word], writer);
        }
        CONTENT_SLOT => emit_number_text(CONTENT_SLOT, value.number, value.second, texts, writer),
        _ => {
            let hidden = flag_of(value.number == FLAG_TRUE);
            emit_numbers(&[VISIBILITY_SLOT, hidden], writer);
        }
    }
}

// Writes a style, with its text in `texts`.
pub fn emit_style(style: StyleNumbers, texts: &[u8], writer: &mut Writer<'_>)
    ensures { Wrote writer.old writer.new (style_bytes (style_in texts.now style)) }
{
    emit_number(flag_of(style.important), writer);
    emit_number(style.value.start, writer);
    emit_slot(style.slot, style.value, texts, writer);
}
