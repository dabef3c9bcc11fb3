// Texts of a compiled sheet: the length, then the bytes.
ghost use Rattle.std.specs.Prelude.{◌≡◌, ◌++◌, ◌<◌, length};
ghost use Rattle.combinators.specs.Part.{part};
ghost use Rattle.compiled.specs.Number.{number_limit, number_bytes};
ghost use Rattle.compiled.specs.Text.{text_bytes, span_at};
ghost use Rattle.compiled.specs.Answer.{read_answer, text_within};
ghost use Rattle.compiled.specs.Wrote.{Wrote};

use crate::numbers::{emit_number, read_number};
use crate::places::{Fault, Read};
use combinators::texts::part_of;
use combinators::writer::Writer;

// Where a text lies: its first byte, which follows the length, and how many there are.
#[derive(Clone, Copy, PartialEq, Eq)]
pub struct Span {
    pub start: usize,
    pub size: usize,
}

// The text at `at`.
pub fn read_text(s: &[u8], at: usize) -> Result<Read<Span>, Fault>
    ensures value { result ≡ read_answer (span_at s.now at) }
    ensures text_within { text_within (length s.now) result }
{
    let Read { next: start, value } = read_number(s, at)?;
    let size = value as usize;
    if size <= s.len() - start {
        Ok(Read {
            next: start + size,
            value: Span { start, size },
        })
    } else {
        Err(Fault { place: at })
    }
}

// Writes a text with its length.
pub fn emit_text(text: &[u8], writer: &mut Writer<'_>)
    requires { length text.now < number_limit }
    ensures { Wrote writer.old writer.new (text_bytes text.now) }
{
    emit_number(text.len() as u32, writer);
    writer.emit_all(text);
}

// Writes the text that starts at `start` in `texts` and has `size` bytes, or as many as there are, with its length. It is cut here alone, where a size of
// 32 bits is all that `emit_text` asks for: of a slice each writer above would have to say that it is so short.
pub fn emit_text_part(start: usize, size: u32, texts: &[u8], writer: &mut Writer<'_>)
    ensures { Wrote writer.old writer.new (text_bytes (part texts.now start size)) }
{
    emit_text(part_of(texts, start, size as usize), writer);
}

// Writes a number and such a text: a kind with its name, or the slot of contents with a content.
pub fn emit_number_text(number: u32, start: u32, size: u32, texts: &[u8], writer: &mut Writer<'_>)
    ensures { Wrote writer.old writer.new (number_bytes number ++ text_bytes (part texts.now start size)) }
{
    emit_number(number, writer);
    emit_text_part(start as usize, size, texts, writer);
}
