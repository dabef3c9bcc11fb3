// Selectors of a compiled sheet, and the check that bytes are a sheet.
ghost use Rattle.std.specs.Prelude.{◌≡◌, length};
ghost use Rattle.compiled.specs.Decoded.{and_then, counted};
ghost use Rattle.compiled.specs.Component.{component_at};
ghost use Rattle.compiled.specs.Style.{style_at};
ghost use Rattle.compiled.specs.Sheet.{head_bytes, head_at, styles_at, selector_at, selectors_at, whole_at};
ghost use Rattle.compiled.specs.Answer.{read_answer, read_within, place_answer, selector_answer, check_answer, refusal_of, bytes_refusal, check_within};
ghost use Rattle.compiled.specs.Wrote.{Wrote};

use crate::bytes::SheetBytes;
use crate::components::skip_components;
use crate::numbers::{GROUP_VALUES, emit_numbers, read_number, read_ranged};
use crate::places::{Fault, Read};
use combinators::writer::Writer;
use syntax::rows::{AGENT_ORIGIN, AUTHOR_ORIGIN, PSEUDO_AFTER, PSEUDO_NONE};

// The bytes that a compiled sheet may have.
pub const COMPILED_LIMIT: usize = 65536;

// The bytes before a selector's components where each number is one byte.
const SHORT_HEAD: usize = 3;

// The numbers before a selector's components: its origin, its pseudo element and how many components it has.
#[derive(Clone, Copy, PartialEq, Eq)]
pub struct Head {
    pub origin: u32,
    pub pseudo: u32,
    pub count: u32,
}

// A reader is told a place in the sheet and how much the bytes there say is left of it. A reader of a head is told besides the origin of the selector
// before, which changes from one to the next, so the three are no struct.

// The numbers at `at` before a selector's components, of whatever length, where the selector before is of the origin `least`.
#[inline(never)] // (rare, and with it `read_head` would be no part of what asks for a head)
fn read_long_head(s: &[u8], at: usize, least: u32) -> Result<Read<Head>, Fault>
    ensures value { result ≡ read_answer (head_at s.now least at) }
    ensures read_within { read_within (length s.now) result }
{
    let origin = read_ranged(s, at, least, AUTHOR_ORIGIN)?;
    let pseudo = read_ranged(s, origin.next, PSEUDO_NONE, PSEUDO_AFTER)?;
    Ok(read_number(s, pseudo.next)?.map(|count| Head {
        origin: origin.value,
        pseudo: pseudo.value,
        count,
    }))
}

// The numbers at `at` before a selector's components, where the selector before is of the origin `least`. Most are one byte each, and told at once.
pub fn read_head(s: &[u8], at: usize, least: u32) -> Result<Read<Head>, Fault>
    ensures value { result ≡ read_answer (head_at s.now least at) }
    ensures read_within { read_within (length s.now) result }
{
    if let Some([origin, pseudo, count, ..]) = s.get(at..) {
        let origin = u32::from(*origin);
        let pseudo = u32::from(*pseudo);
        let count = u32::from(*count);
        if (least..=AUTHOR_ORIGIN).contains(&origin)
            && pseudo <= PSEUDO_AFTER
            && u64::from(count) < GROUP_VALUES
        {
            return Ok(Read {
                next: at + SHORT_HEAD,
                value: Head {
                    origin,
                    pseudo,
                    count,
                },
            });
        }
    }
    read_long_head(s, at, least)
}

impl SheetBytes<'_> {
    // The place behind `count` components at `at` and the styles behind them.
    pub fn skip_parts(self, at: usize, count: u32) -> Result<usize, Fault>
        ensures { result ≡ place_answer (and_then (counted (component_at self.entry.bytes.now) count at) (λ n cs. styles_at (style_at self.entry.bytes.now) self.entry.bytes.now n)) }
    {
        let styles = skip_components(self.bytes, at, count)?;
        self.skip_styles(styles)
    }

    // The place behind the selector at `at`, where the one before is of the origin `least`; and its origin.
    pub fn skip_selector(self, at: usize, least: u32) -> Result<Read<u32>, Fault>
        ensures { result ≡ selector_answer (selector_at (style_at self.entry.bytes.now) self.entry.bytes.now least at) }
    {
        let head = read_head(self.bytes, at, least)?;
        let next = self.skip_parts(head.next, head.value.count)?;
        Ok(Read {
            next,
            value: head.value.origin,
        })
    }

    // The place behind `count` selectors from `at` on, whose origins do not fall from `least` on.
    fn skip_selectors(self, at: usize, count: u32, least: u32) -> Result<usize, Fault>
        ensures { result ≡ place_answer (selectors_at (style_at self.entry.bytes.now) self.entry.bytes.now count least at) }
    {
        let mut last = Read {
            next: at,
            value: least,
        };
        for _ in 0..count {
            last = self.skip_selector(last.next, last.value)?;
        }
        Ok(last.next)
    }

    // Whether the bytes are `count` selectors from `at` on and nothing behind them.
    fn check_selectors(self, at: usize, count: u32) -> Result<(), Fault>
        ensures { result ≡ check_answer (whole_at (style_at self.entry.bytes.now) self.entry.bytes.now count at) }
    {
        let end = self.skip_selectors(at, count, AGENT_ORIGIN)?;
        if end == self.bytes.len() {
            Ok(())
        } else {
            Err(Fault { place: end })
        }
    }

    // Whether the bytes are a sheet, to their last byte.
    pub fn check_sheet(self) -> Result<(), Fault>
        ensures result_value { refusal_of result ≡ bytes_refusal self.entry.bytes.now }
        ensures check_within { check_within (length self.entry.bytes.now) result }
    {
        let count = read_number(self.bytes, 0)?;
        self.check_selectors(count.next, count.value)
    }
}

// Writes the numbers before a selector's components.
pub fn emit_head(head: Head, writer: &mut Writer<'_>)
    ensures { Wrote writer.old writer.new (head_bytes head.origin head.pseudo head.count) }
{
    emit_numbers(&[head.origin, head.pseudo, head.count], writer);
}
