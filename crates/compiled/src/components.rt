// Components of a compiled sheet: a kind, then what the component has.
ghost use Rattle.std.specs.Prelude.{◌≡◌, ◌++◌, ◌+◌, length, IfSome};
ghost use Rattle.combinators.specs.Part.{part};
ghost use Rattle.syntax.specs.RuleLayout.{attribute_equal_kind, component_from};
ghost use Rattle.compiled.specs.Number.{number_bytes};
ghost use Rattle.compiled.specs.Text.{text_bytes};
ghost use Rattle.compiled.specs.Decoded.{counted};
ghost use Rattle.compiled.specs.Component.{is_mark, name_at, numbers_at, names_at, body_at, written_at, component_at, is_name, component_bytes};
ghost use Rattle.compiled.specs.Answer.{read_answer, place_answer, component_within, ShortSize};
ghost use Rattle.compiled.specs.Wrote.{Wrote};

use crate::numbers::{GROUP_VALUES, emit_number, emit_numbers, read_number, read_ranged};
use crate::places::{Fault, Read};
use crate::texts::{Span, emit_number_text, emit_text_part, read_text};
use combinators::writer::Writer;
use syntax::rows::{
    ATTRIBUTE, ATTRIBUTE_EQUAL, CHILD, CLASS, DESCENDANT, ELEMENT, HASH, NTH, STAR,
};

// From the place of a short component, to the length of its text and to the text.
pub const TO_LENGTH: usize = 1;

pub const TO_TEXT: usize = 2;

// The size of a component that is its kind alone.
pub const MARK_SIZE: usize = 1;

// What the bytes of a component say: star, child and descendant are their kind alone; class, element, hash and attribute have a text; nth has two
// numbers; an attribute that is equal to a value has two texts. A kind stays a number: of a short component, as most are, it is the byte itself, which is
// read without this enum (`short_size`), and rows that are written may hold any, so that the last arm is that of any other.
#[derive(Clone, Copy, PartialEq, Eq)]
pub enum Written {
    Mark(u32),
    Name(u32, Span),
    Numbers(u32, u32),
    Names(Span, Span),
}

// Whether a component is its kind alone.
#[tactic(auto, unfolding(crate::specs::Component::is_mark, combinators::specs::Choice::or, combinators::specs::Choice::is))]
pub fn is_mark(kind: u32) -> bool
    ensures { result ≡ is_mark kind }
{
    matches!(kind, STAR | CHILD | DESCENDANT)
}

// Whether a component is its kind and one text.
#[tactic(auto, unfolding(crate::specs::Component::is_name, combinators::specs::Choice::or, combinators::specs::Choice::is))]
pub fn is_name(kind: u32) -> bool
    ensures { result ≡ is_name kind }
{
    matches!(kind, CLASS | ELEMENT | HASH | ATTRIBUTE)
}

// Behind the kind, the text.
fn read_name(s: &[u8], at: usize, kind: u32) -> Result<Read<Written>, Fault>
    ensures { result ≡ read_answer (name_at s.now kind at) }
{
    Ok(read_text(s, at)?.map(|text| Written::Name(kind, text)))
}

// Behind the kind, the two numbers of nth. This and the next differ in the reader and the variant: one function for both would be told a reader, whose
// answers its contract would speak of, and would answer a pair, of which two others make a variant each.
fn read_numbers(s: &[u8], at: usize) -> Result<Read<Written>, Fault>
    ensures { result ≡ read_answer (numbers_at s.now at) }
{
    let a = read_number(s, at)?;
    Ok(read_number(s, a.next)?.map(|b| Written::Numbers(a.value, b)))
}

// Behind the kind, the two texts.
fn read_names(s: &[u8], at: usize) -> Result<Read<Written>, Fault>
    ensures { result ≡ read_answer (names_at s.now at) }
{
    let name = read_text(s, at)?;
    Ok(read_text(s, name.next)?.map(|value| Written::Names(name.value, value)))
}

// What stands behind the kind.
fn read_body(s: &[u8], at: usize, kind: u32) -> Result<Read<Written>, Fault>
    ensures { result ≡ read_answer (body_at s.now kind at) }
{
    if is_mark(kind) {
        Ok(Read {
            next: at,
            value: Written::Mark(kind),
        })
    } else if kind == NTH {
        read_numbers(s, at)
    } else if kind == ATTRIBUTE_EQUAL {
        read_names(s, at)
    } else {
        read_name(s, at, kind)
    }
}

// The component at `at`.
pub fn read_component(s: &[u8], at: usize) -> Result<Read<Written>, Fault>
    ensures value { result ≡ read_answer (written_at s.now at) }
    ensures component_within { component_within (length s.now) result }
{
    let kind = read_ranged(s, at, STAR, ATTRIBUTE_EQUAL)?;
    read_body(s, kind.next, kind.value)
}

// The size of the component at `at` where it is short, as most are: its kind alone, or a kind and a text, each number of one byte.
pub fn short_size(s: &[u8], at: usize) -> Option<usize>
    ensures { IfSome result (λ size. ShortSize s.now at size) }
{
    let kind = u32::from(*s.get(at)?);
    if is_mark(kind) {
        return Some(MARK_SIZE);
    }
    let length = *s.get(at + TO_LENGTH)?;
    let size = usize::from(length) + TO_TEXT;
    if is_name(kind) && u64::from(length) < GROUP_VALUES && size <= s.len() - at {
        Some(size)
    } else {
        None
    }
}

// The place behind the component at `at`. Most are short, of which the size alone is asked.
pub fn skip_component(s: &[u8], at: usize) -> Result<usize, Fault>
    ensures { result ≡ place_answer (component_at s.now at) }
{
    match short_size(s, at) {
        Some(size) => Ok(at + size),
        None => Ok(read_component(s, at)?.next),
    }
}

// The place behind `count` components from `at` on. The whole sheet is handed in, as faults are told by their places in it, and the count is what the bytes
// before say: components differ in size.
pub fn skip_components(s: &[u8], at: usize, count: u32) -> Result<usize, Fault>
    ensures { result ≡ place_answer (counted (component_at s.now) count at) }
{
    let mut next = at;
    for _ in 0..count {
        next = skip_component(s, next)?;
    }
    Ok(next)
}

// Writes the kind of an attribute that is equal to a value, and its two texts: that which starts at `start` in `texts` and has `first` bytes, and the
// `second` bytes behind it.
fn emit_attribute_equal(start: u32, first: u32, second: u32, texts: &[u8], writer: &mut Writer<'_>)
    ensures { Wrote writer.old writer.new (number_bytes attribute_equal_kind
        ++ (text_bytes (part texts.now start first) ++ text_bytes (part texts.now (start + first) second))) }
{
    emit_number_text(ATTRIBUTE_EQUAL, start, first, texts, writer);
    emit_text_part(start as usize + first as usize, second, texts, writer);
}

// Writes the component that a component row says: its kind, where its texts start in `texts`, and its two numbers. The four numbers are told one by one:
// they come from one row, and part here at once by its kind.
pub fn emit_component(
    kind: u32,
    start: u32,
    first: u32,
    second: u32,
    texts: &[u8],
    writer: &mut Writer<'_>,
)
    ensures { Wrote writer.old writer.new (component_bytes (component_from texts.now kind start first second)) }
{
    if is_mark(kind) {
        emit_number(kind, writer);
    } else if kind == NTH {
        emit_numbers(&[NTH, first, second], writer);
    } else if is_name(kind) {
        emit_number_text(kind, start, first, texts, writer);
    } else {
        emit_attribute_equal(start, first, second, texts, writer);
    }
}
