// One component in compiled bytes, at one row of a page.
ghost use Rattle.std.specs.Prelude.{◌≡◌, true, ◌∷◌, []};
ghost use Rattle.compiled.specs.Component.{named_of};
ghost use Rattle.segments.specs.Segments.{tested};
ghost use Rattle.sweeps.specs.Met.{handed, row_alone, mark_met, met_at, NamedAt, Nameless};

use crate::elements::{Handed, Row};
use combinators::texts::part_of;
use compiled::components::{MARK_SIZE, TO_TEXT, Written, read_component, short_size};
use compiled::texts::Span;
use matching::nth::nth_passes;
use syntax::rows::{CHILD, CLASS, ELEMENT, HASH, STAR};

// What a component is for a row, each with the place behind it: a test, with whether the tests up to it pass; a child step; a descendant step. For bytes at
// fault there is the `None` of an `Option`. (The place is in each variant: a `Read` of a kind would be taken apart by each of the three loops before its
// `match`.)
#[derive(Clone, Copy, PartialEq, Eq)]
pub enum Met {
    Test(usize, bool),
    Child(usize),
    Descendant(usize),
}

// A component of one text: the place behind it, its kind, and where its text lies. (A `Read` would hold a struct of kind and text: two
// structs to make and to take apart, for one.)
#[derive(Clone, Copy, PartialEq, Eq)]
pub struct NameAt {
    pub next: usize,
    pub kind: u32,
    pub text: Span,
}

// Whether an element passes a component of one text, which is told with its kind. Kinds are numbers of the bytes, here and in `mark_met`: `read_component` has
// asked which one it is, but of a short component it is the byte itself, of which an enum would first be made by a `match` of these arms, once more.
fn name_passes(kind: u32, asked: &[u8], element: &Handed<'_>) -> bool
    ensures { result ≡ tested (handed element.now ∷ []) (named_of kind asked.now) }
{
    match kind {
        ELEMENT => element.name == asked,
        CLASS => element.attributes().has_class(asked),
        HASH => element.attributes().has_id(asked),
        _ => element.attributes().has_attribute(asked),
    }
}

// A component that is its kind alone.
fn mark_met(next: usize, kind: u32, ok: bool) -> Met
    ensures { result ≡ mark_met next kind ok }
{
    match kind {
        STAR => Met::Test(next, ok),
        CHILD => Met::Child(next),
        _ => Met::Descendant(next),
    }
}

// The component at `at`, of whatever length, for the document, which passes star alone: a test is only read past. None where the bytes are at fault.
#[inline(never)] // (rare: see `read_met`)
fn pass_long(compiled: &[u8], at: usize, ok: bool) -> Option<Met>
    ensures { result ≡ met_at compiled.now [] ok at }
{
    let component = read_component(compiled, at).ok()?;
    match component.value {
        Written::Mark(kind) => Some(mark_met(component.next, kind, ok)),
        _ => Some(Met::Test(component.next, false)),
    }
}

// The same. Of a short component, as most are, the size and the first byte tell it. Bytes, place and `ok` are no struct:
// only `read_met` and this one hand them on.
pub fn pass_met(compiled: &[u8], at: usize, ok: bool) -> Option<Met>
    ensures { result ≡ met_at compiled.now [] ok at }
{
    match short_size(compiled, at) {
        Some(MARK_SIZE) => Some(mark_met(at + MARK_SIZE, u32::from(compiled[at]), ok)),
        Some(size) => Some(Met::Test(at + size, false)),
        None => pass_long(compiled, at, ok),
    }
}

// The component at `at`, if it has one text. Of a short one, as most are, the size tells where it lies.
fn name_at(compiled: &[u8], at: usize) -> Option<NameAt>
    ensures { NamedAt compiled.now at result }
{
    if let Some(short) = short_size(compiled, at)
        && short > MARK_SIZE
    {
        return Some(NameAt {
            next: at + short,
            kind: u32::from(compiled[at]),
            text: Span {
                start: at + TO_TEXT,
                size: short - TO_TEXT,
            },
        });
    }
    let component = read_component(compiled, at).ok()?;
    match component.value {
        Written::Name(kind, text) => Some(NameAt {
            next: component.next,
            kind,
            text,
        }),
        _ => None,
    }
}

// The component at `at`, which has not one text, for an element that has passed so far.
#[inline(never)] // (rare: see `read_met`)
fn test_other(compiled: &[u8], at: usize, element: &Handed<'_>) -> Option<Met>
    requires { Nameless compiled.now at }
    ensures { result ≡ met_at compiled.now (handed element.now ∷ []) true at }
{
    let component = read_component(compiled, at).ok()?;
    let next = component.next;
    match component.value {
        Written::Mark(kind) => Some(mark_met(next, kind, true)),
        Written::Name(_, _) => None,
        Written::Numbers(first, second) => {
            Some(Met::Test(next, nth_passes(first, second, element.place)))
        }
        Written::Names(first, second) => {
            let word = part_of(compiled, first.start, first.size);
            let value = part_of(compiled, second.start, second.size);
            let passes = element.attributes().attribute_is(word, value);
            Some(Met::Test(next, passes))
        }
    }
}

// The component at `at` for an element that has passed so far. Most have one text.
#[inline(always)]
fn test_met(compiled: &[u8], at: usize, element: &Handed<'_>) -> Option<Met>
    ensures { result ≡ met_at compiled.now (handed element.now ∷ []) true at }
{
    match name_at(compiled, at) {
        Some(found) => {
            let word = part_of(compiled, found.text.start, found.text.size);
            let passes = name_passes(found.kind, word, element);
            Some(Met::Test(found.next, passes))
        }
        None => test_other(compiled, at, element),
    }
}

// The component at `at` for the element of a row, or for the document. Where the tests so far have failed, a test need not be carried out.
// (A part of each loop that asks it, and so is `test_met`: as calls they took a run over a typical page some 15 in a thousand of its instructions more.)
#[inline(always)]
pub fn read_met(row: &Row<'_>, at: usize, ok: bool) -> Option<Met>
    ensures { result ≡ met_at row.now.compiled.now (row_alone row.now.element) ok at }
{
    match row.element {
        Some(element) if ok => test_met(row.compiled, at, element),
        _ => pass_met(row.compiled, at, ok),
    }
}
