// Styles of declarations, from declaration rows to style rows. The readers of a row that other crates call are told its place, 0 where the row is
// cut already: lent rows are also walked by counts that stand in them and may end before, so that a place may lie behind the end, where all numbers
// are 0.
ghost use Rattle.std.specs.Prelude.{◌≡◌, List, ℕ, ◌+◌, ◌*◌, ◌≤◌, length, get_or, drop};
ghost use Rattle.std.specs.Bool.{then_some};
ghost use Rattle.std.specs.Option.{option_or};
ghost use Rattle.combinators.specs.Store.{emits};
ghost use Rattle.syntax.specs.Layout.{declaration_start, row_of_numbers, style_width};
ghost use Rattle.declarations.specs.StyleNumbers.{no_value, added_style, own_numbers, own_numbers_at, own_row, has_value, zero_row, hidden_row, Cut, StylesLeft};

use combinators::stores::{emit_all, number_at};
use syntax::rows::{
    BACKGROUND_COLOR, BACKGROUND_SLOT, COLOR, COLOUR_SLOT, CONTENT, CONTENT_SLOT,
    DECLARATION_IMPORTANT, DECLARATION_KIND, DECLARATION_SECOND, DECLARATION_START,
    DECLARATION_VALUE, DECLARATION_WIDTH, DISPLAY, DISPLAY_SLOT, FLAG_TRUE, HEIGHT, MAX_HEIGHT,
    OVERFLOW, OVERFLOW_HIDDEN, OVERFLOW_Y, STYLE_WIDTH, VISIBILITY, VISIBILITY_SLOT, WHITE_SPACE,
    WHITE_SPACE_SLOT,
};
use syntax::styles::{StyleNumbers, Value};

// What `display: none` gives its slot: where it starts, and no numbers.
fn no_value(start: u32) -> Value
    ensures { result ≡ no_value start }
{
    Value {
        number: 0,
        second: 0,
        start,
    }
}

// The `display: none` that zero height with hidden overflow adds. It is never important.
fn added_style(start: u32) -> StyleNumbers
    ensures { result ≡ added_style start }
{
    StyleNumbers {
        slot: DISPLAY_SLOT,
        important: false,
        value: no_value(start),
    }
}

// The style that a declaration's kind and value ask for. The kind is the number in a row, which may be any.
fn own_style(kind: u32, important: bool, value: Value) -> Option<StyleNumbers>
    ensures { result ≡ own_numbers kind important value }
{
    let (slot, value) = match kind {
        COLOR => (COLOUR_SLOT, value),
        BACKGROUND_COLOR => (BACKGROUND_SLOT, value),
        DISPLAY if value.number == FLAG_TRUE => (DISPLAY_SLOT, no_value(value.start)),
        WHITE_SPACE => (WHITE_SPACE_SLOT, value),
        CONTENT => (CONTENT_SLOT, value),
        VISIBILITY => (VISIBILITY_SLOT, value),
        _ => return None,
    };
    Some(StyleNumbers {
        slot,
        important,
        value,
    })
}

// The style that the declaration asks for whose row starts at `at`.
pub fn own_style_at(rows: &[u32], at: usize) -> Option<StyleNumbers>
    ensures { result ≡ own_numbers_at (drop at rows.now) }
{
    let value = Value {
        number: number_at(rows, at, DECLARATION_VALUE),
        second: number_at(rows, at, DECLARATION_SECOND),
        start: number_at(rows, at, DECLARATION_START),
    };
    own_style(
        number_at(rows, at, DECLARATION_KIND),
        number_at(rows, at, DECLARATION_IMPORTANT) == FLAG_TRUE,
        value,
    )
}

// Writes the row of a style from `place` on; the place behind it.
fn put_style(style: StyleNumbers, styles: &mut [u32], place: usize) -> usize
    ensures { record { bytes = styles.new; fill = result }
        ≡ emits (record { bytes = styles.old; fill = place }) (row_of_numbers style) }
{
    emit_all(&style.row(), styles, place)
}

// Writes the row of the style that the declaration of a row asks for, if it asks for one; the place behind it.
fn put_own_style(row: &[u32], styles: &mut [u32], place: usize) -> usize
    ensures { record { bytes = styles.new; fill = result }
        ≡ emits (record { bytes = styles.old; fill = place }) (own_row row.now) }
{
    match own_style_at(row, 0) {
        Some(style) => put_style(style, styles, place),
        None => place,
    }
}

// Whether the declaration whose row starts at `at` is of the kind `kind` or `other`, with the value `value`.
fn has_value(rows: &[u32], at: usize, kind: u32, other: u32, value: u32) -> bool
    ensures { result ≡ has_value kind other value (drop at rows.now) }
{
    let found = number_at(rows, at, DECLARATION_KIND);
    let is_kind = found == kind || found == other;
    is_kind && number_at(rows, at, DECLARATION_VALUE) == value
}

// Whether it sets a height to zero. This and `hides_overflow` are `has_value` of two kinds each, by the names of the definitions.
#[tactic(auto, unfolding(crate::specs::StyleNumbers::zero_row, syntax::specs::Layout::flag))]
pub fn is_zero_height(rows: &[u32], at: usize) -> bool
    ensures { result ≡ zero_row (drop at rows.now) }
{
    has_value(rows, at, HEIGHT, MAX_HEIGHT, FLAG_TRUE)
}

// Where the declaration of a row starts, if it sets a height to zero.
fn zero_height_start(row: &[u32]) -> Option<u32>
    ensures { result ≡ then_some (zero_row row.now) (get_or row.now declaration_start 0) }
{
    is_zero_height(row, 0).then_some(number_at(row, 0, DECLARATION_START))
}

// Whether it hides what overflows.
#[tactic(auto, unfolding(crate::specs::StyleNumbers::hidden_row, syntax::specs::Layout::overflow_number))]
pub fn hides_overflow(rows: &[u32], at: usize) -> bool
    ensures { result ≡ hidden_row (drop at rows.now) }
{
    has_value(rows, at, OVERFLOW, OVERFLOW_Y, OVERFLOW_HIDDEN)
}

// Where the first zero height starts: as was noted if one was found, or else where the row's declaration starts, if that is one.
fn first_zero(noted: Option<u32>, row: &[u32]) -> Option<u32>
    ensures { result ≡ option_or noted (then_some (zero_row row.now) (get_or row.now declaration_start 0)) }
{
    match noted {
        Some(start) => Some(start),
        None => zero_height_start(row),
    }
}

// Writes the rows of the styles that the declarations of `rows` ask for to `styles` from 0 on; how many there are. A zero height and a hidden overflow
// among them add `display: none`, which is never important and starts where the first zero height does.
pub fn styles_from_properties(rows: &[[u32; DECLARATION_WIDTH]], styles: &mut [u32]) -> usize
    requires { style_width * (length rows.now + 1) ≤ length styles.old }
    ensures { (numbers : List ℕ) → Cut rows.now numbers → StylesLeft numbers (length rows.now) styles.old styles.new result }
{
    let mut place = 0;
    let mut zero_start = None;
    let mut overflow_hidden = false;
    for row in rows {
        place = put_own_style(row, styles, place);
        zero_start = first_zero(zero_start, row);
        overflow_hidden |= hides_overflow(row, 0);
    }
    match zero_start {
        Some(start) if overflow_hidden => {
            put_style(added_style(start), styles, place) / STYLE_WIDTH
        }
        _ => place / STYLE_WIDTH,
    }
}
