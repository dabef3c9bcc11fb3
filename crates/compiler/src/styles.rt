// The styles of a rule: how many its declaration rows ask for, and the bytes of its style rows.
ghost use Rattle.std.specs.Prelude.{◌≡◌, ◌*◌, ◌≤◌, length, drop};
ghost use Rattle.syntax.specs.Layout.{read_style, styles_at, style_width};
ghost use Rattle.syntax.specs.Stream.{texts_many};
ghost use Rattle.declarations.specs.StyleNumbers.{own_row, style_count};
ghost use Rattle.compiled.specs.Style.{style_bytes};
ghost use Rattle.compiled.specs.Sheet.{styles_bytes};
ghost use Rattle.compiled.specs.Wrote.{Wrote};

use crate::lent::Rows;
use crate::past::is_past;
use combinators::writer::Writer;
use compiled::numbers::emit_number;
use compiled::styles::emit_style;
use declarations::styles::{hides_overflow, is_zero_height, own_style_at};
use syntax::rows::{DECLARATION_WIDTH, STYLE_WIDTH};
use syntax::styles::style_at;
use syntax::walk::forward;

// How many styles the declaration at `at` asks for by itself: one or none.
fn count_own_style(rows: &[u32], at: usize) -> u32
    ensures result_value { style_width * result ≡ length (own_row (drop at rows.now)) }
    ensures upper_bound { result ≤ 1 }
{
    u32::from(own_style_at(rows, at).is_some())
}

// How many styles `count` declarations from `at` on ask for. A rule's row says the count, and may say more than is lent (as in rules.rt).
pub fn count_styles(rows: &[u32], at: usize, count: u32) -> u32
    ensures { result ≡ style_count (drop at rows.now) count }
{
    let mut own: u32 = 0;
    let mut height_zero = false;
    let mut overflow_hidden = false;
    let mut place = at;
    for _ in 0..count {
        own += count_own_style(rows, place);
        height_zero |= is_zero_height(rows, place);
        overflow_hidden |= hides_overflow(rows, place);
        place = forward(rows, place, DECLARATION_WIDTH);
    }
    own + u32::from(height_zero && overflow_hidden)
}

// Writes the style whose row starts at `at`, with its text in the store of the rows.
fn emit_style_at(rows: Rows<'_>, at: usize, writer: &mut Writer<'_>)
    ensures { Wrote writer.old writer.new (style_bytes (read_style rows.entry.texts.now (drop at rows.entry.numbers.now)).value) }
{
    emit_style(style_at(rows.numbers, at), rows.texts, writer);
}

// Writes the styles of `count` rows.
fn emit_style_rows(rows: Rows<'_>, count: u32, writer: &mut Writer<'_>)
    ensures { Wrote writer.old writer.new (texts_many style_bytes (styles_at rows.entry.numbers.now rows.entry.texts.now count)) }
{
    let mut place = 0;
    for _ in 0..count {
        if is_past(writer.store.len(), writer.fill) {
            return;
        }
        emit_style_at(rows, place, writer);
        place = forward(rows.numbers, place, STYLE_WIDTH);
    }
}

// Writes how many rows there are and their styles.
pub fn emit_styles(rows: Rows<'_>, count: u32, writer: &mut Writer<'_>)
    ensures { Wrote writer.old writer.new (styles_bytes (styles_at rows.entry.numbers.now rows.entry.texts.now count)) }
{
    emit_number(count, writer);
    emit_style_rows(rows, count, writer);
}
