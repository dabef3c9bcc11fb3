// `style`.
ghost use Rattle.std.specs.Prelude.{◌≡◌, true, ◌++◌, map, ◌+◌, length, take};
ghost use Rattle.syntax.specs.Layout.{style_texts};
ghost use Rattle.declarations.specs.Attribute.{style_attribute};
ghost use Rattle.styles.specs.Said.{attribute_style};
ghost use Rattle.styles.specs.StyleCall.{placed_styles};
ghost use Rattle.combinators.specs.Lent.{KeptStores};
ghost use Rattle.styles.specs.Merged.{merged_row, late_declared};
ghost use Rattle.attributes.specs.Merging.{inline_important, shifted, inline_style, Shiftable, rows_declared, InlineRows, ValueRoomOf};

use cascade::rows::{MAIN, StyleRow, merge_computed_style};
use cascade::slots::Cascade;
use cascade::specificity::Specificity;
use combinators::lent::Stores;
use declarations::attributes::parse_style_attribute;
use syntax::rows::{AUTHOR_ORIGIN, CONTENT_SLOT, STYLE_WIDTH};
use syntax::styles::{StyleNumbers, Value, style_at};

// Whether a style of a `style` attribute is important: in the crate's cascade none is. The two arms are the definition's two lines.
#[tactic(auto, unfolding(crate::specs::Merging::inline_important))]
fn inline_important(cascade: Cascade, important: bool) -> bool
    ensures { result ≡ inline_important cascade important }
{
    match cascade {
        Cascade::Crate => false,
        Cascade::Book => important,
    }
}

// What a style gives its slot, a content's start counted from `base` on.
fn shifted(style: StyleNumbers, base: usize) -> Value
    requires { Shiftable base style }
    ensures { result ≡ shifted base style }
{
    let value = style.value;
    if style.slot == CONTENT_SLOT {
        Value {
            number: value.number + base as u32,
            ..value
        }
    } else {
        value
    }
}

// A style of a `style` attribute as it is merged.
fn inline_style(cascade: Cascade, base: usize, style: StyleNumbers) -> StyleNumbers
    requires { Shiftable base style }
    ensures { result ≡ inline_style cascade base style }
{
    StyleNumbers {
        important: inline_important(cascade, style.important),
        value: shifted(style, base),
        ..style
    }
}

// The styles of style rows, as an author's inline values for the element's own record.
fn merge_inline_styles(
    cascade: Cascade,
    rows: &[[u32; STYLE_WIDTH]],
    base: usize,
    out: &mut StyleRow,
)
    requires { InlineRows base rows.now }
    ensures { out.new ≡ merged_row cascade out.old (rows_declared cascade base rows.now) }
{
    for row in rows {
        let style = inline_style(cascade, base, style_at(row, 0));
        merge_computed_style(
            out,
            cascade,
            MAIN,
            AUTHOR_ORIGIN,
            Specificity::INLINE,
            style,
        );
    }
}

// What the value of a `style` attribute says; its contents lie in `texts` from `fill` on. The fill behind them.
// `base` is where the starts of contents count from, a number of the caller's; for the others see the head of colours.rt.
pub fn merge_style_attribute(
    cascade: Cascade,
    value: &[u8],
    base: usize,
    out: &mut StyleRow,
    stores: &mut Stores<'_>,
    fill: usize,
) -> usize
    requires { ValueRoomOf (length value.now) base fill stores.old }
    ensures out_after { out.new ≡ merged_row cascade out.old (late_declared cascade (map (attribute_style true) (placed_styles (base + fill) (style_attribute value.now)))) }
    ensures value { result ≡ fill + length (style_texts (style_attribute value.now)) }
    ensures texts_after { take result stores.new.texts.now ≡ take fill stores.old.texts.now ++ style_texts (style_attribute value.now) }
    ensures kept { KeptStores stores.old stores.new }
{
    let read = parse_style_attribute(value, stores, fill);
    let (rows, _) = stores.tokens[..STYLE_WIDTH * read.count].as_chunks();
    merge_inline_styles(cascade, rows, base, out);
    fill + read.text
}
