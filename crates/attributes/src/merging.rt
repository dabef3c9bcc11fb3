// The attributes of an element, in their order.
//
// For `out`, `stores` and `fill` see the head of colours.rt. A struct of `cascade` and `attributes` would be made for one call each and taken apart in it. `InlineRoom`
// and `ValueRoom` join the attributes with the fill and the stores. They hold anew behind each attribute, for the attributes that are left and the fill behind its
// contents: a field would be shown again at each write.
ghost use Rattle.std.specs.Prelude.{◌≡◌, false, ◌++◌, map, ℕ, ◌+◌, length, take};
ghost use Rattle.cascade.specs.Record.{from_attribute};
ghost use Rattle.cascade.specs.Specificity.{no_specificity};
ghost use Rattle.page.specs.PathOf.{attributes_from};
ghost use Rattle.page.specs.Rows.{attribute_value};
ghost use Rattle.matching.specs.Rows.{attribute_of};
ghost use Rattle.styles.specs.Said.{attribute_says};
ghost use Rattle.styles.specs.StyleCall.{attribute_contents, attributes_contents, placed_styles, placed_attributes};
ghost use Rattle.combinators.specs.Lent.{KeptStores};
ghost use Rattle.styles.specs.Merged.{merged_row, early_declared, late_declared};
ghost use Rattle.attributes.specs.Merging.{InlineRoomOf, ColoursRoomOf, ValueRoomOf, colours_say};

use crate::colours::merge_colour_attribute;
use crate::inline::merge_style_attribute;
use cascade::rows::StyleRow;
use cascade::slots::Cascade;
use cascade::specificity::Specificity;
use combinators::lent::Stores;
use matching::elements::Attributes;
use page::rows::{attribute_name, attribute_value};

const STYLE_NAME: &[u8] = b"style";

// What the attribute in a row says behind the author's rules; the fill behind its contents. The cascades differ in where colours are merged, here
// or in `merge_early_attributes`: of each `match` one arm does something. The name is compared as it is read, since colours are told it too.
fn merge_late(
    cascade: Cascade,
    attributes: Attributes<'_>,
    row: usize,
    base: usize,
    out: &mut StyleRow,
    stores: &mut Stores<'_>,
    fill: usize,
) -> usize
    requires { ValueRoomOf (length (attribute_value attributes.rows.now attributes.text.now row)) base fill stores.old }
    ensures out_after { out.new ≡ merged_row cascade out.old (late_declared cascade (attribute_says (placed_styles (base + fill)) (attribute_of attributes.entry.rows.now attributes.entry.text.now row))) }
    ensures value { result ≡ fill + length (attribute_contents (attribute_of attributes.entry.rows.now attributes.entry.text.now row)) }
    ensures texts_after { take result stores.new.texts.now ≡ take fill stores.old.texts.now ++ attribute_contents (attribute_of attributes.entry.rows.now attributes.entry.text.now row) }
    ensures kept { KeptStores stores.old stores.new }
{
    let name = attribute_name(attributes.rows, attributes.text, row);
    let value = attribute_value(attributes.rows, attributes.text, row);
    if name == STYLE_NAME {
        return merge_style_attribute(cascade, value, base, out, stores, fill);
    }
    match cascade {
        Cascade::Crate => {
            merge_colour_attribute(cascade, Specificity::INLINE, name, value, out, stores, fill);
            fill
        }
        Cascade::Book => fill,
    }
}

// What attributes say behind the author's rules: in the crate's cascade `style`, `color` and `bgcolor`, in the book order `style` alone. Their
// contents lie in `texts` from `fill` on, where starts count from `base` and the fill; the fill behind them. What the other stores hold afterwards,
// and `texts` behind that fill, is left free.
pub fn merge_attributes(
    cascade: Cascade,
    attributes: Attributes<'_>,
    base: usize,
    out: &mut StyleRow,
    stores: &mut Stores<'_>,
    fill: usize,
) -> usize
    requires { InlineRoomOf (attributes_from attributes.rows.now attributes.text.now attributes.count 0) base fill stores.old }
    ensures out_after { out.new ≡ merged_row cascade out.old (late_declared cascade (placed_attributes (base + fill) (attributes_from attributes.entry.rows.now attributes.entry.text.now attributes.entry.count 0))) }
    ensures value { result ≡ fill + length (attributes_contents (attributes_from attributes.entry.rows.now attributes.entry.text.now attributes.entry.count 0)) }
    ensures texts_after { take result stores.new.texts.now ≡ take fill stores.old.texts.now ++ attributes_contents (attributes_from attributes.entry.rows.now attributes.entry.text.now attributes.entry.count 0) }
    ensures kept { KeptStores stores.old stores.new }
{
    let mut f = fill;
    for i in 0..attributes.count {
        f = merge_late(cascade, attributes, i, base, out, stores, f);
    }
    f
}

// The colours of the attributes `color` and `bgcolor`, as an author's values of no specificity.
fn merge_colours(
    cascade: Cascade,
    attributes: Attributes<'_>,
    out: &mut StyleRow,
    stores: &mut Stores<'_>,
    fill: usize,
)
    requires { ColoursRoomOf (attributes_from attributes.rows.now attributes.text.now attributes.count 0) fill stores.old }
    ensures out_after { out.new ≡ merged_row cascade out.old (map (from_attribute false no_specificity) (colours_say (attributes_from attributes.entry.rows.now attributes.entry.text.now attributes.entry.count 0))) }
    ensures texts_unchanged { take fill stores.new.texts.now ≡ take fill stores.old.texts.now }
    ensures rules_unchanged { stores.new.rules.now ≡ stores.old.rules.now }
    ensures kept { KeptStores stores.old stores.new }
{
    for i in 0..attributes.count {
        let name = attribute_name(attributes.rows, attributes.text, i);
        let value = attribute_value(attributes.rows, attributes.text, i);
        merge_colour_attribute(cascade, Specificity::NONE, name, value, out, stores, fill);
    }
}

// What attributes say before the author's rules: in the book order `color` and `bgcolor`. What the stores hold afterwards, `texts` up to the fill
// apart, is left free.
pub fn merge_early_attributes(
    cascade: Cascade,
    attributes: Attributes<'_>,
    out: &mut StyleRow,
    stores: &mut Stores<'_>,
    fill: usize,
)
    requires { ColoursRoomOf (attributes_from attributes.rows.now attributes.text.now attributes.count 0) fill stores.old }
    ensures by_index { (f : ℕ) → out.new ≡ merged_row cascade out.old (early_declared cascade (placed_attributes f (attributes_from attributes.entry.rows.now attributes.entry.text.now attributes.entry.count 0))) }
    ensures texts_unchanged { take fill stores.new.texts.now ≡ take fill stores.old.texts.now }
    ensures rules_unchanged { stores.new.rules.now ≡ stores.old.rules.now }
    ensures kept { KeptStores stores.old stores.new }
{
    match cascade {
        Cascade::Crate => {}
        Cascade::Book => merge_colours(cascade, attributes, out, stores, fill),
    }
}
