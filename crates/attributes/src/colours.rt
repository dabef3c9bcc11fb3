// `color` and `bgcolor`.
//
// In this crate `out`, `stores` and `fill` stay apart: the row has nothing to do with how far the stores are filled, and the fill is a number that some
// functions answer anew and others only pass on. Of a struct of them each contract would say which parts stay.
ghost use Rattle.std.specs.Prelude.{◌≡◌, false, map, length, take};
ghost use Rattle.values.specs.Layout.{Room};
ghost use Rattle.cascade.specs.Record.{from_attribute};
ghost use Rattle.combinators.specs.Lent.{KeptStores};
ghost use Rattle.styles.specs.Merged.{merged_row};
ghost use Rattle.attributes.specs.Merging.{colour_says, attribute_colours};

use cascade::rows::{MAIN, StyleRow, merge_computed_style};
use cascade::slots::Cascade;
use cascade::specificity::Specificity;
use combinators::lent::Stores;
use declarations::attributes::parse_color_attribute;
use syntax::rows::{AUTHOR_ORIGIN, BACKGROUND_SLOT, COLOUR_SLOT};
use syntax::styles::{StyleNumbers, Value};
use values::words::lookup;

// The attributes that name a colour, and the slots that it is for.
const COLOUR_SLOTS: [(&str, u32); 2] = [("color", COLOUR_SLOT), ("bgcolor", BACKGROUND_SLOT)];

// The colour that an attribute's value names, if it names one, as an author's value for a slot of the element's own record.
fn merge_colour(
    cascade: Cascade,
    spec: Specificity,
    slot: u32,
    value: &[u8],
    out: &mut StyleRow,
    stores: &mut Stores<'_>,
    fill: usize,
)
    requires { Room (length value.now) fill stores.old.tokens.now stores.old.brackets.now stores.old.texts.now }
    ensures out_after { out.new ≡ merged_row cascade out.old (map (from_attribute false spec) (colour_says slot value.now)) }
    ensures texts_unchanged { take fill stores.new.texts.now ≡ take fill stores.old.texts.now }
    ensures rules_unchanged { stores.new.rules.now ≡ stores.old.rules.now }
    ensures kept { KeptStores stores.old stores.new }
{
    if let Some(number) = parse_color_attribute(value, stores, fill) {
        let colour = Value {
            number,
            second: 0,
            start: 0,
        };
        let style = StyleNumbers {
            slot,
            important: false,
            value: colour,
        };
        merge_computed_style(out, cascade, MAIN, AUTHOR_ORIGIN, spec, style);
    }
}

// The colour of an attribute `color` or `bgcolor`; any other says nothing. Name and value come apart, as `page` reads them.
pub fn merge_colour_attribute(
    cascade: Cascade,
    spec: Specificity,
    name: &[u8],
    value: &[u8],
    out: &mut StyleRow,
    stores: &mut Stores<'_>,
    fill: usize,
)
    requires { Room (length value.now) fill stores.old.tokens.now stores.old.brackets.now stores.old.texts.now }
    ensures out_after { out.new ≡ merged_row cascade out.old (map (from_attribute false spec) (attribute_colours (record { name = name.now; value = value.now }))) }
    ensures texts_unchanged { take fill stores.new.texts.now ≡ take fill stores.old.texts.now }
    ensures rules_unchanged { stores.new.rules.now ≡ stores.old.rules.now }
    ensures kept { KeptStores stores.old stores.new }
{
    if let Some(slot) = lookup(name, &COLOUR_SLOTS) {
        merge_colour(cascade, spec, slot, value, out, stores, fill);
    }
}
