// Attributes: `parse_style_attribute` and `parse_color_attribute`, and the colour of a text that lacks its '#'. Each asks for the room of its own
// text; `fill` stands beside the stores, whose texts alone are written behind others.
ghost use Rattle.std.specs.Prelude.{◌≡◌, length};
ghost use Rattle.combinators.specs.Lent.{SameStores};
ghost use Rattle.values.specs.Layout.{Room};
ghost use Rattle.values.specs.ColourAnswer.{colour_answer};
ghost use Rattle.declarations.specs.Attribute.{pairs, faulty_colour, trimmed};
ghost use Rattle.declarations.specs.Leaving.{leaving, colour_left, style_left, StyleRoom};

use crate::rules::{parse_rules, wipe_statement};
use crate::styles::styles_from_properties;
use characters::trim::trim_start;
use combinators::lent::Stores;
use combinators::stores::fill_part;
use syntax::rows::DECLARATION_WIDTH;
use values::colour_values::parse_color;
use values::colours::{colour_number, parse_hex_u8};
use values::statements::{Unbalanced, parse_value};

// The count of styles, and the bytes of text that they keep.
#[derive(Clone, Copy)]
pub struct StylesRead {
    pub count: usize,
    pub text: usize,
}

// Where the pairs of hex digits for green and for blue start, and where the last ends.
const GREEN: usize = 2;

const BLUE: usize = 4;

const PAIRS_END: usize = 6;

// The colour of three pairs of hex digits. A '+' may stand in place of the first of a pair.
fn pair_colour(digits: &[u8; PAIRS_END]) -> Option<u32>
    ensures { result ≡ colour_answer (pairs digits.now) }
{
    let red = parse_hex_u8(&digits[..GREEN])?;
    let green = parse_hex_u8(&digits[GREEN..BLUE])?;
    let blue = parse_hex_u8(&digits[BLUE..])?;
    Some(colour_number(red, green, blue))
}

// `parse_faulty_color`: the pairs at the start of the text, behind White_Space. At the end of the text White_Space may stay: where
// it is among the pairs, they are none.
pub fn parse_faulty_color(s: &[u8]) -> Option<u32>
    ensures { result ≡ colour_answer (faulty_colour (trimmed s.now)) }
{
    pair_colour(s[trim_start(s)..].first_chunk()?)
}

// The colour of an attribute `color` or `bgcolor`. What was used of the stores is zero again.
pub fn parse_color_attribute(s: &[u8], stores: &mut Stores<'_>, fill: usize) -> Option<u32>
    requires { Room (length s.now) fill stores.old.tokens.now stores.old.brackets.now stores.old.texts.now }
    ensures same { SameStores stores.old stores.new }
    ensures rules_unchanged { stores.new.rules.now ≡ stores.old.rules.now }
    ensures work_after { record { answer = result; tokens = stores.new.tokens.now; brackets = stores.new.brackets.now; store = stores.new.texts.now }
        ≡ colour_left s.now stores.old.tokens.now stores.old.brackets.now stores.old.texts.now fill }
{
    match parse_value(s, stores, fill) {
        Err(Unbalanced(statement)) => {
            wipe_statement(stores, statement, fill);
            None
        }
        Ok(value) => {
            let tokens = &mut *stores.tokens;
            let texts = &mut *stores.texts;
            let colour = parse_color(value.tokens(tokens, texts));
            wipe_statement(stores, value.statement, fill);
            colour.or_else(|| parse_faulty_color(s))
        }
    }
}

// The styles of an attribute `style`: their rows go to the stores' tokens from 0 on, the texts of their contents to the texts from `fill` on. The
// names of unknown declarations are not kept, and what else was used of the stores is zero again.
pub fn parse_style_attribute(s: &[u8], stores: &mut Stores<'_>, fill: usize) -> StylesRead
    requires { StyleRoom s.now stores.old.rules.now stores.old.tokens.now stores.old.brackets.now stores.old.texts.now fill }
    ensures same { SameStores stores.old stores.new }
    ensures stores_after { leaving result stores.new
        ≡ style_left s.now stores.old.rules.now stores.old.tokens.now stores.old.brackets.now stores.old.texts.now fill }
{
    let read = parse_rules(s, false, 0, stores, 0, fill);
    let rules = &mut *stores.rules;
    let tokens = &mut *stores.tokens;
    let numbers = DECLARATION_WIDTH * read.count;
    let (rows, _) = rules[..numbers].as_chunks();
    let count = styles_from_properties(rows, tokens);
    fill_part(rules, 0, numbers, 0);
    StylesRead {
        count,
        text: read.text,
    }
}
