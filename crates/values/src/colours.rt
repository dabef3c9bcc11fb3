// Colours by name, behind '#' and in rgb(), as red * 65536 + green * 256 + blue.
ghost use Rattle.std.specs.Prelude.{◌≡◌};
ghost use Rattle.lexer.specs.Name.{hex_digit};
ghost use Rattle.syntax.specs.Layout.{colour_number};
ghost use Rattle.values.specs.Words.{lookup};
ghost use Rattle.values.specs.Colour.{rgb, colours, without_plus, digits_in, parse_u8, parse_hex, three_digits, six_digits, hash_colour, three_numbers};
ghost use Rattle.values.specs.ColourAnswer.{is_digit_in, number_answer, colour_answer};

use crate::words::lookup;
use lexer::names::{hex_digit_of, is_hex_digit};

// The seventeen names, and the colours that they stand for.
const COLOURS: [(&str, u32); 17] = [
    ("aqua", 0x00ffff),
    ("black", 0x000000),
    ("blue", 0x0000ff),
    ("fuchsia", 0xff00ff),
    ("gray", 0x808080),
    ("green", 0x008000),
    ("lime", 0x00ff00),
    ("maroon", 0x800000),
    ("navy", 0x000080),
    ("olive", 0x808000),
    ("orange", 0xffa500),
    ("purple", 0x800080),
    ("red", 0xff0000),
    ("silver", 0xc0c0c0),
    ("teal", 0x008080),
    ("white", 0xffffff),
    ("yellow", 0xffff00),
];

// Bases of numbers; they number no kinds.
pub const DECIMAL: u32 = 10;

const HEXADECIMAL: u32 = 16;

// The digits of a colour behind '#': one for each of red, green and blue, or two.
const SHORT_DIGITS: usize = 3;

const LONG_DIGITS: usize = 6;

// The colour that the name `s` stands for.
pub fn named_colour(s: &[u8]) -> Option<u32>
    ensures { result ≡ colour_answer (lookup s.now colours) }
{
    lookup(s, &COLOURS)
}

// Whether `b` is a digit in the base.
fn is_digit_in(base: u32, b: u8) -> bool
    ensures { result ≡ is_digit_in base b }
{
    is_hex_digit(b) && hex_digit_of(b) < base
}

// The number that `t` writes in the base, up to `most`. Above that, digits that follow only make it more.
pub fn digits_in(t: &[u8], base: u32, most: u32) -> Option<u32>
    ensures { result ≡ number_answer (digits_in (is_digit_in base) base hex_digit most t.now) }
{
    if t.is_empty() {
        return None;
    }
    let mut value: u32 = 0;
    for b in t {
        if !is_digit_in(base, *b) {
            return None;
        }
        value = value.checked_mul(base)?.checked_add(hex_digit_of(*b))?;
        if value > most {
            return None;
        }
    }
    Some(value)
}

// The number that `s` writes in the base, up to `most`, behind a '+' or none.
fn parse_in(s: &[u8], base: u32, most: u32) -> Option<u32>
    ensures { result ≡ number_answer (digits_in (is_digit_in base) base hex_digit most (without_plus s.now)) }
{
    digits_in(s.strip_prefix(b"+").unwrap_or(s), base, most)
}

// The same up to 255, which the cast keeps: `try_from` would answer a failure too, which cannot come.
fn byte_in(s: &[u8], base: u32) -> Option<u8>
    ensures { result ≡ number_answer (digits_in (is_digit_in base) base hex_digit 255 (without_plus s.now)) }
{
    let number = parse_in(s, base, u8::MAX as u32)?;
    Some(number as u8)
}

// A decimal number up to 255. This and the next two are `byte_in` and `parse_in` in one base each, by the names of the definitions.
fn parse_u8(s: &[u8]) -> Option<u8>
    ensures { result ≡ number_answer (parse_u8 s.now) }
{
    byte_in(s, DECIMAL)
}

// A hexadecimal number up to `most`.
pub fn parse_hex(s: &[u8], most: u32) -> Option<u32>
    ensures { result ≡ number_answer (parse_hex most s.now) }
{
    parse_in(s, HEXADECIMAL, most)
}

// A hexadecimal number up to 255.
pub fn parse_hex_u8(s: &[u8]) -> Option<u8>
    ensures { result ≡ number_answer (parse_hex 255 s.now) }
{
    byte_in(s, HEXADECIMAL)
}

// The colour as one number.
pub fn colour_number(red: u8, green: u8, blue: u8) -> u32
    ensures { result ≡ colour_number (rgb red green blue) }
{
    u32::from_be_bytes([0, red, green, blue])
}

// One hex digit for each of red, green and blue, which stands twice.
fn three_digits(v: u32) -> u32
    ensures { result ≡ colour_number (three_digits v) }
{
    let red = (v / 256 % 16 * 17) as u8;
    let green = (v / 16 % 16 * 17) as u8;
    let blue = (v % 16 * 17) as u8;
    colour_number(red, green, blue)
}

// Two hex digits for each.
fn six_digits(v: u32) -> u32
    ensures { result ≡ colour_number (six_digits v) }
{
    let [_, red, green, blue] = v.to_be_bytes();
    colour_number(red, green, blue)
}

// The colour whose hex digits stand behind '#'. A '+' may stand in place of the first.
pub fn hash_colour(s: &[u8]) -> Option<u32>
    ensures { result ≡ colour_answer (hash_colour s.now) }
{
    let v = parse_hex(s, u32::MAX)?;
    match s.len() {
        SHORT_DIGITS => Some(three_digits(v)),
        LONG_DIGITS => Some(six_digits(v)),
        _ => None,
    }
}

// The colour of three numbers up to 255.
pub fn rgb_colour(red: &[u8], green: &[u8], blue: &[u8]) -> Option<u32>
    ensures { result ≡ colour_answer (three_numbers red.now green.now blue.now) }
{
    let red = parse_u8(red)?;
    let green = parse_u8(green)?;
    let blue = parse_u8(blue)?;
    Some(colour_number(red, green, blue))
}
