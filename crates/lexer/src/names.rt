// Names and their characters, with escapes. A name's text goes to the store, from a fill that the callers keep, so that no writer is lent.
ghost use Rattle.std.specs.Prelude.{◌≡◌, ◌≤◌, length};
ghost use Rattle.std.proofs.lemmas.List.Edits.{sets};
ghost use Rattle.lexer.specs.Name.{is_nmstart, is_nmchar, lower, folded_char, is_hex_digit, hex_digit, hex_run, maximum_digits, hex_count, hex_value, escaped_of, ident_escape_of, nmstart_of, nmchar_of, chars_end, chars_text, dash, name_of, chars_of, ident_of, identstring_of, name_answer, name_text};

use crate::Written;
use crate::whitespace::skip_optional_whitespace;
use characters::utf8::{emit_scalar, length_of, or_replacement, scalar_at};
use combinators::bytes::{byte_is, peek};
use combinators::taken::Taken;
use combinators::writer::Writer;

// An escape takes up to six hex digits.
const MAXIMUM_DIGITS: usize = 6;

// Whether `b` can start a name.
#[tactic(auto, unfolding(crate::specs::Name::is_nmstart, combinators::specs::Choice::or, combinators::specs::Choice::is, combinators::specs::Choice::within, combinators::specs::Choice::and))]
fn is_nmstart(b: u8) -> bool
    ensures { result ≡ is_nmstart b }
{
    matches!(b, b'_' | b'a'..=b'z' | b'A'..=b'Z')
}

// Whether `b` can stand in a name.
#[tactic(auto, unfolding(crate::specs::Name::is_nmchar, crate::specs::Number::is_digit, combinators::specs::Choice::or, combinators::specs::Choice::is, combinators::specs::Choice::within, combinators::specs::Choice::and))]
fn is_nmchar(b: u8) -> bool
    ensures { result ≡ is_nmchar b }
{
    is_nmstart(b) || matches!(b, b'0'..=b'9' | b'-')
}

// The byte, with A-Z folded to a-z.
#[tactic(auto, unfolding(crate::specs::Name::lower, combinators::specs::Choice::pick, combinators::specs::Choice::within, combinators::specs::Choice::and))]
fn lower_of(b: u8) -> char
    ensures { result ≡ lower b }
{
    char::from(b.to_ascii_lowercase())
}

// A byte as a character of a name.
fn folded(b: u8) -> Taken<char>
    ensures { result ≡ record { taken = 1; value = lower b } }
{
    Taken {
        taken: 1,
        value: lower_of(b),
    }
}

// A character that can start a name, other than an escape. This one and the next have a definition each and share all but their test, which would
// bring its clauses along if it were handed in.
#[tactic(auto, unfolding(crate::specs::Name::folded_char, combinators::specs::Choice::pick))]
pub fn nmstart_char(s: &[u8]) -> Option<Taken<char>>
    ensures { result ≡ folded_char is_nmstart s.now }
{
    let b = peek(s, 0);
    is_nmstart(b).then_some(folded(b))
}

// A character of a name, other than an escape.
#[tactic(auto, unfolding(crate::specs::Name::folded_char, combinators::specs::Choice::pick))]
pub fn nmchar_char(s: &[u8]) -> Option<Taken<char>>
    ensures { result ≡ folded_char is_nmchar s.now }
{
    let b = peek(s, 0);
    is_nmchar(b).then_some(folded(b))
}

// Whether `b` is a hex digit: the library's, in the word of the definitions, as `is_digit`.
#[tactic(auto, unfolding(crate::specs::Name::is_hex_digit, combinators::specs::Choice::or, combinators::specs::Choice::within, combinators::specs::Choice::and))]
pub fn is_hex_digit(b: u8) -> bool
    ensures { result ≡ is_hex_digit b }
{
    b.is_ascii_hexdigit()
}

// What a hex digit is worth; any other byte counts as 0.
#[tactic(auto, unfolding(crate::specs::Name::hex_digit, combinators::specs::Choice::pick, combinators::specs::Choice::within, combinators::specs::Choice::and))]
pub fn hex_digit_of(b: u8) -> u32
    ensures { result ≡ hex_digit b }
{
    char::from(b).to_digit(16).unwrap_or(0)
}

// How many hex digits `t` begins with, up to six.
fn hex_run(t: &[u8]) -> usize
    ensures { result ≡ hex_run 0 maximum_digits t.now }
{
    t.iter()
        .take(MAXIMUM_DIGITS)
        .take_while(|b| is_hex_digit(**b))
        .count()
}

// How many of them the escape takes: only the first where they run to the end of the text.
#[tactic(auto, unfolding(crate::specs::Name::hex_count, combinators::specs::Choice::pick, combinators::specs::Choice::is))]
fn hex_count(t: &[u8]) -> usize
    ensures { result ≡ hex_count t.now }
{
    let n = hex_run(t);
    if n == t.len() { 1 } else { n }
}

// The number that the first `n` digits of `t` write. `peek` reads past the end too, so that no clause has to bound `n` by the text, as a slice would.
fn hex_value_of(t: &[u8], n: usize) -> u32
    requires { n ≤ maximum_digits }
    ensures { result ≡ hex_value 0 n t.now }
{
    let mut v: u32 = 0;
    for i in 0..n {
        v = v * 16 + hex_digit_of(peek(t, i));
    }
    v
}

// What an escape stands for, from behind its backslash on; the backslash counts among the bytes taken.
#[tactic(auto, unfolding(crate::specs::Name::escaped_of, crate::specs::Name::behind_one, combinators::specs::Choice::pick, combinators::specs::Choice::is))]
fn escaped(t: &[u8]) -> Option<Taken<char>>
    ensures { result ≡ escaped_of t.now }
{
    let Some(b) = t.first() else {
        return Some(Taken {
            taken: 1,
            value: char::REPLACEMENT_CHARACTER,
        });
    };
    if is_hex_digit(*b) {
        let n = hex_count(t);
        return Some(Taken {
            taken: 1 + n,
            value: or_replacement(hex_value_of(t, n)),
        });
    }
    Some(scalar_at(t)?.behind(1))
}

// An escape: a backslash and what it makes of the text behind it.
pub fn ident_escape(s: &[u8]) -> Option<Taken<char>>
    ensures { result ≡ ident_escape_of s.now }
{
    escaped(s.strip_prefix(b"\\")?)
}

// A character that can start a name. This one and the next have no body to share.
pub fn nmstart(s: &[u8]) -> Option<Taken<char>>
    ensures { result ≡ nmstart_of s.now }
{
    nmstart_char(s).or_else(|| ident_escape(s))
}

// A character of a name.
pub fn nmchar(s: &[u8]) -> Option<Taken<char>>
    ensures { result ≡ nmchar_of s.now }
{
    nmchar_char(s).or_else(|| ident_escape(s))
}

// The characters of names that `s` begins with, as many as there are. A step is what a character takes, so this is no range.
fn emit_nmchars(s: &[u8], store: &mut [u8], fill: usize) -> Written
    ensures taken_value { (result.taken ≡ chars_end s.now) × (result.length ≡ length (chars_text s.now)) }
    ensures store_after { store.new ≡ sets store.old fill (chars_text s.now) }
{
    let mut writer = Writer { store, fill };
    let mut i = 0;
    let mut n = 0;
    while let Some(c) = nmchar(&s[i..]) {
        emit_scalar(c.value as u32, &mut writer);
        n += length_of(c.value as u32);
        i += c.taken;
    }
    Written {
        taken: i,
        length: n,
    }
}

// A '-' or none: one call, with its bound and its own definition.
fn dash_of(t: &[u8]) -> usize
    ensures value { result ≡ dash t.now }
    ensures upper_bound { result ≤ length t.now }
{
    usize::from(byte_is(t, 0, b'-'))
}

// A name at the start of `t`. The '-' and the start are characters of names too, so one run over them writes the name.
fn parse_name(t: &[u8], store: &mut [u8], fill: usize) -> Option<Written>
    ensures value { result ≡ name_answer (name_of t.now) }
    ensures store_after { store.new ≡ sets store.old fill (name_text (name_of t.now)) }
{
    let d = dash_of(t);
    nmstart(&t[d..])?;
    Some(emit_nmchars(t, store, fill))
}

// One character of a name or more at the start of `t`.
fn parse_chars(t: &[u8], store: &mut [u8], fill: usize) -> Option<Written>
    ensures value { result ≡ name_answer (chars_of t.now) }
    ensures store_after { store.new ≡ sets store.old fill (name_text (chars_of t.now)) }
{
    let n = emit_nmchars(t, store, fill);
    (n.taken > 0).then_some(n)
}

// A name behind white space and comments. This one and the next stay two: a reader handed in would bring its clauses along, what it answers
// and what it leaves in the store, which are longer than the body.
pub fn parse_ident(s: &[u8], store: &mut [u8], fill: usize) -> Option<Written>
    ensures value { result ≡ name_answer (ident_of s.now) }
    ensures store_after { store.new ≡ sets store.old fill (name_text (ident_of s.now)) }
{
    let w = skip_optional_whitespace(s);
    let n = parse_name(&s[w..], store, fill)?;
    Some(Written {
        taken: w + n.taken,
        length: n.length,
    })
}

// One character of a name or more, behind white space and comments.
pub fn parse_identstring(s: &[u8], store: &mut [u8], fill: usize) -> Option<Written>
    ensures value { result ≡ name_answer (identstring_of s.now) }
    ensures store_after { store.new ≡ sets store.old fill (name_text (identstring_of s.now)) }
{
    let w = skip_optional_whitespace(s);
    let n = parse_chars(&s[w..], store, fill)?;
    Some(Written {
        taken: w + n.taken,
        length: n.length,
    })
}
