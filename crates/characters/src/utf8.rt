// UTF-8 by the Unicode Standard, section 3.9: Table 3-6 (the bytes of a scalar value) and Table 3-7 (well-formed byte sequences).
ghost use Rattle.std.specs.Prelude.{◌≡◌, length, Some};
ghost use Rattle.combinators.specs.Store.{emits};
ghost use Rattle.combinators.specs.Writer.{written, SameStore};
ghost use Rattle.characters.specs.Utf8.{utf8, continuation, is_continuation, or_replacement, lead_of, two, three, four, scalar_tail, scalar_of, valid};

use combinators::bytes::peek;
use combinators::taken::Taken;
use combinators::writer::Writer;

// What a first byte above ASCII says: how many bytes the sequence has, two to four, and from where to where the second byte goes.
#[derive(Clone, Copy)]
pub struct Lead {
    pub long: usize,
    pub low: u8,
    pub high: u8,
}

// A row of the table.
fn row(long: usize, low: u8, high: u8) -> Option<Lead>
    ensures { result ≡ Some (record { long = long; low = low; high = high }) }
{
    Some(Lead { long, low, high })
}

// The row of Table 3-7 that a first byte above ASCII selects, if any.
#[tactic(auto, unfolding(crate::specs::Utf8::lead_of, combinators::specs::Choice::pick))]
fn lead_of(b: u8) -> Option<Lead>
    ensures { result ≡ lead_of b }
{
    match b {
        0xc2..=0xdf => row(2, 0x80, 0xbf),
        0xe0 => row(3, 0xa0, 0xbf),
        0xe1..=0xec => row(3, 0x80, 0xbf),
        0xed => row(3, 0x80, 0x9f),
        0xee..=0xef => row(3, 0x80, 0xbf),
        0xf0 => row(4, 0x90, 0xbf),
        0xf1..=0xf3 => row(4, 0x80, 0xbf),
        0xf4 => row(4, 0x80, 0x8f),
        _ => None,
    }
}

#[tactic(auto, unfolding(crate::specs::Utf8::is_continuation, combinators::specs::Choice::within, combinators::specs::Choice::and))]
fn is_continuation(b: u8) -> bool
    ensures { result ≡ is_continuation b }
{
    matches!(b, 0x80..=0xbf)
}

// How many values so many bits have: the low ones of a first byte, of a continuation byte, and of two and three of these.
const THREE_BITS: u32 = 1 << 3;

const FOUR_BITS: u32 = 1 << 4;

const FIVE_BITS: u32 = 1 << 5;

const SIX_BITS: u32 = 1 << 6;

const TWELVE_BITS: u32 = 1 << 12;

const EIGHTEEN_BITS: u32 = 1 << 18;

// The scalar values of two, three and four bytes, each a row of Table 3-6 with its definition: one function of all would be told how many bytes to take
// and what the first is cut to.
#[tactic(auto, unfolding(crate::specs::Utf8::two))]
fn value_of_two(a: u8, b: u8) -> u32
    ensures { result ≡ two a b }
{
    u32::from(a) % FIVE_BITS * SIX_BITS + u32::from(b) % SIX_BITS
}

#[tactic(auto, unfolding(crate::specs::Utf8::three))]
fn value_of_three(a: u8, b: u8, c: u8) -> u32
    ensures { result ≡ three a b c }
{
    u32::from(a) % FOUR_BITS * TWELVE_BITS
        + u32::from(b) % SIX_BITS * SIX_BITS
        + u32::from(c) % SIX_BITS
}

#[tactic(auto, unfolding(crate::specs::Utf8::four))]
fn value_of_four(a: u8, b: u8, c: u8, d: u8) -> u32
    ensures { result ≡ four a b c d }
{
    u32::from(a) % THREE_BITS * EIGHTEEN_BITS
        + u32::from(b) % SIX_BITS * TWELVE_BITS
        + u32::from(c) % SIX_BITS * SIX_BITS
        + u32::from(d) % SIX_BITS
}

// How many bytes the scalar value `v` has. Told a number and no character: it says something of any number, as its definition does.
#[tactic(auto, unfolding(crate::specs::Utf8::utf8, combinators::specs::Choice::pick))]
pub fn length_of(v: u32) -> usize
    ensures { result ≡ length (utf8 v) }
{
    match v {
        0..=0x7f => 1,
        0x80..=0x7ff => 2,
        0x800..=0xffff => 3,
        _ => 4,
    }
}

// What `s` begins with, where its first two bytes fit a row of `long` bytes.
#[tactic(auto, unfolding(crate::specs::Utf8::scalar_tail, combinators::specs::Choice::pick, combinators::specs::Choice::is))]
fn scalar_tail(s: &[u8], long: usize) -> Option<Taken<u32>>
    ensures { result ≡ scalar_tail long s.now }
{
    let a = peek(s, 0);
    let b = peek(s, 1);
    if long == 2 {
        return Some(Taken {
            taken: 2,
            value: value_of_two(a, b),
        });
    }
    let c = peek(s, 2);
    if !is_continuation(c) {
        return None;
    }
    if long == 3 {
        return Some(Taken {
            taken: 3,
            value: value_of_three(a, b, c),
        });
    }
    let d = peek(s, 3);
    is_continuation(d).then_some(Taken {
        taken: 4,
        value: value_of_four(a, b, c, d),
    })
}

// The scalar value that `s` begins with, and how many bytes it takes. The rows of the table make characters alone, so `from_u32` refuses none of them.
#[tactic(auto, unfolding(crate::specs::Utf8::scalar_of, crate::specs::Utf8::scalar_by, combinators::specs::Choice::pick, combinators::specs::Choice::is, combinators::specs::Choice::within, combinators::specs::Choice::and))]
pub fn scalar_at(s: &[u8]) -> Option<Taken<char>>
    ensures { result ≡ scalar_of s.now }
{
    let a = *s.first()?;
    if a.is_ascii() {
        return Some(Taken {
            taken: 1,
            value: char::from(a),
        });
    }
    let lead = lead_of(a)?;
    if !(lead.low..=lead.high).contains(&peek(s, 1)) {
        return None;
    }
    let read = scalar_tail(s, lead.long)?;
    Some(Taken {
        taken: read.taken,
        value: char::from_u32(read.value)?,
    })
}

// Whether `s` is well formed, by the table above and not by `from_utf8`, which promises the library's own definition. A step is what a character takes, so
// this is no range. A byte of ASCII is passed over here: most are, and with a call for each a page's check takes half as long again, or more.
pub fn is_valid(s: &[u8]) -> bool
    ensures { result ≡ valid s.now }
{
    let mut i = 0;
    while i < s.len() {
        if s[i].is_ascii() {
            i += 1;
        } else {
            let Some(c) = scalar_at(&s[i..]) else {
                return false;
            };
            i += c.taken;
        }
    }
    true
}

// The character `v`, or U+FFFD where `v` is no scalar value.
#[tactic(auto, unfolding(crate::specs::Utf8::or_replacement, crate::specs::Utf8::is_scalar, combinators::specs::Choice::pick, combinators::specs::Choice::or, combinators::specs::Choice::within, combinators::specs::Choice::and))]
pub fn or_replacement(v: u32) -> char
    ensures { result ≡ or_replacement v }
{
    char::from_u32(v).unwrap_or(char::REPLACEMENT_CHARACTER)
}

// The continuation byte of the low six bits of `v`.
#[tactic(auto, unfolding(crate::specs::Utf8::continuation))]
fn continuation_of(v: u32) -> u8
    ensures { result ≡ continuation v }
{
    (0x80 + v % SIX_BITS) as u8
}

// The bytes of the scalar value `v`. Told a number and no character: it says something of any number, as its definition does.
#[tactic(auto, unfolding(crate::specs::Utf8::utf8, combinators::specs::Choice::pick))]
pub fn emit_scalar(v: u32, writer: &mut Writer<'_>)
    ensures same_store { SameStore writer.old writer.new }
    ensures written { written writer.new ≡ emits (written writer.old) (utf8 v) }
{
    match v {
        0..=0x7f => writer.emit(v as u8),
        0x80..=0x7ff => writer.emit_all(&[(0xc0 + v / SIX_BITS) as u8, continuation_of(v)]),
        0x800..=0xffff => writer.emit_all(&[
            (0xe0 + v / TWELVE_BITS) as u8,
            continuation_of(v / SIX_BITS),
            continuation_of(v),
        ]),
        _ => writer.emit_all(&[
            (0xf0 + v / EIGHTEEN_BITS % THREE_BITS) as u8,
            continuation_of(v / TWELVE_BITS),
            continuation_of(v / SIX_BITS),
            continuation_of(v),
        ]),
    }
}
