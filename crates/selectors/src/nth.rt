// The arguments of `nth-child`: `even`, `odd` or an+b, in brackets. The numbers are those of the compiled sheet: v as 2v, a negative one
// as -2v-1.
ghost use Rattle.std.specs.Prelude.{◌≡◌, ◌≤◌, length};
ghost use Rattle.syntax.specs.Signed.{signed_number};
ghost use Rattle.selectors.specs.Selector.{signed, greatest, both_of, just_a, just_b, nth_of, nth_args_of};
ghost use Rattle.selectors.specs.ComponentAnswer.{component_answer};
ghost use Rattle.selectors.specs.NthAnswer.{converted_answer, integer_of};

use crate::components::Component;
use crate::readings::{Panic, moved};
use combinators::bytes::{byte_is, starts_with};
use combinators::taken::Taken;
use lexer::numbers::{parse_integer, parse_sign};
use lexer::whitespace::skip_from;
use values::colours::{DECIMAL, digits_in};

// A sign or none and digits or none: the bytes of the sign, the bytes of both, and the number where it fits.
#[derive(Clone, Copy, Debug, PartialEq, Eq)]
struct SignedInteger {
    sign: usize,
    taken: usize,
    value: Option<u32>,
}

// The greatest number of `i32`, which the crate converts to.
const GREATEST: u32 = i32::MAX as u32;

const EVEN: [u8; 4] = *b"even";

const ODD: [u8; 3] = *b"odd";

// 0, 1 and 2 with their sign; they number no kinds.
const ZERO: u32 = 0;

const ONE: u32 = 2;

const TWO: u32 = 4;

// The number `v` with a minus or without.
fn signed_number(v: u32, minus: bool) -> u32
    requires { v ≤ greatest }
    ensures { result ≡ signed_number (signed minus v) }
{
    if minus {
        (v * 2).saturating_sub(1)
    } else {
        v * 2
    }
}

// The number that digits write, where it fits; 1 where there is none.
fn converted(digits: &[u8], minus: bool) -> Option<u32>
    ensures { result ≡ converted_answer digits.now minus }
{
    if digits.is_empty() {
        return Some(signed_number(1, minus));
    }
    let v = digits_in(digits, DECIMAL, GREATEST)?;
    Some(signed_number(v, minus))
}

// A sign or none and digits or none.
fn signed_integer(s: &[u8]) -> SignedInteger
    ensures value { result ≡ integer_of s.now }
    ensures taken_in_bounds { result.taken ≤ length s.now }
{
    let sign = parse_sign(s);
    let taken = sign + parse_integer(&s[sign..]);
    let minus = byte_is(s, 0, b'-');
    let value = converted(&s[sign..taken], minus);
    SignedInteger { sign, taken, value }
}

// A sign or none, digits or none, `n`, white space or none, a sign, digits.
fn both_of(s: &[u8]) -> Result<Option<Taken<Component>>, Panic>
    ensures { result ≡ component_answer (both_of s.now) }
{
    let first = signed_integer(s);
    if !byte_is(s, first.taken, b'n') {
        return Ok(None);
    }
    let at = skip_from(s, first.taken + 1);
    let second = signed_integer(&s[at..]);
    if second.sign == 0 || second.taken == second.sign {
        return Ok(None);
    }
    let a = first.value.ok_or(Panic { place: first.sign })?;
    let b = second.value.ok_or(Panic {
        place: at + second.sign,
    })?;
    Ok(Some(Taken {
        taken: at + second.taken,
        value: Component::Nth(a, b),
    }))
}

// The same up to the `n`.
fn just_a(s: &[u8]) -> Result<Option<Taken<Component>>, Panic>
    ensures { result ≡ component_answer (just_a s.now) }
{
    let first = signed_integer(s);
    if !byte_is(s, first.taken, b'n') {
        return Ok(None);
    }
    let a = first.value.ok_or(Panic { place: first.sign })?;
    Ok(Some(Taken {
        taken: first.taken + 1,
        value: Component::Nth(a, ZERO),
    }))
}

// A sign or none, digits.
fn just_b(s: &[u8]) -> Result<Option<Taken<Component>>, Panic>
    ensures { result ≡ component_answer (just_b s.now) }
{
    let second = signed_integer(s);
    if second.taken == second.sign {
        return Ok(None);
    }
    let b = second.value.ok_or(Panic { place: second.sign })?;
    Ok(Some(Taken {
        taken: second.taken,
        value: Component::Nth(ZERO, b),
    }))
}

// `even`, `odd`, or an+b in one of its forms, in the crate's order.
fn parse_nth(s: &[u8]) -> Result<Option<Taken<Component>>, Panic>
    ensures { result ≡ component_answer (nth_of s.now) }
{
    if starts_with(s, &EVEN) {
        return Ok(Some(Taken {
            taken: EVEN.len(),
            value: Component::Nth(TWO, ZERO),
        }));
    }
    if starts_with(s, &ODD) {
        return Ok(Some(Taken {
            taken: ODD.len(),
            value: Component::Nth(TWO, ONE),
        }));
    }
    if let Some(both) = both_of(s)? {
        return Ok(Some(both));
    }
    if let Some(first) = just_a(s)? {
        return Ok(Some(first));
    }
    just_b(s)
}

// The arguments in brackets, with white space or none before and behind. The '(' is passed by a place and not stripped: what follows goes by places in `s`.
pub fn parse_nth_child_args(s: &[u8]) -> Result<Option<Taken<Component>>, Panic>
    ensures { result ≡ component_answer (nth_args_of s.now) }
{
    if !byte_is(s, 0, b'(') {
        return Ok(None);
    }
    let start = skip_from(s, 1);
    let Some(nth) = moved(parse_nth(&s[start..]), start)? else {
        return Ok(None);
    };
    let end = skip_from(s, start + nth.taken);
    if !byte_is(s, end, b')') {
        return Ok(None);
    }
    Ok(Some(Taken {
        taken: end + 1,
        ..nth
    }))
}
