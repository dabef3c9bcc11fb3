// Bytes and numbers of two bytes in a part of the state. What lies behind the part reads as 0, and is not written. (Each function that is told a place and goes
// on behind it asks that it is below `flags_limit`, so that sums of places do not wrap. The place is the sum of another and a constant or a count nearly
// everywhere, so a type with that fact would be made anew at each call.)
ghost use Rattle.std.specs.Prelude.{◌≡◌, ◌∷◌, ◌+◌, ◌≤◌, ◌<◌, length, set};
ghost use Rattle.std.proofs.lemmas.List.Edits.{sets};
ghost use Rattle.segments.specs.Sweep.{pair_at, pair_bytes, with_tests, mark_bytes, marked_tests};
ghost use Rattle.segments.specs.Before.{fresh_bytes};
ghost use Rattle.segments.specs.Parts.{flags_limit, pair_limit};

use crate::compounds::Segment;
use combinators::bytes::peek;
use combinators::stores::fill_part;

// How many values a number of two bytes has, and from its lower byte to the higher one.
const PAIR_VALUES: usize = 65536;

const TO_HIGHER: usize = 1;

// The mark of a leftmost compound that has no test, and of one that has tests, whose count stands behind it. Numbers, as `MAY_END` of a flag: the state is lent
// bytes of any content, and any byte from the first mark on is read as a mark.
pub const WITHOUT_TESTS: u8 = 2;

pub const WITH_TESTS: u8 = 3;

// From a mark to the count of its tests.
const TO_COUNT: usize = 1;

// The number at `at`, the lower byte first, of two bytes that are there.
pub fn pair_there(part: &[u8], at: usize) -> usize
    requires { at + 1 < length part.now }
    ensures value { result ≡ pair_at part.now at }
    ensures upper_bound { result < pair_limit }
{
    usize::from(u16::from_le_bytes([part[at], part[at + TO_HIGHER]]))
}

// The number at `at`, the lower byte first. The end is tested once where both bytes are there.
pub fn pair_at(part: &[u8], at: usize) -> usize
    requires { at ≤ flags_limit }
    ensures value { result ≡ pair_at part.now at }
    ensures upper_bound { result < pair_limit }
{
    if at + TO_HIGHER < part.len() {
        return pair_there(part, at);
    }
    usize::from(u16::from_le_bytes([peek(part, at), peek(part, at + TO_HIGHER)]))
}

// How many tests the mark at `at` says.
pub fn marked_tests(part: &[u8], at: usize) -> usize
    requires { at < flags_limit }
    ensures { result ≡ marked_tests part.now at }
{
    if peek(part, at) == WITHOUT_TESTS {
        return 0;
    }
    pair_at(part, at + TO_COUNT)
}

// Stores a byte. (An `if`, no `get_mut`: where that answers none, the proof is not told that the part is as it was.)
pub fn put_byte(part: &mut [u8], at: usize, byte: u8)
    ensures { part.new ≡ set part.old at byte }
{
    if at < part.len() {
        part[at] = byte;
    }
}

// The bytes of the number `n`, the lower first; one too large for two bytes wraps.
fn pair_bytes(n: usize) -> [u8; 2]
    ensures { result ≡ pair_bytes n }
{
    ((n % PAIR_VALUES) as u16).to_le_bytes()
}

// Stores the number `n`, which is no length, where both bytes have room. (Two stores: a slice of two places and `copy_from_slice` would be as long, and the
// two bytes would have no names.)
pub fn put_pair_there(part: &mut [u8], at: usize, n: usize)
    requires { at + 1 < length part.old }
    ensures { part.new ≡ sets part.old at (pair_bytes n) }
{
    let [low, high] = pair_bytes(n);
    part[at] = low;
    part[at + TO_HIGHER] = high;
}

// Stores the number `n`. The end is tested once where both bytes have room.
pub fn put_pair(part: &mut [u8], at: usize, n: usize)
    requires { at ≤ flags_limit }
    ensures { part.new ≡ sets part.old at (pair_bytes n) }
{
    if at + TO_HIGHER < part.len() {
        put_pair_there(part, at, n);
        return;
    }
    let [low, high] = pair_bytes(n);
    put_byte(part, at, low);
    put_byte(part, at + TO_HIGHER, high);
}

// Stores the mark of a leftmost compound of so many tests.
pub fn put_mark(part: &mut [u8], at: usize, tests: usize)
    requires { at < flags_limit }
    ensures { part.new ≡ sets part.old at (mark_bytes tests) }
{
    if tests == 0 {
        put_byte(part, at, WITHOUT_TESTS);
        return;
    }
    put_byte(part, at, WITH_TESTS);
    put_pair(part, at + TO_COUNT, tests);
}

// Stores the mark of one that has tests, where its three bytes have room.
pub fn put_mark_there(part: &mut [u8], at: usize, tests: usize)
    requires { at + 2 < length part.old }
    ensures { part.new ≡ sets part.old at (with_tests ∷ pair_bytes tests) }
{
    part[at] = WITH_TESTS;
    put_pair_there(part, at + TO_COUNT, tests);
}

// Stores the flags of a segment of which nothing has begun.
pub fn put_fresh(part: &mut [u8], at: usize, segment: Segment)
    requires { at + segment.steps < flags_limit }
    ensures { part.new ≡ sets part.old at (fresh_bytes (record { start = segment.start; steps = segment.steps; tests = segment.tests })) }
{
    fill_part(part, at, segment.steps, 0);
    put_mark(part, at + segment.steps, segment.tests);
}
