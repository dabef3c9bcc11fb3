// Numbers of a compiled sheet: groups of seven bits, lowest first, at most five of them.
ghost use Rattle.std.specs.Prelude.{◌≡◌, ◌<◌, length};
ghost use Rattle.syntax.specs.Stream.{texts_many};
ghost use Rattle.compiled.specs.Number.{number_bytes, limited, number_at, ranged_at};
ghost use Rattle.compiled.specs.Answer.{read_answer, read_within};
ghost use Rattle.compiled.specs.Wrote.{Wrote};

use crate::places::{Fault, Read};
use combinators::texts::part_of;
use combinators::writer::Writer;

// How many values a group has: its byte is below that in the last group, and from there on in the others.
pub const GROUP_VALUES: u64 = 128;

const MOST_GROUPS: usize = 5;

// The number of the value `value` that starts at `at` and ends before `next`.
fn limited(at: usize, next: usize, value: u64) -> Result<Read<u32>, Fault>
    ensures { result ≡ read_answer (limited at next value) }
{
    let Ok(value) = u32::try_from(value) else {
        return Err(Fault { place: at });
    };
    Ok(Read { next, value })
}

// The number that starts at `start`, group by group.
fn read_groups(s: &[u8], start: usize) -> Result<Read<u32>, Fault>
    ensures value { result ≡ read_answer (number_at s.now start) }
    ensures read_within { read_within (length s.now) result }
{
    let mut value: u64 = 0;
    let mut scale: u64 = 1;
    let groups = part_of(s, start, MOST_GROUPS);
    for (i, b) in groups.iter().enumerate() {
        let b = u64::from(*b);
        if b < GROUP_VALUES {
            return limited(start, start + i + 1, value + b * scale);
        }
        value += (b - GROUP_VALUES) * scale;
        scale *= GROUP_VALUES;
    }
    Err(Fault { place: start })
}

// The number that starts at `start`. Most have one group, which is told at once.
pub fn read_number(s: &[u8], start: usize) -> Result<Read<u32>, Fault>
    ensures value { result ≡ read_answer (number_at s.now start) }
    ensures read_within { read_within (length s.now) result }
{
    if let Some(b) = s.get(start)
        && u64::from(*b) < GROUP_VALUES
    {
        return Ok(Read {
            next: start + 1,
            value: u32::from(*b),
        });
    }
    read_groups(s, start)
}

// The number at `at`, where it is from `lo` to `hi`.
pub fn read_ranged(s: &[u8], at: usize, lo: u32, hi: u32) -> Result<Read<u32>, Fault>
    ensures value { result ≡ read_answer (ranged_at s.now at lo hi) }
    ensures read_within { read_within (length s.now) result }
{
    let number = read_number(s, at)?;
    if (lo..=hi).contains(&number.value) {
        Ok(number)
    } else {
        Err(Fault { place: at })
    }
}

// Writes a number without padding. Its groups end with its value, so this is no range.
pub fn emit_number(v: u32, writer: &mut Writer<'_>)
    ensures { Wrote writer.old writer.new (number_bytes v) }
{
    let mut left = u64::from(v);
    while left >= GROUP_VALUES {
        writer.emit((left % GROUP_VALUES + GROUP_VALUES) as u8);
        left /= GROUP_VALUES;
    }
    writer.emit(left as u8);
}

// Writes numbers, one behind the other.
pub fn emit_numbers(numbers: &[u32], writer: &mut Writer<'_>)
    ensures { Wrote writer.old writer.new (texts_many number_bytes numbers.now) }
{
    for number in numbers {
        emit_number(*number, writer);
    }
}
