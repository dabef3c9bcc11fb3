// Compounds and segments of a selector in compiled bytes. Nothing is asked of the bytes or of the places: a fault ends the walk. The walks are handed the whole
// bytes and a place, since the places that a part keeps count from the start of the bytes.
ghost use Rattle.std.specs.Prelude.{◌≡◌, ◌≤◌};
ghost use Rattle.segments.specs.Sweep.{tests_pass, compound_at};
ghost use Rattle.segments.specs.Before.{beginning, segment_before};
ghost use Rattle.sweeps.specs.Met.{row_alone};

use crate::elements::Row;
use crate::pieces::{Met, pass_met, read_met};

// Whether a compound ends here, and the place behind the step that it stands at.
#[derive(Clone, Copy, PartialEq, Eq)]
pub struct Compound {
    pub ends: bool,
    pub place: usize,
}

// Where a segment begins, how many child steps it has, and how many tests its leftmost compound.
#[derive(Clone, Copy, PartialEq, Eq)]
pub struct Segment {
    pub start: usize,
    pub steps: usize,
    pub tests: usize,
}

// A segment of which nothing is counted, or begun, yet. The fields are its own: other structs with zeros in them share that shape alone.
pub fn beginning(start: usize) -> Segment
    ensures { result ≡ record { start = start; steps = 0; tests = 0 } }
{
    Segment {
        start,
        steps: 0,
        tests: 0,
    }
}

// Whether `count` tests from `at` on pass. A loop, no `all`: a test begins where the one before ended, as it was read.
pub fn tests_pass(row: &Row<'_>, at: usize, count: usize) -> bool
    ensures { result ≡ tests_pass row.now.compiled.now (row_alone row.now.element) count at }
{
    let mut next = at;
    for _ in 0..count {
        match read_met(row, next, true) {
            Some(Met::Test(behind, true)) => next = behind,
            _ => return false,
        }
    }
    true
}

// The compound from `at` on, of at most `limit` components; `may` says whether it may end here. An arm returns: a step ends the compound, with the place that
// it holds.
pub fn compound_at(row: &Row<'_>, at: usize, limit: usize, may: bool) -> Compound
    ensures { record { ends = result.ends; place = result.place } ≡ compound_at row.now.compiled.now (row_alone row.now.element) limit may at }
{
    let mut place = at;
    let mut ends = may;
    for _ in 0..limit {
        match read_met(row, place, ends) {
            Some(Met::Test(next, passes)) => {
                place = next;
                ends = passes;
            }
            Some(Met::Child(next) | Met::Descendant(next)) => {
                return Compound { ends, place: next };
            }
            None => return Compound { ends: false, place },
        }
    }
    Compound { ends: false, place }
}

// Of `count` components from `first` on, the segment that stands before the one that begins at `stop`, or the leftmost where there is none.
pub fn segment_before(compiled: &[u8], stop: usize, count: u32, first: usize) -> Segment
    ensures tests_value { record { start = result.start; steps = result.steps; tests = result.tests }
        ≡ segment_before compiled.now stop count (beginning first) first }
    ensures steps_le_count { result.steps ≤ count }
    ensures tests_le_count { result.tests ≤ count }
{
    let mut segment = beginning(first);
    let mut next = first;
    for _ in 0..count {
        match pass_met(compiled, next, false) {
            Some(Met::Test(behind, _)) => {
                next = behind;
                segment.tests += 1;
            }
            Some(Met::Child(behind)) => {
                next = behind;
                segment.steps += 1;
                segment.tests = 0;
            }
            Some(Met::Descendant(behind)) if behind != stop => {
                next = behind;
                segment = beginning(behind);
            }
            _ => return segment,
        }
    }
    segment
}
