// Passing over selectors at an element: those that surely fail, in one loop that reads of each no more than its block and the start of one component.
ghost use Rattle.std.specs.Prelude.{◌≡◌, ℕ, true, [], ◌∷◌, ◌≤◌, ◌<◌, length, IfSome};
ghost use Rattle.page.specs.Path.{Element};
ghost use Rattle.compiled.specs.Sheet.{compiled_limit};
ghost use Rattle.segments.specs.Pass.{pass_from};
ghost use Rattle.hints.specs.Hints.{Fits, TestFails, TestsFail};
ghost use Rattle.hints.specs.Skipping.{TestThere, BehindChild, BehindStep, StepFails, FewLeft, left_to_pass};

use crate::hints::Hint;
use compiled::components::{MARK_SIZE, TO_LENGTH, TO_TEXT, short_size};
use compiled::numbers::GROUP_VALUES;
use sweeps::elements::Row;
use syntax::rows::{CHILD, NTH};
use visits::blocks::{Marked, NO_PLACE};
use visits::visiting::{marked_block, put_marked};

// From the place of an nth-child to its two numbers, and how many bytes it takes, where they are of one group.
const TO_FIRST: usize = 1;

const TO_SECOND: usize = 2;

const NTH_SIZE: usize = 3;

// A byte below it is a number of one group.
const ONE_GROUP: usize = GROUP_VALUES as usize;

// Where some selectors are left: the place of the first, and how many stand behind it.
#[derive(Clone, Copy, PartialEq, Eq)]
pub struct Skipped {
    pub place: usize,
    pub behind: u32,
}

// How many bytes the test at `at` takes, if it is a component of one text whose kind and length are numbers of one group, or such an nth-child.
fn test_size(compiled: &[u8], at: usize) -> Option<usize>
    ensures { IfSome result (λ size. TestThere compiled.now at size) }
{
    if at < compiled.len().saturating_sub(TO_SECOND) && u32::from(compiled[at]) == NTH {
        let first = usize::from(compiled[at + TO_FIRST]);
        let second = usize::from(compiled[at + TO_SECOND]);
        return (first < ONE_GROUP && second < ONE_GROUP).then_some(NTH_SIZE);
    }
    short_size(compiled, at).filter(|size| *size > MARK_SIZE)
}

// The place behind the child step at `at`, if there is one.
fn behind_child(compiled: &[u8], at: usize) -> Option<usize>
    ensures { IfSome result (λ place. BehindChild compiled.now at place) }
{
    let kind = u32::from(*compiled.get(at)?);
    (kind == CHILD).then_some(at + MARK_SIZE)
}

// The place behind the child step that the compound at `first` stands at, where the tests before it are short ones. (A `while`: a test is as long as its bytes
// say.)
fn behind_step(compiled: &[u8], first: usize) -> Option<usize>
    ensures { IfSome result (λ place. BehindStep compiled.now first place) }
{
    let mut next = first;
    while let Some(size) = test_size(compiled, next) {
        next += size;
    }
    behind_child(compiled, next)
}

impl Hint {
    // Whether the test at `at` surely fails at the element.
    fn test_fails(&self, compiled: &[u8], at: usize) -> bool
        ensures { result ≡ true → TestFails compiled.now at self.now }
    {
        // (The guard says that the three bytes are there.)
        if at >= compiled.len().saturating_sub(TO_TEXT) {
            return false;
        }
        let kind = u32::from(compiled[at]);
        let size = usize::from(compiled[at + TO_LENGTH]);
        (1..ONE_GROUP).contains(&size) && self.name_fails(kind, size, compiled[at + TO_TEXT])
    }

    // Whether the test behind the one at `at` surely fails.
    fn second_fails(&self, compiled: &[u8], at: usize) -> bool
        ensures { result ≡ true → (tests : ℕ) → 1 < tests → TestsFail compiled.now at tests self.now }
    {
        test_size(compiled, at).is_some_and(|size| self.test_fails(compiled, at + size))
    }

    // Whether `tests` tests from `at` on surely fail, by the first or the second of them.
    fn tests_fail(&self, compiled: &[u8], at: usize, tests: usize) -> bool
        ensures { result ≡ true → TestsFail compiled.now at tests self.now }
    {
        tests > 0 && self.test_fails(compiled, at) || tests > 1 && self.second_fails(compiled, at)
    }

    // Whether the left one of two compounds surely fails by its first test, where the right one is at `at`, and `tests` is the count of the left one. (The second
    // is not asked: a call of `tests_fail` here keeps the compiler from making it a part of the loop in `skip_failing`, by a tenth of a run's time.)
    fn step_fails(&self, compiled: &[u8], at: usize, tests: usize) -> bool
        ensures { result ≡ true → StepFails compiled.now at tests self.now }
    {
        tests > 0 && behind_step(compiled, at).is_some_and(|place| self.test_fails(compiled, place))
    }
}

// At most `count` selectors from the one at `first` on, at an element for which the hint is: those are passed over that surely fail, up to the first other one.
// Their blocks are copied. A block says where the next one is, so that no slice of `own` holds `count` of them. (Place and count are told as two: the loop takes
// the count alone, and a place comes from a block, from `first_styled` or from a `Skipped`.)
pub fn skip_failing(
    row: &Row<'_>,
    own: &mut [u8],
    first: usize,
    count: u32,
    hint: &Hint,
) -> Option<Skipped>
    requires room { length row.now.above.now ≤ length own.old }
    requires near { first ≤ compiled_limit }
    ensures skips { (e : Element) → Fits hint.now e → left_to_pass row.now.compiled.now e row.now.above.now own.new result
        ≡ pass_from row.now.compiled.now (e ∷ []) row.now.above.now count first own.old }
    ensures few { IfSome result (λ skipped. FewLeft count skipped) }
{
    let compiled = row.compiled;
    let mut place = first;
    for behind in (0..count).rev() {
        if place == NO_PLACE {
            return None;
        }
        if let Some(Marked { block, tests }) = marked_block::<0>(row.above, place)
            && hint.tests_fail(compiled, block.awaited, tests)
        {
            put_marked::<0>(own, block.place, block.next, block.awaited, tests);
            place = block.next;
        } else if let Some(Marked { block, tests }) = marked_block::<1>(row.above, place)
            && hint.step_fails(compiled, block.awaited, tests)
        {
            put_marked::<1>(own, block.place, block.next, block.awaited, tests);
            place = block.next;
        } else {
            return Some(Skipped { place, behind });
        }
    }
    None
}
