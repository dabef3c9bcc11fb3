// One selector at a row: by the block of its parent's part, the block of the own part, and whether it matches. (The row that is read and the part that is written
// come as two. A struct of both would be lent by `&mut`, and each function here, of hints and of stepping would owe that the row is the same afterwards, which
// `&Row` says by its type. `room` asks of both, as no struct has them. `few_bytes` is a clause, no field of `Row`: of those
// functions of sweeps that are lent a row alone nothing is asked of its bytes.)
ghost use Rattle.std.specs.Prelude.{◌≡◌, ◌∷◌, ◌++◌, ◌+◌, ◌≤◌, ◌<◌, length, replicate, IfSome};
ghost use Rattle.std.proofs.lemmas.List.Edits.{sets};
ghost use Rattle.compiled.specs.Sheet.{compiled_limit};
ghost use Rattle.segments.specs.Sweep.{pair_bytes, with_tests};
ghost use Rattle.segments.specs.Before.{beginning, segment_before};
ghost use Rattle.segments.specs.Visits.{to_next, awaits, block_bytes};
ghost use Rattle.segments.specs.Pass.{block_set};
ghost use Rattle.segments.specs.Parts.{pair_limit};
ghost use Rattle.visits.specs.Visiting.{to_end, IsMarked, visited, next_from, flags_behind, visited_by, visited_by_mark, next_awaited};

use crate::blocks::{Block, Marked};
use compiled::sheets::read_head;
use sweeps::compounds::{segment_before, tests_pass};
use sweeps::elements::Row;
use sweeps::parts::{
    WITH_TESTS, pair_at, pair_there, put_fresh, put_mark, put_mark_there, put_pair, put_pair_there,
};
use sweeps::sweeping::{Behind, Swept, sweep_one, sweep_rest};
use syntax::rows::AGENT_ORIGIN;

// From the place of a selector, to where its block has the place of the next selector, that of the segment that is awaited, and its flags.
pub const TO_NEXT: usize = 1;

pub const TO_AWAITED: usize = 3;

pub const TO_FLAGS: usize = 5;

// Where the first flag is the mark of a compound that has tests: to their count, and to the end of the block.
pub const TO_TESTS: usize = 6;

pub const TO_END: usize = 8;

// The segment that is awaited behind a row: the same one, with whether the selector matches; or the one before it, of so many components from a place on.
#[derive(Clone, Copy, PartialEq, Eq)]
pub enum Awaited {
    Same(bool),
    Before(u32, usize),
}

// Whether a selector matches, and the place of the next one.
#[derive(Clone, Copy, PartialEq, Eq)]
pub struct VisitAnswer {
    pub matched: bool,
    pub next: usize,
}

// Stores the two places that a block begins with.
pub fn put_places(own: &mut [u8], block: Block)
    ensures { own.new ≡ sets own.old (block.place + to_next) (pair_bytes block.next ++ pair_bytes block.awaited) }
{
    put_pair(own, block.place + TO_NEXT, block.next);
    put_pair(own, block.place + TO_AWAITED, block.awaited);
}

// Stores the whole block of the selector at `at` whose leftmost compound has tests, behind `STEPS` others which may not end here, in a part that has room for it.
// (Numbers, no `Block`: the room says all that is asked of the place.)
pub fn put_marked<const STEPS: usize>(
    own: &mut [u8],
    at: usize,
    next: usize,
    awaited: usize,
    tests: usize,
)
    requires { at + to_end + STEPS ≤ length own.old }
    ensures { own.new ≡ sets own.old (at + to_next) (block_bytes next awaited (replicate STEPS 0 ++ (with_tests ∷ pair_bytes tests))) }
{
    let flags = at + TO_FLAGS;
    put_pair_there(own, at + TO_NEXT, next);
    put_pair_there(own, at + TO_AWAITED, awaited);
    own[flags..flags + STEPS].fill(0);
    put_mark_there(own, flags + STEPS, tests);
}

// The block of the selector at `place`, where the part of the parent holds it whole and its leftmost compound has a mark behind the flags of `STEPS` others, none
// of which may end here. (The clause `near` keeps sums of places small. A `Block` carries it; before one is read there is the number alone, here and in all that
// are told the place of a selector.)
pub fn marked_block<const STEPS: usize>(above: &[u8], place: usize) -> Option<Marked>
    requires { place ≤ compiled_limit }
    ensures { IfSome result (λ marked. IsMarked above.now place STEPS marked) }
{
    if place + TO_END > above.len().saturating_sub(STEPS) {
        return None;
    }
    let mark = place + TO_FLAGS + STEPS;
    if above[place + TO_FLAGS..mark] != [0; STEPS] || above[mark] != WITH_TESTS {
        return None;
    }
    let block = Block {
        place,
        next: pair_there(above, place + TO_NEXT),
        awaited: pair_there(above, place + TO_AWAITED),
    };
    Some(Marked {
        block,
        tests: pair_there(above, place + TO_TESTS + STEPS),
    })
}

// Stores the block of a selector of which the segment before the one of `block` is awaited next; `count` components stand in the bytes from `first` on.
pub fn put_awaits(compiled: &[u8], own: &mut [u8], mut block: Block, count: u32, first: usize)
    ensures { own.new ≡ block_set (awaits (segment_before compiled.now block.awaited count (beginning first) first)) block.next block.place own.old }
{
    let segment = segment_before(compiled, block.awaited, count, first);
    block.awaited = segment.start;
    put_places(own, block);
    put_fresh(own, block.place + TO_FLAGS, segment);
}

// Stores the block of a selector whose segment is awaited as before; `one` is its first compound.
fn put_stays(row: &Row<'_>, own: &mut [u8], block: Block, one: Swept)
    requires few_bytes { length row.now.compiled.now ≤ compiled_limit }
    ensures { own.new ≡ sets own.old (block.place + to_next) (block_bytes block.next block.awaited (flags_behind row.now block one)) }
{
    put_places(own, block);
    let at = block.place + TO_FLAGS;
    match one.behind {
        Behind::Leftmost(tests) => put_mark(own, at, tests),
        Behind::Others(first) => {
            let limit = row.compiled.len().saturating_sub(1);
            sweep_rest(row, own, at, first, limit);
        }
    }
}

// The segment that is awaited behind the row, by whether the one of `block` ends there: the last one matches and stays, behind another the one before it is
// awaited.
fn next_awaited(compiled: &[u8], block: Block, ends: bool) -> Awaited
    ensures { result ≡ next_awaited compiled.now block.place block.awaited ends }
{
    if !ends {
        return Awaited::Same(false);
    }
    let Ok(head) = read_head(compiled, block.place, AGENT_ORIGIN) else {
        return Awaited::Same(false);
    };
    if block.awaited == head.next {
        Awaited::Same(true)
    } else {
        Awaited::Before(head.value.count, head.next)
    }
}

// A selector by its first compound `one`: whether it matches; its block goes to the own part.
fn visit_swept(row: &Row<'_>, own: &mut [u8], block: Block, one: Swept) -> bool
    requires few_bytes { length row.now.compiled.now ≤ compiled_limit }
    ensures value { result ≡ (visited_by row.now block one).matched }
    ensures own_after { own.new ≡ block_set (visited_by row.now block one) block.next block.place own.old }
{
    match next_awaited(row.compiled, block, one.ends) {
        Awaited::Same(matched) => {
            put_stays(row, own, block, one);
            matched
        }
        Awaited::Before(count, first) => {
            put_awaits(row.compiled, own, block, count, first);
            false
        }
    }
}

// A selector whose first compound is the leftmost and has tests, where the own part has room for its whole block: where the same segment is awaited on, the block
// stays as it is.
fn visit_marked(row: &Row<'_>, own: &mut [u8], block: Block, tests: usize) -> bool
    requires few_bytes { length row.now.compiled.now ≤ compiled_limit }
    requires room { block.place + to_end ≤ length own.old }
    requires some { 0 < tests }
    ensures value { result ≡ (visited_by_mark row.now block tests).matched }
    ensures own_after { own.new ≡ block_set (visited_by_mark row.now block tests) block.next block.place own.old }
{
    let ends = tests_pass(row, block.awaited, tests);
    match next_awaited(row.compiled, block, ends) {
        Awaited::Same(matched) => {
            put_marked::<0>(own, block.place, block.next, block.awaited, tests);
            matched
        }
        Awaited::Before(count, first) => {
            put_awaits(row.compiled, own, block, count, first);
            false
        }
    }
}

// The selector at `place`, at a row, by whatever its block is: also one that the part does not hold whole.
fn visit_any(row: &Row<'_>, own: &mut [u8], place: usize) -> VisitAnswer
    requires few_bytes { length row.now.compiled.now ≤ compiled_limit }
    requires near { place ≤ compiled_limit }
    ensures matched_value { result.matched ≡ (visited row.now place).matched }
    ensures own_after { own.new ≡ block_set (visited row.now place) (next_from row.now place) place own.old }
    ensures next_value { result.next ≡ next_from row.now place }
    ensures next_lt_pair_limit { result.next < pair_limit }
{
    let next = pair_at(row.above, place + TO_NEXT);
    let awaited = pair_at(row.above, place + TO_AWAITED);
    let block = Block {
        place,
        next,
        awaited,
    };
    if !row.compiled.is_empty() {
        let one = sweep_one(row, place + TO_FLAGS, awaited);
        let matched = visit_swept(row, own, block, one);
        return VisitAnswer { matched, next };
    }
    put_places(own, block);
    VisitAnswer {
        matched: false,
        next,
    }
}

// The selector at `place`, at a row: whether it matches; its block goes to the own part, by that of the parent's part. The end of the part is tested once for a
// block with a mark.
pub fn visit(row: &Row<'_>, own: &mut [u8], place: usize) -> VisitAnswer
    requires few_bytes { length row.now.compiled.now ≤ compiled_limit }
    requires room { length row.now.above.now ≤ length own.old }
    requires near { place ≤ compiled_limit }
    ensures matched_value { result.matched ≡ (visited row.now place).matched }
    ensures own_after { own.new ≡ block_set (visited row.now place) (next_from row.now place) place own.old }
    ensures next_value { result.next ≡ next_from row.now place }
    ensures next_lt_pair_limit { result.next < pair_limit }
{
    if !row.compiled.is_empty()
        && let Some(Marked { block, tests }) = marked_block::<0>(row.above, place)
        && tests > 0
    {
        let matched = visit_marked(row, own, block, tests);
        return VisitAnswer {
            matched,
            next: block.next,
        };
    }
    visit_any(row, own, place)
}
