// What the document is told: of each selector that has a style the leftmost segment is awaited, and nothing of it has begun.
ghost use Rattle.std.specs.Prelude.{◌≡◌, ◌≤◌, IfSome, length, unwrap_or};
ghost use Rattle.combinators.specs.Choice.{pick};
ghost use Rattle.compiled.specs.Answer.{read_answer};
ghost use Rattle.compiled.specs.Sheet.{compiled_limit};
ghost use Rattle.segments.specs.Before.{no_place};
ghost use Rattle.segments.specs.Document.{styled_from, leftmost_at, fresh_from, style_count_at, SelectorsRead};
ghost use Rattle.segments.specs.Pass.{block_set};
ghost use Rattle.visits.specs.Telling.{has_style_at, TellLent};

use crate::blocks::{Block, NO_PLACE};
use crate::visiting::{TO_FLAGS, put_awaits, put_places};
use compiled::bytes::SheetBytes;
use compiled::components::skip_components;
use compiled::numbers::read_number;
use compiled::places::{Fault, Read};
use compiled::sheets::read_head;
use sweeps::compounds::beginning;
use sweeps::parts::put_fresh;
use syntax::rows::AGENT_ORIGIN;

// Stores the block of the selector at `place`, where the place of the next one that has a style is `next`. (That `place` is within the limit is a clause here, in
// `put_styled` and in the other walks: they are told a place or read one, and a type of one number with that fact would be made anew at each turn. A `Block` has
// it. The bytes that are read and the part that is written come as two, as a row and a part do in visiting.rt.)
pub fn put_leftmost(compiled: &[u8], part: &mut [u8], place: usize, next: usize)
    requires { place ≤ compiled_limit }
    ensures { part.new ≡ block_set (leftmost_at compiled.now place) next place part.old }
{
    let block = Block {
        place,
        next,
        awaited: NO_PLACE,
    };
    match read_head(compiled, place, AGENT_ORIGIN) {
        Ok(head) => put_awaits(compiled, part, block, head.value.count, head.next),
        Err(_) => {
            put_places(part, block);
            put_fresh(part, place + TO_FLAGS, beginning(NO_PLACE));
        }
    }
}

// How many styles the selector at `at` has, and the place behind their count.
fn style_count(compiled: &[u8], at: usize) -> Result<Read<u32>, Fault>
    ensures { result ≡ read_answer (style_count_at compiled.now at) }
{
    let head = read_head(compiled, at, AGENT_ORIGIN)?;
    let end = skip_components(compiled, head.next, head.value.count)?;
    read_number(compiled, end)
}

// The place of the first of `count` selectors from `at` on that has a style. Styles are not read: behind a count of none the next selector stands. Here and
// below bytes are handed in whole, as parts keep places in them, and selectors differ in size, so that a count of them is no length.
pub fn first_styled(compiled: &[u8], at: usize, count: u32) -> Option<usize>
    requires { SelectorsRead compiled.now count at }
    ensures value { unwrap_or result no_place ≡ styled_from compiled.now count at }
    ensures upper_bound { IfSome result (λ place. place ≤ length compiled.now) }
{
    let mut next = at;
    for _ in 0..count {
        let styles = style_count(compiled, next).ok()?;
        if styles.value > 0 {
            return Some(next);
        }
        next = styles.next;
    }
    None
}

// Whether the selector at `at` has a style.
fn has_style(compiled: &[u8], at: usize) -> bool
    ensures { result ≡ has_style_at compiled.now at }
{
    style_count(compiled, at).is_ok_and(|styles| styles.value > 0)
}

// Stores the block of the selector at `place` if it has a style; `left` others stand from `behind` on.
fn put_styled(compiled: &[u8], part: &mut [u8], place: usize, behind: usize, left: u32)
    requires near { place ≤ compiled_limit }
    requires reads { SelectorsRead compiled.now left behind }
    ensures { part.new ≡ pick (has_style_at compiled.now place) (block_set (leftmost_at compiled.now place) (styled_from compiled.now left behind) place part.old) part.old }
{
    if has_style(compiled, place) {
        let next = first_styled(compiled, behind, left).unwrap_or(NO_PLACE);
        put_leftmost(compiled, part, place, next);
    }
}

// Stores the blocks of `count` selectors from `at` on.
pub fn tell_document(compiled: &[u8], part: &mut [u8], at: usize, count: u32)
    requires { TellLent compiled.now count at }
    ensures { part.new ≡ fresh_from compiled.now count at part.old }
{
    let sheet = SheetBytes { bytes: compiled };
    let mut place = at;
    for left in (0..count).rev() {
        let Ok(selector) = sheet.skip_selector(place, AGENT_ORIGIN) else {
            return;
        };
        put_styled(compiled, part, place, selector.next, left);
        place = selector.next;
    }
}
