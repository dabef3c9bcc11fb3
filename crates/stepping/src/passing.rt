// The selectors of a compiled sheet at a row: by the part of its parent into its own, and at an element the styles of those that match.
ghost use Rattle.std.specs.Prelude.{◌≡◌, [], ◌∷◌, ◌≤◌, ◌<◌, length};
ghost use Rattle.cascade.specs.declared.slots.Cascade.TheVariants.{Crate};
ghost use Rattle.cascade.specs.Row.{RowRoom};
ghost use Rattle.styles.specs.Merged.{merged_row};
ghost use Rattle.compiled.specs.Sheet.{compiled_limit};
ghost use Rattle.sweeps.specs.Met.{handed};
ghost use Rattle.visits.specs.Visiting.{visited, next_from};
ghost use Rattle.segments.specs.Pass.{matched_here, block_set, pass_from};
ghost use Rattle.segments.specs.Parts.{pair_limit};
ghost use Rattle.segments.specs.Down.{pass_at, fresh_in};
ghost use Rattle.runner.specs.PageRows.{selectors_declare};
ghost use Rattle.runner.specs.Run.{found_at};
ghost use Rattle.stepping.specs.Passing.{SheetLent};

use crate::merging::merge_found;
use compiled::bytes::SheetBytes;
use compiled::numbers::read_number;
use hints::hints::Hint;
use hints::skipping::skip_failing;
use sweeps::elements::{Handed, Row};
use visits::document::{first_styled, tell_document};
use visits::passing::pass_blocks;
use visits::visiting::visit;

// The selector at `place`, at a row: its block goes to the own part, and where it matches its styles are merged. Returns the place of the next selector. (Row and
// own part are no struct: see visits/src/visiting.rt.)
fn visit_found(row: &Row<'_>, own: &mut [u8], place: usize, out: &mut [u32]) -> usize
    requires row_room { RowRoom out.old }
    requires few_bytes { length row.now.compiled.now ≤ compiled_limit }
    requires room { length row.now.above.now ≤ length own.old }
    requires near { place ≤ compiled_limit }
    ensures own_after { own.new ≡ block_set (visited row.now place) (next_from row.now place) place own.old }
    ensures out_after { out.new ≡ merged_row Crate out.old (selectors_declare (found_at row.now.compiled.now (matched_here (visited row.now place) place))) }
    ensures value { result ≡ next_from row.now place }
    ensures upper_bound { result < pair_limit }
{
    let answer = visit(row, own, place);
    if answer.matched {
        let sheet = SheetBytes {
            bytes: row.compiled,
        };
        merge_found(sheet, place, out);
    }
    answer.next
}

// At most `count` selectors from the one at `first` on, at an element. Those that surely fail are passed over by a hint, which is found once. (A call of its own:
// as a part of the whole run its loop has too few registers, by a tenth of a run's time. The row is made here: the hint asks for the element, for which a `Row`
// has an `Option`. A block says where the next one is, so that no slice of `own` holds `count` of them.)
#[inline(never)]
fn pass_found(
    compiled: &[u8],
    above: &[u8],
    own: &mut [u8],
    first: usize,
    count: u32,
    element: &Handed<'_>,
    out: &mut [u32],
)
    requires row_room { RowRoom out.old }
    requires few_bytes { length compiled.now ≤ compiled_limit }
    requires room { length above.now ≤ length own.old }
    requires near { first ≤ compiled_limit }
    ensures own_after { own.new ≡ (pass_from compiled.now (handed element.now ∷ []) above.now count first own.old).part }
    ensures out_after { out.new ≡ merged_row Crate out.old (selectors_declare (found_at compiled.now
        (pass_from compiled.now (handed element.now ∷ []) above.now count first own.old).matched)) }
{
    let row = Row {
        compiled,
        above,
        element: Some(element),
    };
    let mut hint = Hint::new();
    hint.tell(element, count);
    let mut place = first;
    let mut left = count;
    while let Some(skipped) = skip_failing(&row, own, place, left, &hint) {
        place = visit_found(&row, own, skipped.place, out);
        left = skipped.behind;
    }
}

// All selectors of the sheet that have a style, at an element.
pub fn pass_element(
    compiled: &[u8],
    above: &[u8],
    own: &mut [u8],
    element: &Handed<'_>,
    out: &mut [u32],
)
    requires row_room { RowRoom out.old }
    requires sheet_lent { SheetLent compiled.now above.now own.old }
    ensures own_after { own.new ≡ (pass_at compiled.now (handed element.now ∷ []) above.now own.old).part }
    ensures out_after { out.new ≡ merged_row Crate out.old (selectors_declare (found_at compiled.now
        (pass_at compiled.now (handed element.now ∷ []) above.now own.old).matched)) }
{
    let Ok(count) = read_number(compiled, 0) else {
        return;
    };
    let Some(first) = first_styled(compiled, count.next, count.value) else {
        return;
    };
    pass_found(compiled, above, own, first, count.value, element, out);
}

// At most `count` selectors from the one at `first` on, at the document, by what it is told. (A call of its own: in `pass_document` the row would be made of what
// is lent at two lifetimes, which the borrow checker does not cover.)
fn pass_told<'a>(compiled: &'a [u8], told: &'a [u8], own: &mut [u8], first: usize, count: u32)
    requires few_bytes { length compiled.now ≤ compiled_limit }
    requires room { length told.now ≤ length own.old }
    requires near { first ≤ compiled_limit }
    ensures { own.new ≡ (pass_from compiled.now [] told.now count first own.old).part }
{
    let row = Row {
        compiled,
        above: told,
        element: None,
    };
    pass_blocks(&row, own, first, count);
}

// All selectors at the document, which has no style: what stands above all selectors is told in the part of the next depth, which is not open yet.
pub fn pass_document(compiled: &[u8], own: &mut [u8], next: &mut [u8])
    requires { SheetLent compiled.now next.old own.old }
    ensures next_after { next.new ≡ fresh_in compiled.now next.old }
    ensures own_after { own.new ≡ (pass_at compiled.now [] (fresh_in compiled.now next.old) own.old).part }
{
    let Ok(count) = read_number(compiled, 0) else {
        return;
    };
    tell_document(compiled, next, count.next, count.value);
    if let Some(first) = first_styled(compiled, count.next, count.value) {
        pass_told(compiled, next, own, first, count.value);
    }
}
