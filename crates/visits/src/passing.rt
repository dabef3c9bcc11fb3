// The selectors of a sheet that have a style, at a row: from one to the next by what the parent's part says.
ghost use Rattle.std.specs.Prelude.{◌≡◌, ◌≤◌, length};
ghost use Rattle.compiled.specs.Sheet.{compiled_limit};
ghost use Rattle.visits.specs.Passing.{passed};

// who goes on to a next selector asks here whether there is one
pub use crate::blocks::NO_PLACE;
use crate::visiting::visit;
use sweeps::elements::Row;

// At most `count` selectors from the one at `first` on: their blocks go to the own part. Which of them match is not asked, as for the document, which has no
// style. Each block says where the next one is, so that no slice of a part holds so many. (Place and count are no struct: the count is of the sheet and stays,
// while the place changes at each turn.)
pub fn pass_blocks(row: &Row<'_>, own: &mut [u8], first: usize, count: u32)
    requires few_bytes { length row.now.compiled.now ≤ compiled_limit }
    requires room { length row.now.above.now ≤ length own.old }
    requires near { first ≤ compiled_limit }
    ensures { own.new ≡ (passed row.now count first own.old).part }
{
    let mut place = first;
    for _ in 0..count {
        if place == NO_PLACE {
            return;
        }
        place = visit(row, own, place).next;
    }
}
