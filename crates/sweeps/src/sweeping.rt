// A segment at a row, by the flags in the part of its parent; those that the children are told go to the own part.
ghost use Rattle.std.specs.Prelude.{◌≡◌, ◌+◌, ◌<◌};
ghost use Rattle.std.proofs.lemmas.List.Edits.{sets};
ghost use Rattle.segments.specs.Sweep.{sweep_at};
ghost use Rattle.sweeps.specs.Met.{row_alone};
ghost use Rattle.segments.specs.Parts.{flags_limit};
ghost use Rattle.sweeps.specs.Swept.{swept_one};

use crate::compounds::{compound_at, tests_pass};
use crate::elements::Row;
use crate::parts::{WITHOUT_TESTS, marked_tests, put_byte, put_mark};
use combinators::bytes::peek;

// The flag of a compound that may end here, and how many bytes a flag takes.
const MAY_END: u8 = 1;

const FLAG_SIZE: usize = 1;

// What stands behind the flag of a compound: of the leftmost its mark, with how many tests it has; of another the compounds from a place on.
#[derive(Clone, Copy, PartialEq, Eq)]
pub enum Behind {
    Leftmost(usize),
    Others(usize),
}

// One compound: whether it ends here, and what stands behind its flag.
#[derive(Clone, Copy, PartialEq, Eq)]
pub struct Swept {
    pub ends: bool,
    pub behind: Behind,
}

// The compound whose flag is at `flag` of the parent's part, and whose components stand from `at` on.
pub fn sweep_one(row: &Row<'_>, flag: usize, at: usize) -> Swept
    requires { flag < flags_limit }
    ensures { result ≡ swept_one row.now.compiled.now (row_alone row.now.element) row.now.above.now flag at }
{
    let byte = peek(row.above, flag);
    if byte < WITHOUT_TESTS {
        let compound = compound_at(row, at, row.compiled.len(), byte == MAY_END);
        return Swept {
            ends: compound.ends,
            behind: Behind::Others(compound.place),
        };
    }
    let tests = marked_tests(row.above, flag);
    Swept {
        ends: tests_pass(row, at, tests),
        behind: Behind::Leftmost(tests),
    }
}

// Of at most `limit` compounds whose flags stand behind `at` in the parent's part, and whose components from `first` on, stores from `at` on of the own part
// whether they end here, and the mark of the leftmost.
pub fn sweep_rest(row: &Row<'_>, own: &mut [u8], at: usize, first: usize, limit: usize)
    requires { at + limit < flags_limit }
    ensures { own.new ≡ sets own.old at (sweep_at row.now.compiled.now (row_alone row.now.element) row.now.above.now limit (at + 1) first) }
{
    let mut next = first;
    for to in at..at + limit {
        let swept = sweep_one(row, to + FLAG_SIZE, next);
        put_byte(own, to, u8::from(swept.ends));
        match swept.behind {
            Behind::Leftmost(tests) => {
                put_mark(own, to + FLAG_SIZE, tests);
                return;
            }
            Behind::Others(place) => next = place,
        }
    }
}
