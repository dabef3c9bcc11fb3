// Style rows, written, and the styles that are kept for a rule.
ghost use Rattle.std.specs.Prelude.{◌≡◌, ◌+◌, ◌≤◌, length};
ghost use Rattle.std.proofs.lemmas.List.Edits.{sets};
ghost use Rattle.syntax.specs.Layout.{style_width, row_of_numbers};
ghost use Rattle.rule_styles.specs.Placing.{StyleRowRoom};

use syntax::rows::STYLE_WIDTH;
use syntax::styles::StyleNumbers;

// Numbers before the style rows that are kept for a rule: how many those are.
pub const KEPT_HEAD: usize = 1;

pub const KEPT_COUNT: usize = 0;

// Writes the row of a style from `at` on. A place in the rows and no part of them, here and in deciding.rt: what is written is told as an edit of the whole (`sets`).
pub fn write_style(rows: &mut [u32], at: usize, style: StyleNumbers)
    requires { StyleRowRoom rows.old at }
    ensures { rows.new ≡ sets rows.old at (row_of_numbers style) }
{
    rows[at..at + STYLE_WIDTH].copy_from_slice(&style.row());
}
