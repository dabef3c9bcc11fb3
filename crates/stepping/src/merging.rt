// The styles of a selector in compiled bytes, merged into a style row.
ghost use Rattle.std.specs.Prelude.{◌≡◌, [], ◌∷◌};
ghost use Rattle.cascade.specs.declared.slots.Cascade.TheVariants.{Crate};
ghost use Rattle.cascade.specs.Row.{RowRoom};
ghost use Rattle.styles.specs.Merged.{merged_row};
ghost use Rattle.compiled.specs.Decoded.{counted};
ghost use Rattle.compiled.specs.Sheet.{styles_at};
ghost use Rattle.runner.specs.PageRows.{selectors_declare};
ghost use Rattle.runner.specs.Run.{found_at};
ghost use Rattle.runner.specs.Walked.{walked_style_at};
ghost use Rattle.stepping.specs.Reading.{listed};
ghost use Rattle.stepping.specs.Merging.{styles_declare, CountedLent};

use crate::specificity::read_weights;
use cascade::rows::merge_computed_style;
use cascade::slots::Cascade;
use cascade::specificity::Specificity;
use compiled::bytes::SheetBytes;
use compiled::numbers::read_number;
use compiled::sheets::{Head, read_head};
use syntax::rows::AGENT_ORIGIN;

// Merges `count` styles from `at` on, as those of a selector: all of them read, or there is one at most, which may not. What is told of the selector comes from
// `merge_found`, and only two layers hand it through. Styles differ in size, so `count` is no length of the bytes.
fn merge_counted(
    sheet: SheetBytes<'_>,
    at: usize,
    count: u32,
    origin: u32,
    pseudo: u32,
    spec: Specificity,
    out: &mut [u32],
)
    requires row_room { RowRoom out.old }
    requires counted_lent { CountedLent sheet.bytes.now at count }
    ensures { out.new ≡ merged_row Crate out.old (styles_declare origin pseudo spec (listed (counted (walked_style_at sheet.entry.bytes.now) count at))) }
{
    let mut next = at;
    for _ in 0..count {
        let Ok(style) = sheet.read_style(next) else {
            return;
        };
        merge_computed_style(
            out,
            Cascade::Crate,
            pseudo as usize,
            origin,
            spec,
            style.value,
        );
        next = style.next;
    }
}

// Merges the styles at `at`, which start with their count; where they do not read to their end, nothing is declared, and so several are read before the first is
// merged.
fn merge_styles(
    sheet: SheetBytes<'_>,
    at: usize,
    origin: u32,
    pseudo: u32,
    spec: Specificity,
    out: &mut [u32],
)
    requires { RowRoom out.old }
    ensures { out.new ≡ merged_row Crate out.old (styles_declare origin pseudo spec (listed (styles_at (walked_style_at sheet.entry.bytes.now) sheet.entry.bytes.now at))) }
{
    let Ok(count) = read_number(sheet.bytes, at) else {
        return;
    };
    if count.value == 1 || sheet.skip_styles(at).is_ok() {
        merge_counted(sheet, count.next, count.value, origin, pseudo, spec, out);
    }
}

// Merges the styles of the selector at `place`; where none reads to its end, nothing is declared.
pub fn merge_found(sheet: SheetBytes<'_>, place: usize, out: &mut [u32])
    requires { RowRoom out.old }
    ensures { out.new ≡ merged_row Crate out.old (selectors_declare (found_at sheet.entry.bytes.now (place ∷ []))) }
{
    let Ok(head) = read_head(sheet.bytes, place, AGENT_ORIGIN) else {
        return;
    };
    let Head {
        origin,
        pseudo,
        count,
    } = head.value;
    if let Ok(weights) = read_weights(sheet.bytes, head.next, count) {
        merge_styles(sheet, weights.next, origin, pseudo, weights.value, out);
    }
}
