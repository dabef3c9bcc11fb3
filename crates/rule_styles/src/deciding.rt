// The styles of a rule that decide: at most two for each slot, read from style rows and written to others.
ghost use Rattle.std.specs.Prelude.{◌≡◌, ◌≤◌, length};
ghost use mathlib.Core.List.{◌++◌, foldl};
ghost use Rattle.std.proofs.lemmas.List.Edits.{sets};
ghost use Rattle.syntax.specs.Stream.{texts_many};
ghost use Rattle.styles.specs.StyleCall.{in_numbers};
ghost use Rattle.rule_styles.specs.Deciding.{nothing_sifted, sift, listed, sifted_styles, deciding};
ghost use Rattle.rule_styles.specs.Placing.{StyleRowRoom, styled_row, styled_in};
ghost use Rattle.rule_styles.specs.Sifting.{found_in, sifted_in, TwoStylesRoom, DecidingRoom};

use crate::rows::write_style;
use cascade::rows::SLOT_COUNT;
use syntax::rows::STYLE_WIDTH;
use syntax::styles::{StyleNumbers, style_at};

// What is known of the styles for one slot so far: the last normal one, the last important one, and whether an important one stands behind a normal one: that is their
// order, and says of neither whether it is there.
#[derive(Clone, Copy)]
struct Sifted {
    normal: Option<StyleNumbers>,
    important: Option<StyleNumbers>,
    behind: bool,
}

impl Sifted {
    // Nothing is known yet. A constant and no `Default`: a proof computes it, where a call is known by its clause.
    const NOTHING: Sifted = Sifted {
        normal: None,
        important: None,
        behind: false,
    };

    // One style more; those for other slots do not count.
    fn sift(self, slot: u32, style: StyleNumbers) -> Self
        ensures { sifted_in result ≡ sift slot (sifted_in self) (in_numbers style) }
    {
        if style.slot != slot {
            self
        } else if style.important {
            Self {
                important: Some(style),
                behind: self.behind || self.normal.is_some(),
                ..self
            }
        } else {
            Self {
                normal: Some(style),
                ..self
            }
        }
    }
}

// What is known of the styles for a slot among those in style rows.
fn sift_styles(styles: &[[u32; STYLE_WIDTH]], slot: u32) -> Sifted
    ensures { sifted_in result ≡ foldl (sift slot) nothing_sifted (styled_in styles.now) }
{
    let mut sifted = Sifted::NOTHING;
    for style in styles {
        sifted = sifted.sift(slot, style_at(style, 0));
    }
    sifted
}

// Writes the row of a style, if there is one; how many were written.
fn write_found(rows: &mut [u32], at: usize, style: Option<StyleNumbers>) -> usize
    requires { StyleRowRoom rows.old at }
    ensures rows_after { rows.new ≡ sets rows.old at (texts_many styled_row (listed (found_in style))) }
    ensures value { result ≡ length (listed (found_in style)) }
    ensures upper_bound { result ≤ 1 }
{
    match style {
        Some(style) => {
            write_style(rows, at, style);
            1
        }
        None => 0,
    }
}

// Writes the rows of one style and of another behind it, where there are such; how many were written.
fn write_both(
    rows: &mut [u32],
    at: usize,
    first: Option<StyleNumbers>,
    next: Option<StyleNumbers>,
) -> usize
    requires { TwoStylesRoom rows.old at }
    ensures rows_after { rows.new ≡ sets rows.old at (texts_many styled_row (listed (found_in first) ++ listed (found_in next))) }
    ensures value { result ≡ length (listed (found_in first) ++ listed (found_in next)) }
    ensures upper_bound { result ≤ 2 }
{
    let n = write_found(rows, at, first);
    n + write_found(rows, at + n * STYLE_WIDTH, next)
}

// Writes the rows of the styles that decide in one slot; how many were written.
fn write_sifted(rows: &mut [u32], at: usize, sifted: Sifted) -> usize
    requires { TwoStylesRoom rows.old at }
    ensures rows_after { rows.new ≡ sets rows.old at (texts_many styled_row (sifted_styles (sifted_in sifted))) }
    ensures value { result ≡ length (sifted_styles (sifted_in sifted)) }
    ensures upper_bound { result ≤ 2 }
{
    if sifted.behind {
        write_both(rows, at, sifted.normal, sifted.important)
    } else {
        write_both(rows, at, sifted.important, sifted.normal)
    }
}

// Of the styles in style rows, writes the rows of those that decide to `kept`, from `place` on; how many they are.
pub fn keep_deciding(styles: &[[u32; STYLE_WIDTH]], kept: &mut [u32], place: usize) -> usize
    requires { DecidingRoom kept.old place }
    ensures kept_after { kept.new ≡ sets kept.old place (texts_many styled_row (deciding (styled_in styles.now))) }
    ensures value { result ≡ length (deciding (styled_in styles.now)) }
{
    let mut deciding = 0;
    for slot in 0..SLOT_COUNT as u32 {
        let sifted = sift_styles(styles, slot);
        deciding += write_sifted(kept, place + deciding * STYLE_WIDTH, sifted);
    }
    deciding
}
