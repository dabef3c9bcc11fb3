// The rules of a sheet, from their rows: a line for the selectors and one for each declaration.
use crate::declaration::Declaration;
use crate::place::Place;
use crate::rows::cut;
use crate::selector::Selector;
use combinators::stores::number_at;
use syntax::rows::{DECLARATION_WIDTH, RULE_DECLARATIONS, RULE_HEAD, RULE_SELECTORS};

/// A sheet that was read, and the store with the texts of its rows.
#[derive(Clone, Copy)]
pub struct Source<'a> {
    pub sheet: &'a [u8],
    pub texts: &'a [u8],
}

/// Prints the first `count` rules of the rows. Rules are not of one width, so that the count is no length of the rows.
pub fn print_rules(out: &impl Print, source: Source<'_>, rows: &[u32], count: usize) {
    let mut rest = rows;
    for _ in 0..count {
        rest = print_rule(out, source, rest);
    }
}

// Prints the first rule of the rows; the rows behind it.
fn print_rule<'a>(out: &impl Print, source: Source<'a>, rows: &'a [u32]) -> &'a [u32] {
    let selectors = number_at(rows, 0, RULE_SELECTORS);
    let declarations = number_at(rows, 0, RULE_DECLARATIONS) as usize;
    let (_, behind_head) = cut(rows, RULE_HEAD);
    let mut rest = behind_head;
    if selectors == 0 {
        let _ = print!(out; "(no selector)");
    }
    for i in 0..selectors {
        let (selector, behind) = Selector::cut(rest, source.texts);
        let comma = if i > 0 { ", " } else { "" };
        let _ = print!(out; "{comma}{selector}");
        rest = behind;
    }
    let (rows, behind) = cut(rest, declarations * DECLARATION_WIDTH);
    print_block(out, source, rows.as_chunks::<DECLARATION_WIDTH>().0);
    behind
}

// Prints the declarations in braces, each behind its line and column.
fn print_block(out: &impl Print, source: Source<'_>, rows: &[[u32; DECLARATION_WIDTH]]) {
    if rows.is_empty() {
        let _ = println!(out; " {{ }}");
        return;
    }
    let _ = println!(out; " {{");
    for row in rows {
        let declaration = Declaration {
            row: *row,
            texts: source.texts,
        };
        let place = Place {
            sheet: source.sheet,
            byte: declaration.start(),
        };
        let _ = println!(out; "  {place} {declaration};");
    }
    let _ = println!(out; "}}");
}
