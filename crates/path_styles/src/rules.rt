// What the rules of a sheet say of an element, merged into its row. The styles of each rule are those that the call keeps for it, and so are the numbers of its selectors.
ghost use Rattle.std.specs.Prelude.{◌≡◌, map, drop};
ghost use Rattle.syntax.specs.RuleLayout.{read_selector, read_rule};
ghost use Rattle.syntax.specs.Stream.{read_many};
ghost use Rattle.cascade.specs.Record.{from_rule};
ghost use Rattle.matching.specs.Topmost.{RightNumber};
ghost use Rattle.page.specs.Lent.{path_in};
ghost use Rattle.styles.specs.Merged.{merged_row};
ghost use Rattle.styles.specs.Said.{rule_style, selector_says, selectors_say, rules_say};
ghost use Rattle.rule_styles.specs.Placing.{read_styled, read_kept, rules_selectors, rules_kept};
ghost use Rattle.path_styles.specs.Tops.{RightTopsOf};

use crate::tops::{ReadySheet, TOP_WIDTH, selector_at, top_at};
use cascade::rows::{StyleRow, merge_computed_style};
use cascade::slots::Cascade;
use cascade::specificity::Specificity;
use combinators::stores::number_at;
use matching::components::specificity;
use matching::elements::Element;
use matching::topmost::matches_by_number;
use origins::walk::{selector_pseudo, skip_rule, skip_selector};
use rule_styles::rows::{KEPT_COUNT, KEPT_HEAD};
use syntax::rows::{DECLARATION_WIDTH, RULE_DECLARATIONS, RULE_HEAD, RULE_SELECTORS, STYLE_WIDTH};
use syntax::styles::style_at;
use syntax::walk::forward;

// The place behind the styles that are kept for a rule at `at`. As in `skip_selector` a head counts what follows; the rows of each kind have a column, a width
// and a definition of their own.
fn skip_kept(styles: &[u32], at: usize) -> usize
    ensures { drop result styles.now ≡ (read_kept (drop at styles.now)).rest }
{
    let count = number_at(styles, at, KEPT_COUNT) as usize;
    forward(styles, at, KEPT_HEAD + STYLE_WIDTH * count)
}

// Where a rule stands, and where its styles and the numbers of its selectors do in what the call keeps. The three step together.
#[derive(Clone, Copy)]
struct Places {
    row: usize,
    styles: usize,
    tops: usize,
}

// A sheet while it is merged: its origin, its rows, the texts of its rules, the styles that are kept for them; the cascade, and the element that the rules are asked of.
// Where a rule, its styles and its selectors' numbers start moves on and is no part of it. `RightTopsOf`, that the numbers from a place on decide, is about such places too:
// a ghost field of them would be shown anew for each step.
#[derive(Clone, Copy)]
pub struct SheetMerge<'a> {
    pub cascade: Cascade,
    pub origin: u32,
    pub rows: &'a [u32],
    pub texts: &'a [u8],
    pub styles: &'a [u32],
    pub element: Element<'a>,
}

impl SheetMerge<'_> {
    // Merges `count` styles, whose rows start at `at`, as those of a selector of a specificity.
    // Here and below nothing is asked of the kept rows, and the definition reads what is not there as 0: so `count` stays beside them, and no part of them is cut by it.
    fn merge_styles(
        &self,
        out: &mut StyleRow,
        pseudo: usize,
        spec: Specificity,
        at: usize,
        count: u32,
    )
        ensures { out.new
            ≡ merged_row self.now.cascade out.old
            (map (from_rule self.now.origin) (map (rule_style pseudo spec) (read_many read_styled count (drop at self.now.styles.now)).value)) }
    {
        let mut place = at;
        for _ in 0..count {
            let style = style_at(self.styles, place);
            merge_computed_style(out, self.cascade, pseudo, self.origin, spec, style);
            place = forward(self.styles, place, STYLE_WIDTH);
        }
    }

    // Merges what the selector at `at`, whose number is `top`, says of the element, with `count` styles, whose rows start at `first`.
    fn merge_selector(&self, out: &mut StyleRow, at: usize, top: usize, first: usize, count: u32)
        requires right_number { RightNumber self.now.element.page.nodes.now self.now.element.page.attributes.now self.now.element.page.text.now (read_selector self.now.texts.now (drop at self.now.rows.now)).value.components self.now.element.row top }
        ensures { out.new
            ≡ merged_row self.now.cascade out.old
            (map (from_rule self.now.origin)
            (selector_says (path_in self.now.element.page self.now.element.row)
            (read_many read_styled count (drop first self.now.styles.now)).value
            (read_selector self.now.texts.now (drop at self.now.rows.now)).value)) }
    {
        let selector = selector_at(self.rows, at, self.texts);
        if matches_by_number(selector, top, self.element) {
            let pseudo = selector_pseudo(self.rows, at) as usize;
            let spec = specificity(selector.components, selector.left as u32);
            self.merge_styles(out, pseudo, spec, first, count);
        }
    }

    // Merges what `selectors` selectors of a rule say of the element, each with `count` styles; the place behind them. `places` are those of the first selector, the first
    // of the styles, and the number of the first selector. A selector and its number are stepped over together, by `forward`, which stops at the end as the definition's `drop` does.
    fn merge_selectors(
        &self,
        out: &mut StyleRow,
        places: Places,
        selectors: u32,
        count: u32,
    ) -> usize
        requires right_tops { RightTopsOf self.now.element.page self.now.element.row (read_many (read_selector self.now.texts.now) selectors (drop places.row self.now.rows.now)).value (drop places.tops self.now.styles.now) }
        ensures out_after { out.new
            ≡ merged_row self.now.cascade out.old
            (map (from_rule self.now.origin)
            (selectors_say (path_in self.now.element.page self.now.element.row)
            (read_many read_styled count (drop places.styles self.now.styles.now)).value
            (read_many (read_selector self.now.texts.now) selectors (drop places.row self.now.rows.now)).value)) }
        ensures rows_value { drop result self.now.rows.now ≡ (read_many (read_selector self.now.texts.now) selectors (drop places.row self.now.rows.now)).rest }
    {
        let mut place = places.row;
        let mut top_place = places.tops;
        for _ in 0..selectors {
            let top = top_at(self.styles, top_place);
            self.merge_selector(out, place, top, places.styles, count);
            place = skip_selector(self.rows, place);
            top_place = forward(self.styles, top_place, TOP_WIDTH);
        }
        place
    }

    // Merges what a rule says of the element, with the styles that are kept for it and the numbers of its selectors; the place behind it. Where no style is kept its
    // selectors are only passed over.
    fn merge_rule(&self, out: &mut StyleRow, places: Places) -> usize
        requires right_tops { RightTopsOf self.now.element.page self.now.element.row (read_rule self.now.texts.now (drop places.row self.now.rows.now)).value.selectors (drop places.tops self.now.styles.now) }
        ensures out_after { out.new
            ≡ merged_row self.now.cascade out.old
            (map (from_rule self.now.origin)
            (selectors_say (path_in self.now.element.page self.now.element.row)
            (read_kept (drop places.styles self.now.styles.now)).value
            (read_rule self.now.texts.now (drop places.row self.now.rows.now)).value.selectors)) }
        ensures rows_value { drop result self.now.rows.now ≡ (read_rule self.now.texts.now (drop places.row self.now.rows.now)).rest }
    {
        let count = number_at(self.styles, places.styles, KEPT_COUNT);
        if count == 0 {
            return skip_rule(self.rows, places.row);
        }
        let selectors = number_at(self.rows, places.row, RULE_SELECTORS);
        let first = Places {
            row: forward(self.rows, places.row, RULE_HEAD),
            styles: forward(self.styles, places.styles, KEPT_HEAD),
            ..places
        };
        let behind = self.merge_selectors(out, first, selectors, count);
        let declarations = number_at(self.rows, places.row, RULE_DECLARATIONS) as usize;
        forward(self.rows, behind, DECLARATION_WIDTH * declarations)
    }

    // Merges what the rules of a sheet say of the element, with the styles that are kept for them and the numbers of their selectors.
    // Rules are of different widths, so that the length of their rows does not say how many they are.
    pub fn merge_rules(&self, out: &mut StyleRow, sheet: ReadySheet)
        requires right_tops { RightTopsOf self.now.element.page self.now.element.row (rules_selectors (read_many (read_rule self.now.texts.now) sheet.styled.rules.count (drop sheet.styled.rules.place self.now.rows.now)).value) (drop sheet.tops self.now.styles.now) }
        ensures { out.new
            ≡ merged_row self.now.cascade out.old
            (map (from_rule self.now.origin)
            (rules_say (path_in self.now.element.page self.now.element.row)
            (rules_kept self.now.texts.now sheet.styled.rules.count (drop sheet.styled.rules.place self.now.rows.now) (drop sheet.styled.styles self.now.styles.now)))) }
    {
        let rules = sheet.styled.rules;
        let mut next = Places {
            row: rules.place,
            styles: sheet.styled.styles,
            tops: sheet.tops,
        };
        for _ in 0..rules.count {
            let selectors = number_at(self.rows, next.row, RULE_SELECTORS) as usize;
            next = Places {
                row: self.merge_rule(out, next),
                styles: skip_kept(self.styles, next.styles),
                tops: forward(self.styles, next.tops, TOP_WIDTH * selectors),
            };
        }
    }
}
