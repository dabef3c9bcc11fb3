// One number for each selector of the sheets of a call, which decides its last descendant combinator on all rows of the path. They are found once, so that no row of the path asks for the
// rows above it again.
ghost use Rattle.std.specs.Prelude.{◌≡◌, ◌+◌, ◌^◌, ◌<◌, length, get_or, drop};
ghost use Rattle.std.proofs.lemmas.List.Edits.{sets};
ghost use Rattle.syntax.specs.RuleLayout.{read_selector, read_rule};
ghost use Rattle.syntax.specs.Stream.{read_many};
ghost use Rattle.page.specs.Rows.{number_bound};
ghost use Rattle.matching.specs.Lent.{components_in};
ghost use Rattle.matching.specs.Topmost.{selector_number};
ghost use Rattle.rule_styles.specs.Placing.{rules_selectors};
ghost use Rattle.path_styles.specs.Tops.{selectors_tops_of, sheet_selectors, sheets_selectors, TextsIn, TopsRoom, SheetsTopsRoom, ready_places, ready_sheets};

use combinators::stores::number_at;
use matching::components::Selector;
use matching::elements::Element;
use matching::topmost::selector_number;
use origins::reading::{SheetRules, Sheets};
use origins::walk::{skip_rule, skip_selector};
use rule_styles::styled::{KeptSheets, StyledSheet, StyledSheets};
use syntax::rows::{RULE_HEAD, RULE_SELECTORS, SELECTOR_COMPONENTS, SELECTOR_HEAD};
use syntax::walk::forward;

// A selector's number is one of the store of tokens.
pub const TOP_WIDTH: usize = 1;

// A sheet whose styles are made, and where the numbers of its selectors start in the store of tokens.
#[derive(Clone, Copy)]
pub struct ReadySheet {
    pub styled: StyledSheet,
    pub tops: usize,
}

pub type ReadySheets = KeptSheets<ReadySheet>;

// The number at `at`, or 0 past the end.
pub fn top_at(tops: &[u32], at: usize) -> usize
    ensures { result ≡ get_or (drop at tops.now) 0 0 }
{
    number_at(tops, at, 0) as usize
}

// The selector at `at` in rows of rules, whose texts lie in `texts`: its head says how many components it has, which lie behind it.
pub fn selector_at<'a>(rows: &'a [u32], at: usize, texts: &'a [u8]) -> Selector<'a>
    ensures components_value { components_in result ≡ (read_selector texts.now (drop at rows.now)).value.components }
    ensures left_lt { result.left < 2 ^ 32 }
{
    let behind_head = forward(rows, at, SELECTOR_HEAD);
    Selector {
        components: &rows[behind_head..],
        store: texts,
        left: number_at(rows, at, SELECTOR_COMPONENTS) as usize,
    }
}

// Selectors in rows of rules, the texts that they name theirs in, and the element on whose path their numbers decide. A number is at most the row and is kept in 32
// bits, so the row is below `number_bound`; an `Element` does not carry that, since matching, which makes most of them, stores no number.
#[derive(Clone, Copy)]
struct PathSelectors<'a> {
    rows: &'a [u32],
    texts: &'a [u8],
    element: Element<'a>,
    ghost row_lt_number_bound: { element.row < number_bound },
}

impl PathSelectors<'_> {
    // The number of the selector at `at`.
    fn find_top(self, at: usize) -> u32
        ensures { result ≡ selector_number self.entry.element.page.nodes.now self.entry.element.page.attributes.now self.entry.element.page.text.now self.entry.element.row (read_selector self.entry.texts.now (drop at self.entry.rows.now)).value.components }
    {
        selector_number(selector_at(self.rows, at, self.texts), self.element) as u32
    }

    // Stores the numbers of selectors, the first of them at `at`, one at each place of `tops`.
    fn find_selectors_tops(self, at: usize, tops: &mut [u32])
        ensures { tops.new
            ≡ selectors_tops_of self.entry.element.page self.entry.element.row
            (read_many (read_selector self.entry.texts.now) (length tops.old) (drop at self.entry.rows.now)).value }
    {
        let mut from = at;
        for top in tops.iter_mut() {
            *top = self.find_top(from);
            from = skip_selector(self.rows, from);
        }
    }

    // Stores the numbers of the selectors of a sheet's rules, whose texts these are, from `place` on; the place behind them. Rules are of different widths, so that the
    // length of their rows does not say how many they are.
    fn find_rules_tops(self, sheet: SheetRules, tokens: &mut [u32], place: usize) -> usize
        requires { TopsRoom tokens.old place (length (rules_selectors (read_many (read_rule self.texts.now) sheet.count (drop sheet.place self.rows.now)).value)) }
        ensures tokens_after { tokens.new ≡ sets tokens.old place
            (selectors_tops_of self.entry.element.page self.entry.element.row
            (rules_selectors (read_many (read_rule self.entry.texts.now) sheet.count (drop sheet.place self.entry.rows.now)).value)) }
        ensures value { result ≡ place + length (rules_selectors (read_many (read_rule self.entry.texts.now) sheet.count (drop sheet.place self.entry.rows.now)).value) }
    {
        let mut from = sheet.place;
        let mut to = place;
        for _ in 0..sheet.count {
            let behind = to + TOP_WIDTH * number_at(self.rows, from, RULE_SELECTORS) as usize;
            let first = forward(self.rows, from, RULE_HEAD);
            self.find_selectors_tops(first, &mut tokens[to..behind]);
            from = skip_rule(self.rows, from);
            to = behind;
        }
        to
    }

    // The same of a sheet whose texts are a part of these, which ends at `end`. All fields are named, for a struct with a ghost field takes no `..self`.
    fn find_sheet_tops(
        self,
        sheet: SheetRules,
        end: usize,
        tokens: &mut [u32],
        place: usize,
    ) -> usize
        requires texts_in { TextsIn self.texts.now end sheet }
        requires tops_room { TopsRoom tokens.old place (length (sheet_selectors self.rows.now self.texts.now end sheet)) }
        ensures tokens_after { tokens.new ≡ sets tokens.old place
            (selectors_tops_of self.entry.element.page self.entry.element.row (sheet_selectors self.entry.rows.now self.entry.texts.now end sheet)) }
        ensures value { result ≡ place + length (sheet_selectors self.entry.rows.now self.entry.texts.now end sheet) }
    {
        let own = PathSelectors {
            rows: self.rows,
            texts: &self.texts[sheet.from..end],
            element: self.element,
        };
        own.find_rules_tops(sheet, tokens, place)
    }
}

// Three sheets with the places where the numbers of the user's and the author's selectors start, and where all ends; the agent's lie behind the styles.
fn ready_sheets(kept: StyledSheets, user: usize, author: usize, behind: usize) -> ReadySheets
    ensures { result ≡ ready_places kept user author behind }
{
    let sheets = Sheets {
        agent: ReadySheet {
            styled: kept.sheets.agent,
            tops: kept.behind,
        },
        user: ReadySheet {
            styled: kept.sheets.user,
            tops: user,
        },
        author: ReadySheet {
            styled: kept.sheets.author,
            tops: author,
        },
        end: kept.sheets.end,
    };
    KeptSheets {
        sheets,
        rows: kept.rows,
        behind,
        fill: kept.fill,
    }
}

// Stores the numbers of the selectors of three sheets behind their styles; where all of it lies. Each sheet's numbers start where those of the one before end, so the three are written
// out. Rules, texts and element come one by one, since the struct of them is of this file.
pub fn find_tops(
    kept: StyledSheets,
    rules: &[u32],
    texts: &[u8],
    element: Element<'_>,
    tokens: &mut [u32],
) -> ReadySheets
    requires row_lt_number_bound { element.row < number_bound }
    requires sheets_tops_room { SheetsTopsRoom rules.now tokens.old texts.now kept }
    ensures value { result ≡ ready_sheets rules.now texts.now kept }
    ensures tokens_after { tokens.new ≡ sets tokens.old kept.behind
        (selectors_tops_of element.entry.page element.entry.row (sheets_selectors rules.now texts.now kept)) }
{
    let selectors = PathSelectors {
        rows: rules,
        texts,
        element,
    };
    let sheets = kept.sheets;
    let end = sheets.end;
    let user = selectors.find_sheet_tops(sheets.agent.rules, end, tokens, kept.behind);
    let author = selectors.find_sheet_tops(sheets.user.rules, end, tokens, user);
    let behind = selectors.find_sheet_tops(sheets.author.rules, end, tokens, author);
    ready_sheets(kept, user, author, behind)
}
