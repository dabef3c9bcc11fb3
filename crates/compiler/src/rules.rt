// Rules from their rows as the bytes of their selectors, and how many selectors that are. Rows are lent with any content: rules and selectors differ in
// width, and there may be fewer than a count says, so it is no length of a slice, and the rows are told with a place in them, as `forward` and `skip_rule`
// answer one, which may be the end. That the tokens are left as they were stands in each contract that is lent them: what a call leaves behind a `&mut` has
// no type to go to.
ghost use Rattle.std.specs.Prelude.{◌≡◌, List, ℕ, length, drop};
ghost use Rattle.syntax.specs.RuleLayout.{read_selector, read_rule};
ghost use Rattle.syntax.specs.Stream.{read_many, texts_many};
ghost use Rattle.compiled.specs.Sheet.{selector_bytes};
ghost use Rattle.compiled.specs.Wrote.{Wrote};
ghost use Rattle.compiler.specs.Selectors.{styled_selectors, rule_selectors, sheet_selectors};
ghost use Rattle.compiler.specs.Given.{given_styles};
ghost use Rattle.compiler.specs.Writing.{styled_bytes, rule_bytes, SelectorsFew, RuleLent, RulesLent};

use crate::lent::{Given, Rows};
use crate::past::is_past;
use crate::selector::emit_selector;
use crate::styles::count_styles;
use combinators::stores::{fill_part, number_at};
use combinators::writer::Writer;
use origins::styles::styles_of_rule;
use origins::walk::{rule_declarations, skip_rule, skip_selector};
use syntax::rows::{RULE_DECLARATIONS, RULE_HEAD, RULE_SELECTORS, STYLE_WIDTH};
use syntax::walk::forward;

// Writes `selectors` selectors from `at` on, each with what the rule gives it.
fn emit_selectors(
    rows: Rows<'_>,
    at: usize,
    selectors: u32,
    given: Given<'_>,
    writer: &mut Writer<'_>,
)
    ensures { Wrote writer.old writer.new (texts_many (styled_bytes given.entry.origin (given_styles given.entry))
        (read_many (read_selector rows.entry.texts.now) selectors (drop at rows.entry.numbers.now)).value) }
{
    let mut place = at;
    for _ in 0..selectors {
        if is_past(writer.store.len(), writer.fill) {
            return;
        }
        emit_selector(rows, place, given, writer);
        place = skip_selector(rows.numbers, place);
    }
}

// Writes the selectors of the rule at `at`, if it gives them a style.
fn emit_styled(rows: Rows<'_>, at: usize, given: Given<'_>, writer: &mut Writer<'_>)
    ensures { Wrote writer.old writer.new (texts_many selector_bytes (styled_selectors given.entry.origin (given_styles given.entry)
        (read_rule rows.entry.texts.now (drop at rows.entry.numbers.now)).value.selectors)) }
{
    if given.count == 0 {
        return;
    }
    let selectors = number_at(rows.numbers, at, RULE_SELECTORS);
    let first = forward(rows.numbers, at, RULE_HEAD);
    emit_selectors(rows, first, selectors, given, writer);
}

// Writes the selectors of the rule at `at`, if it has a style. Its styles lie in `tokens` meanwhile. (`fill_part`, no slice: that so many numbers are there is known
// in `styles_of_rule` alone.) Origin, tokens and writer are no struct: they come from `write_sheet` through `emit_rules` alone, and part here.
fn emit_rule(rows: Rows<'_>, at: usize, origin: u32, tokens: &mut [u32], writer: &mut Writer<'_>)
    requires { RuleLent (drop at rows.numbers.now) tokens.old }
    ensures tokens_unchanged { tokens.new ≡ tokens.old }
    ensures wrote { Wrote writer.old writer.new (rule_bytes origin (read_rule rows.entry.texts.now (drop at rows.entry.numbers.now)).value) }
{
    let count = styles_of_rule(rows.numbers, at, tokens);
    let styles = Rows {
        numbers: tokens,
        texts: rows.texts,
    };
    let given = Given {
        origin,
        styles,
        count,
    };
    emit_styled(rows, at, given, writer);
    fill_part(tokens, 0, STYLE_WIDTH * count as usize, 0);
}

// Writes the selectors of those of `count` rules from `at` on that have a style.
pub fn emit_rules(
    rows: Rows<'_>,
    at: usize,
    count: usize,
    origin: u32,
    tokens: &mut [u32],
    writer: &mut Writer<'_>,
)
    requires { RulesLent count (drop at rows.numbers.now) tokens.old }
    ensures tokens_unchanged { tokens.new ≡ tokens.old }
    ensures wrote { Wrote writer.old writer.new (texts_many selector_bytes (sheet_selectors origin (read_many (read_rule rows.entry.texts.now) count (drop at rows.entry.numbers.now)).value)) }
{
    let mut place = at;
    for _ in 0..count {
        if is_past(writer.store.len(), writer.fill) {
            return;
        }
        emit_rule(rows, place, origin, tokens, writer);
        place = skip_rule(rows.numbers, place);
    }
}

// How many selectors are written of the rule at `at`: all that it has, or none where it has no style.
fn count_rule(rows: &[u32], at: usize) -> u32
    ensures { (origin : ℕ) (texts : List ℕ) → result ≡ length (rule_selectors origin (read_rule texts (drop at rows.now)).value) }
{
    let declarations = rule_declarations(rows, at);
    let styles = count_styles(rows, declarations, number_at(rows, at, RULE_DECLARATIONS));
    if styles == 0 {
        return 0;
    }
    number_at(rows, at, RULE_SELECTORS)
}

// How many selectors `emit_rules` writes.
pub fn count_selectors(rows: &[u32], at: usize, count: usize) -> usize
    requires { SelectorsFew (drop at rows.now) count }
    ensures { (origin : ℕ) (texts : List ℕ) → result ≡ length (sheet_selectors origin (read_many (read_rule texts) count (drop at rows.now)).value) }
{
    let mut total = 0;
    let mut place = at;
    for _ in 0..count {
        total += count_rule(rows, place) as usize;
        place = skip_rule(rows, place);
    }
    total
}
