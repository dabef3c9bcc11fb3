// The styles of rules, made once for a call: contents are copied behind the texts of the sheets, each style says where its own lies, and those that decide are
// kept in the store of tokens.
ghost use Rattle.std.specs.Prelude.{◌≡◌, ◌+◌, ◌*◌, length, drop};
ghost use Rattle.std.proofs.lemmas.List.Edits.{sets};
ghost use Rattle.combinators.specs.Store.{wiped};
ghost use Rattle.syntax.specs.Layout.{style_width, numbers_at, row_of_numbers};
ghost use Rattle.syntax.specs.RuleLayout.{read_rule};
ghost use Rattle.syntax.specs.Stream.{read_many, texts_many};
ghost use Rattle.rule_styles.specs.Deciding.{deciding};
ghost use Rattle.rule_styles.specs.Placing.{numbers_of, StyleRowRoom, content_of, placed_numbers, contents_of, placed_all, contents_at, styles_placed, rules_contents_at, styled_rules, kept, kept_rules, read_styled};
ghost use Rattle.rule_styles.specs.PlacingRoom.{ContentsRoom, StyleRowsRoom, KeptRoom, RuleKeptRoom, RulesKeptRoom};

use crate::deciding::keep_deciding;
use crate::rows::{KEPT_COUNT, KEPT_HEAD, write_style};
use cascade::rows::SLOT_COUNT;
use combinators::stores::emit_all;
use combinators::texts::part_of;
use origins::reading::SheetRules;
use origins::styles::styles_of_rule;
use origins::walk::skip_rule;
use syntax::rows::{CONTENT_SLOT, STYLE_WIDTH};
use syntax::styles::{StyleNumbers, Value, style_at};

// Two styles are kept for each slot at most.
const KEPT_WIDTH: usize = 2 * SLOT_COUNT * STYLE_WIDTH;

// How far what is kept of rules fills the store of tokens, and their contents the store of contents.
#[derive(Clone, Copy)]
pub struct Placed {
    pub place: usize,
    pub fill: usize,
}

impl Placed {
    // Nothing is kept yet. As `Sifted::NOTHING`, a constant and no `Default`.
    pub const BEGIN: Placed = Placed { place: 0, fill: 0 };
}

// Behind rules in their rows, and how far what is kept of them fills the stores.
#[derive(Clone, Copy)]
pub struct StyledEnd {
    pub rows: usize,
    pub placed: Placed,
}

// Places the style whose row starts at `at`: a content, a part of the text of its sheet, is copied to `fill` in `contents`, and the row says that it lies there; the
// fill behind it. Contents and fill come apart, here and below, and not as a `Writer`: `ContentsRoom` asks for room, so nothing is left out, and with a writer each contract would say of its
// store too that it stays. `ContentsRoom` is about the contents that are still to be written, which each function tells anew: no field of the store or of the fill says it.
fn place_style(
    tokens: &mut [u32],
    at: usize,
    text: &[u8],
    contents: &mut [u8],
    fill: usize,
) -> usize
    requires style_row_room { StyleRowRoom tokens.old at }
    requires contents_room { ContentsRoom contents.old fill (content_of text.now (numbers_at (drop at tokens.old))) }
    ensures tokens_after { tokens.new ≡ sets tokens.old at (row_of_numbers (placed_numbers text.now fill (numbers_at (drop at tokens.old)))) }
    ensures contents_after { contents.new ≡ sets contents.old fill (content_of text.now (numbers_at (drop at tokens.old))) }
    ensures value { result ≡ fill + length (content_of text.now (numbers_at (drop at tokens.old))) }
{
    let style = style_at(tokens, at);
    if style.slot == CONTENT_SLOT {
        let named = style.value;
        let content = part_of(text, named.number as usize, named.second as usize);
        let value = Value {
            number: fill as u32,
            second: content.len() as u32,
            ..named
        };
        write_style(tokens, at, StyleNumbers { value, ..style });
        emit_all(content, contents, fill)
    } else {
        write_style(tokens, at, style);
        fill
    }
}

// Places the `count` styles whose rows start at `at`, with their contents end to end from `fill` on; the fill behind them.
// `count` is what `styles_of_rule` answers, and the rows are one slice of numbers: of its chunks (`as_chunks_mut`) nothing is promised of what it ends as.
// `at` stays, since what is kept before it is told with the whole store.
fn place_styles(
    tokens: &mut [u32],
    at: usize,
    count: u32,
    text: &[u8],
    contents: &mut [u8],
    fill: usize,
) -> usize
    requires style_rows_room { StyleRowsRoom tokens.old at count }
    requires contents_room { ContentsRoom contents.old fill (contents_of text.now (numbers_of count (drop at tokens.old))) }
    ensures tokens_after { tokens.new ≡ sets tokens.old at (texts_many row_of_numbers (placed_all text.now fill (numbers_of count (drop at tokens.old)))) }
    ensures contents_after { contents.new ≡ sets contents.old fill (contents_of text.now (numbers_of count (drop at tokens.old))) }
    ensures value { result ≡ fill + length (contents_of text.now (numbers_of count (drop at tokens.old))) }
{
    let mut f = fill;
    for i in 0..count as usize {
        f = place_style(tokens, at + STYLE_WIDTH * i, text, contents, f);
    }
    f
}

// Keeps those of the `count` styles from `at` on that decide: their count at `place` and their rows behind it. The styles from `at` on are wiped. The place behind
// what is kept.
fn keep_rule(tokens: &mut [u32], place: usize, at: usize, count: u32) -> usize
    requires { KeptRoom tokens.old place at count }
    ensures tokens_after { tokens.new ≡ wiped at (style_width * count)
        (sets tokens.old place (kept (deciding (read_many read_styled count (drop at tokens.old)).value))) }
    ensures value { result ≡ place + length (kept (deciding (read_many read_styled count (drop at tokens.old)).value)) }
{
    let (kept, made) = tokens.split_at_mut(at);
    let numbers = STYLE_WIDTH * count as usize;
    let (styles, _) = made[..numbers].as_chunks();
    let deciding = keep_deciding(styles, kept, place + KEPT_HEAD);
    kept[place + KEPT_COUNT] = deciding as u32;
    made[..numbers].fill(0);
    place + KEPT_HEAD + STYLE_WIDTH * deciding
}

// Keeps the styles of the rule at `at` that decide from `placed` on, its contents, parts of the text of its sheet, likewise; how far the stores are filled then.
fn style_rule(
    rules: &[u32],
    at: usize,
    text: &[u8],
    tokens: &mut [u32],
    contents: &mut [u8],
    placed: Placed,
) -> Placed
    requires rule_kept_room { RuleKeptRoom (drop at rules.now) tokens.old placed.place }
    requires contents_room { ContentsRoom contents.old placed.fill (contents_at text.now (drop at rules.now)) }
    ensures tokens_after { tokens.new ≡ sets tokens.old placed.place (kept (deciding (styles_placed text.now placed.fill (drop at rules.now)))) }
    ensures contents_after { contents.new ≡ sets contents.old placed.fill (contents_at text.now (drop at rules.now)) }
    ensures value { result ≡ record {
      place = placed.place + length (kept (deciding (styles_placed text.now placed.fill (drop at rules.now))));
      fill = placed.fill + length (contents_at text.now (drop at rules.now));
    } }
{
    let made = placed.place + KEPT_HEAD + KEPT_WIDTH;
    let count = styles_of_rule(rules, at, &mut tokens[made..]);
    let behind = place_styles(tokens, made, count, text, contents, placed.fill);
    let next = keep_rule(tokens, placed.place, made, count);
    Placed {
        place: next,
        fill: behind,
    }
}

// Keeps the styles that decide of the rules of a sheet, rule by rule from `placed` on, and their contents, parts of the text of the sheet, likewise; where the rules
// end, and how far the stores are filled then. Rules and text are only read, as the types say, so they come beside what is written. Rules are of different widths, so that the length of
// their rows does not say how many they are.
pub fn style_rules(
    rules: &[u32],
    sheet: SheetRules,
    text: &[u8],
    tokens: &mut [u32],
    contents: &mut [u8],
    placed: Placed,
) -> StyledEnd
    requires rules_kept_room { RulesKeptRoom text.now sheet.count (drop sheet.place rules.now) tokens.old placed.place }
    requires contents_room { ContentsRoom contents.old placed.fill (rules_contents_at text.now sheet.count (drop sheet.place rules.now)) }
    ensures tokens_after { tokens.new ≡ sets tokens.old placed.place (kept_rules (styled_rules text.now placed.fill sheet.count (drop sheet.place rules.now))) }
    ensures contents_after { contents.new ≡ sets contents.old placed.fill (rules_contents_at text.now sheet.count (drop sheet.place rules.now)) }
    ensures rules_value { drop result.rows rules.now ≡ (read_many (read_rule text.now) sheet.count (drop sheet.place rules.now)).rest }
    ensures place_value { result.placed.place ≡ placed.place + length (kept_rules (styled_rules text.now placed.fill sheet.count (drop sheet.place rules.now))) }
    ensures fill_value { result.placed.fill ≡ placed.fill + length (rules_contents_at text.now sheet.count (drop sheet.place rules.now)) }
{
    let mut rows = sheet.place;
    let mut next = placed;
    for _ in 0..sheet.count {
        next = style_rule(rules, rows, text, tokens, contents, next);
        rows = skip_rule(rules, rows);
    }
    StyledEnd { rows, placed: next }
}
