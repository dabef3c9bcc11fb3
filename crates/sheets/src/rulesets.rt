// Rules: `parse_ruleset`. The row of a rule goes to the stores' rules from `place` on, its texts to their texts from `fill` on. All stores are zero where
// something may be written, and stay so where nothing is read. `at`, `place` and `fill` stand beside the text and the stores: they go on from one part of a rule
// to the next.
ghost use Rattle.std.specs.Prelude.{◌≡◌, ◌+◌, ◌≤◌, Ok, length};
ghost use Rattle.std.proofs.lemmas.List.Edits.{sets};
ghost use Rattle.combinators.specs.Lent.{SameStores, SameWork, OfStores};
ghost use Rattle.syntax.specs.Layout.{declaration_rows, declaration_texts};
ghost use Rattle.syntax.specs.RuleLayout.{rule_row, rule_text};
ghost use Rattle.selectors.specs.Outcome.{behind};
ghost use Rattle.sheets.specs.Sheet.{past_semicolon, before_end, ruleset_of, moved_by};
ghost use Rattle.sheets.specs.Rules.{block_at, BlockRoom, RuleRoom};
ghost use Rattle.selectors.specs.Reading.{reading, written};

use combinators::bytes::byte_is;
use combinators::lent::Stores;
use declarations::rules::parse_rules;
use lexer::whitespace::{skip_from, skip_optional_whitespace};
use selectors::readings::{Panic, Read, moved, take_back};
use selectors::selector_lists::parse_selectors;
use syntax::rows::{DECLARATION_WIDTH, RULE_HEAD};
use syntax::writers::put_rule_head;

// The place behind a ';' at `e`, or `e` where there is none.
fn past_semicolon(s: &[u8], e: usize) -> usize
    requires { e ≤ length s.now }
    ensures value { result ≡ past_semicolon s.now e }
    ensures upper_bound { result ≤ length s.now }
{
    if byte_is(s, e, b';') { e + 1 } else { e }
}

// Where '}' should stand behind declarations that end at `n`; all places here count from the start of `s`.
fn before_end(s: &[u8], n: usize) -> usize
    requires { n ≤ length s.now }
    ensures value { result ≡ before_end s.now n }
    ensures upper_bound { result ≤ length s.now }
    ensures lower_bound { n ≤ result }
{
    skip_from(s, past_semicolon(s, skip_from(s, n)))
}

// Reads '{', declarations and '}' behind the selectors of a rule, which end at `n`; `s` starts at the byte `at` of the text. What it takes is counted
// from the start of `s`. The crate never panics in a block.
fn parse_block(
    s: &[u8],
    n: usize,
    at: usize,
    stores: &mut Stores<'_>,
    place: usize,
    fill: usize,
) -> Option<Read>
    requires { OfStores (BlockRoom s.now n at) stores.old place fill }
    ensures same { SameStores stores.old stores.new }
    ensures work_unchanged { SameWork stores.old stores.new }
    ensures value { Ok result ≡ reading length (declaration_rows fill) declaration_texts (block_at at s.now n) }
    ensures rules_after { stores.new.rules.now ≡ sets stores.old.rules.now place (written (declaration_rows fill) (block_at at s.now n)) }
    ensures texts_after { stores.new.texts.now ≡ sets stores.old.texts.now fill (written declaration_texts (block_at at s.now n)) }
{
    let o = skip_from(s, n);
    if !byte_is(s, o, b'{') {
        return None;
    }
    let d = skip_from(s, o + 1);
    let read = parse_rules(&s[d..], true, at + d, stores, place, fill);
    let numbers = DECLARATION_WIDTH * read.count;
    let f = before_end(s, d + read.taken);
    if byte_is(s, f, b'}') {
        return Some(Read {
            taken: skip_from(s, f + 1),
            count: read.count,
            numbers,
            text: read.text,
        });
    }
    take_back(stores, place, numbers, fill, read.text);
    None
}

// Reads a rule; `s` starts at the byte `at` of the text.
pub fn parse_ruleset(
    s: &[u8],
    at: usize,
    stores: &mut Stores<'_>,
    place: usize,
    fill: usize,
) -> Result<Option<Read>, Panic>
    requires { OfStores (RuleRoom s.now at) stores.old place fill }
    ensures same { SameStores stores.old stores.new }
    ensures work_unchanged { SameWork stores.old stores.new }
    ensures value { result ≡ reading (λ x. 1) (rule_row fill) rule_text (behind 0 (ruleset_of s.now) (moved_by at)) }
    ensures rules_after { stores.new.rules.now ≡ sets stores.old.rules.now place (written (rule_row fill) (behind 0 (ruleset_of s.now) (moved_by at))) }
    ensures texts_after { stores.new.texts.now ≡ sets stores.old.texts.now fill (written rule_text (behind 0 (ruleset_of s.now) (moved_by at))) }
{
    let w = skip_optional_whitespace(s);
    let list = moved(parse_selectors(&s[w..], stores, place + RULE_HEAD, fill), w)?;
    let Some(block) = parse_block(
        s,
        w + list.taken,
        at,
        stores,
        place + RULE_HEAD + list.numbers,
        fill + list.text,
    ) else {
        take_back(stores, place + RULE_HEAD, list.numbers, fill, list.text);
        return Ok(None);
    };
    put_rule_head(at + w, list.count, block.count, stores.rules, place);
    Ok(Some(Read {
        taken: block.taken,
        count: 1,
        numbers: RULE_HEAD + list.numbers + block.numbers,
        text: list.text + block.text,
    }))
}
