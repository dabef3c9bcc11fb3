// Statements: `parse_statement`, a rule or an at-rule; and `parse_stylesheet`, statements as long as they read. `at`, `place` and `fill` stand beside the
// stores: they go on from statement to statement.
ghost use Rattle.std.specs.Prelude.{◌≡◌, length};
ghost use Rattle.std.proofs.lemmas.List.Edits.{sets};
ghost use Rattle.combinators.specs.Lent.{SameStores, SameWork, OfStores};
ghost use Rattle.syntax.specs.RuleLayout.{rule_rows, rule_texts};
ghost use Rattle.sheets.specs.Sheet.{statements_of, moved_to, sheet_of};
ghost use Rattle.sheets.specs.Rules.{RuleRoom, SheetRoom};
ghost use Rattle.selectors.specs.Reading.{reading, many_reading, written};

use crate::at_rules::parse_at_rule;
use crate::rulesets::parse_ruleset;
use combinators::lent::Stores;
use selectors::readings::{Panic, Read, take_back};

// Reads a rule, or else an at-rule; `s` starts at the byte `at` of the text. No or_else: its closure would take the stores along, of which nothing would be
// known behind it.
pub fn parse_statement(
    s: &[u8],
    at: usize,
    stores: &mut Stores<'_>,
    place: usize,
    fill: usize,
) -> Result<Option<Read>, Panic>
    requires { OfStores (RuleRoom s.now at) stores.old place fill }
    ensures same { SameStores stores.old stores.new }
    ensures work_unchanged { SameWork stores.old stores.new }
    ensures value { result ≡ reading length (rule_rows fill) rule_texts (moved_to at (statements_of s.now)) }
    ensures rules_after { stores.new.rules.now ≡ sets stores.old.rules.now place (written (rule_rows fill) (moved_to at (statements_of s.now))) }
    ensures texts_after { stores.new.texts.now ≡ sets stores.old.texts.now fill (written rule_texts (moved_to at (statements_of s.now))) }
{
    match parse_ruleset(s, at, stores, place, fill)? {
        Some(rule) => Ok(Some(rule)),
        None => Ok(parse_at_rule(s, stores, fill)),
    }
}

// Reads a sheet into stores that are zero: statements as long as they read. At the end of the text there is none.
pub fn parse_stylesheet(s: &[u8], stores: &mut Stores<'_>) -> Result<Read, Panic>
    requires { SheetRoom s.now stores.old.rules.now stores.old.tokens.now stores.old.brackets.now stores.old.texts.now }
    ensures same { SameStores stores.old stores.new }
    ensures work_unchanged { SameWork stores.old stores.new }
    ensures value { result ≡ many_reading length (rule_rows 0) rule_texts (sheet_of s.now) }
    ensures rules_after { stores.new.rules.now ≡ sets stores.old.rules.now 0 (written (rule_rows 0) (sheet_of s.now)) }
    ensures texts_after { stores.new.texts.now ≡ sets stores.old.texts.now 0 (written rule_texts (sheet_of s.now)) }
{
    let mut read = Read::NOTHING;
    // each turn goes on behind the statement that was read; no `?`, since what was written before is taken back
    while read.taken < s.len() {
        let rest = &s[read.taken..];
        match parse_statement(rest, read.taken, stores, read.numbers, read.text) {
            Ok(Some(statement)) => {
                read.taken += statement.taken;
                read.count += statement.count;
                read.numbers += statement.numbers;
                read.text += statement.text;
            }
            Ok(None) => break,
            Err(panic) => {
                take_back(stores, 0, read.numbers, 0, read.text);
                return Err(panic.behind(read.taken));
            }
        }
    }
    Ok(read)
}
