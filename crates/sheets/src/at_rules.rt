// At-rules, which say nothing: `parse_at_rule`. What is read on the way is wiped; all stores are zero where something may be written, and stay so.
// `fill` stands beside the stores: a name and tokens are read behind the texts that are kept.
ghost use Rattle.std.specs.Prelude.{◌≡◌, ◌≤◌, Ok, length};
ghost use Rattle.combinators.specs.Lent.{SameStores, SameWork};
ghost use Rattle.syntax.specs.RuleLayout.{rule_rows, rule_texts};
ghost use Rattle.sheets.specs.Sheet.{at_rule_of, statement_end};
ghost use Rattle.sheets.specs.Rules.{WorkRoom};
ghost use Rattle.selectors.specs.Reading.{reading};

use combinators::bytes::byte_is;
use combinators::lent::Stores;
use combinators::stores::fill_part;
use declarations::rules::wipe_statement;
use lexer::names::parse_ident;
use lexer::whitespace::{skip_from, skip_optional_whitespace};
use selectors::readings::Read;
use values::statements::{Unbalanced, parse_to_end_of_statement};

// The place behind the statement that goes on at `n`, counted from the start of `s`; none where its brackets are wrong.
fn parse_statement_end(s: &[u8], n: usize, stores: &mut Stores<'_>, fill: usize) -> Option<Read>
    requires work_room { WorkRoom s.now stores.old.tokens.now stores.old.brackets.now stores.old.texts.now fill }
    requires n_in_bounds { n ≤ length s.now }
    ensures same { SameStores stores.old stores.new }
    ensures work_unchanged { SameWork stores.old stores.new }
    ensures value { Ok result ≡ reading length (rule_rows fill) rule_texts (statement_end s.now n) }
    ensures rules_unchanged { stores.new.rules.now ≡ stores.old.rules.now }
    ensures texts_unchanged { stores.new.texts.now ≡ stores.old.texts.now }
{
    match parse_to_end_of_statement(&s[n..], true, stores, fill) {
        Ok(statement) => {
            wipe_statement(stores, statement, fill);
            Some(Read {
                taken: n + statement.taken,
                ..Read::NOTHING
            })
        }
        Err(Unbalanced(statement)) => {
            wipe_statement(stores, statement, fill);
            None
        }
    }
}

// Reads an at-rule: '@', a name, and all to the end of the statement, its ';' included. The crate never panics in one.
pub fn parse_at_rule(s: &[u8], stores: &mut Stores<'_>, fill: usize) -> Option<Read>
    requires { WorkRoom s.now stores.old.tokens.now stores.old.brackets.now stores.old.texts.now fill }
    ensures same { SameStores stores.old stores.new }
    ensures work_unchanged { SameWork stores.old stores.new }
    ensures value { Ok result ≡ reading length (rule_rows fill) rule_texts (at_rule_of s.now) }
    ensures rules_unchanged { stores.new.rules.now ≡ stores.old.rules.now }
    ensures texts_unchanged { stores.new.texts.now ≡ stores.old.texts.now }
{
    let a = skip_optional_whitespace(s);
    if !byte_is(s, a, b'@') {
        return None;
    }
    let i = skip_from(s, a + 1);
    let name = parse_ident(&s[i..], stores.texts, fill)?;
    fill_part(stores.texts, fill, name.length, 0);
    parse_statement_end(s, i + name.taken, stores, fill)
}
