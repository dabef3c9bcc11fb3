// Places in rule rows, whatever numbers they hold: behind a selector, behind selectors, behind a rule; and the pseudo element of a selector. Places
// and no rests: callers hand one on beside places in other rows, and read a head at it.
ghost use Rattle.std.specs.Prelude.{◌≡◌, List, ℕ, get_or, drop};
ghost use Rattle.syntax.specs.Stream.{read_many};
ghost use Rattle.syntax.specs.RuleLayout.{selector_pseudo, pseudo_number, pseudo_from, read_selector, read_rule};
ghost use Rattle.origins.specs.Rules.{selectors_read};

use combinators::stores::number_at;
use syntax::rows::{
    COMPONENT_WIDTH, DECLARATION_WIDTH, PSEUDO_AFTER, RULE_DECLARATIONS, RULE_HEAD, RULE_SELECTORS,
    SELECTOR_COMPONENTS, SELECTOR_HEAD, SELECTOR_PSEUDO,
};
use syntax::walk::forward;

// The place behind the selector at `at`. Rows of each kind have a width of their own.
pub fn skip_selector(rows: &[u32], at: usize) -> usize
    ensures { (texts : List ℕ) → drop result rows.now ≡ (read_selector texts (drop at rows.now)).rest }
{
    let components = number_at(rows, at, SELECTOR_COMPONENTS) as usize;
    forward(rows, at, SELECTOR_HEAD + COMPONENT_WIDTH * components)
}

// The place behind `count` selectors from `at` on, as the head of their rule counts them.
pub fn skip_selectors(rows: &[u32], at: usize, count: u32) -> usize
    ensures { (texts : List ℕ) → drop result rows.now ≡ (read_many (read_selector texts) count (drop at rows.now)).rest }
{
    let mut place = at;
    for _ in 0..count {
        place = skip_selector(rows, place);
    }
    place
}

// The place of the declarations of the rule at `at`: behind its selectors.
pub fn rule_declarations(rows: &[u32], at: usize) -> usize
    ensures { (texts : List ℕ) → drop result rows.now ≡ (selectors_read texts (drop at rows.now)).rest }
{
    skip_selectors(
        rows,
        forward(rows, at, RULE_HEAD),
        number_at(rows, at, RULE_SELECTORS),
    )
}

// The place behind the rule at `at`.
pub fn skip_rule(rows: &[u32], at: usize) -> usize
    ensures { (texts : List ℕ) → drop result rows.now ≡ (read_rule texts (drop at rows.now)).rest }
{
    let declarations = number_at(rows, at, RULE_DECLARATIONS) as usize;
    forward(
        rows,
        rule_declarations(rows, at),
        DECLARATION_WIDTH * declarations,
    )
}

// The number of the pseudo element of the selector at `at`: any other than none and `::before` is `::after`, the last.
pub fn selector_pseudo(rows: &[u32], at: usize) -> u32
    ensures { result ≡ pseudo_number (pseudo_from (get_or (drop at rows.now) selector_pseudo 0)) }
{
    number_at(rows, at, SELECTOR_PSEUDO).min(PSEUDO_AFTER)
}
