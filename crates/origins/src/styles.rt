// The styles of a rule, from its rows to style rows.
ghost use Rattle.std.specs.Prelude.{◌≡◌, List, ℕ, ◌*◌, length, drop};
ghost use Rattle.std.proofs.lemmas.List.Edits.{sets};
ghost use Rattle.syntax.specs.Layout.{styles_at, style_width};
ghost use Rattle.syntax.specs.RuleLayout.{read_rule};
ghost use Rattle.declarations.specs.Styles.{styles_of};
ghost use Rattle.origins.specs.Rules.{rule_styles, RuleRoom};

use crate::walk::rule_declarations;
use combinators::stores::number_at;
use declarations::styles::styles_from_properties;
use syntax::rows::{DECLARATION_WIDTH, RULE_DECLARATIONS};
use syntax::walk::forward;

// Leaves the styles of the rule at `at` in `tokens`, as style rows from 0 on; how many there are.
pub fn styles_of_rule(rules: &[u32], at: usize, tokens: &mut [u32]) -> u32
    requires { RuleRoom (drop at rules.now) (length tokens.old) }
    ensures tokens_after { tokens.new ≡ sets tokens.old 0 (rule_styles (drop at rules.now)) }
    ensures result_value { style_width * result ≡ length (rule_styles (drop at rules.now)) }
    ensures by_index { (texts : List ℕ) → styles_at tokens.new texts result ≡ styles_of (read_rule texts (drop at rules.now)).value.declarations }
{
    // no further than the rows go, so that they can be lent from there on
    let declarations = forward(rules, rule_declarations(rules, at), 0);
    let count = number_at(rules, at, RULE_DECLARATIONS) as usize;
    let (rows, _) = rules[declarations..][..DECLARATION_WIDTH * count].as_chunks();
    styles_from_properties(rows, tokens) as u32
}
