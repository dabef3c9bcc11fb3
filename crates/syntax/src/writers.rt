// Components, and what stands before the components of a selector and before the selectors of a rule, written to lent rows. Counts are
// known last, so the writer of a selector or a rule passes over its head and writes it at the end. A head is told number by number: the structs of
// what was read are of crates above this one.
ghost use Rattle.std.specs.Prelude.{◌≡◌, [], ◌∷◌, ◌^◌, ◌<◌};
ghost use Rattle.std.proofs.lemmas.List.Edits.{sets};
ghost use Rattle.syntax.specs.Writing.{ComponentFits, RuleHeadFits};

use combinators::columns::Columns;
use combinators::stores::emit_all;

// Writes the row of a component whose texts start at `fill` in the text store, from `place` on.
pub fn put_component(row: Columns, fill: usize, rules: &mut [u32], place: usize)
    requires { ComponentFits row.first row.second fill }
    ensures { rules.new ≡ sets rules.old place (row.kind ∷ fill ∷ row.first ∷ row.second ∷ []) }
{
    emit_all(
        &[row.kind, fill as u32, row.first as u32, row.second as u32],
        rules,
        place,
    );
}

// Writes what stands before the `count` components of a selector, from `place` on.
pub fn put_selector_head(count: usize, pseudo: u32, rules: &mut [u32], place: usize)
    requires { count < 2 ^ 32 }
    ensures { rules.new ≡ sets rules.old place (count ∷ pseudo ∷ []) }
{
    emit_all(&[count as u32, pseudo], rules, place);
}

// Writes what stands before the selectors of a rule that starts at the byte `start` of the text, from `place` on.
pub fn put_rule_head(
    start: usize,
    selectors: usize,
    declarations: usize,
    rules: &mut [u32],
    place: usize,
)
    requires { RuleHeadFits start selectors declarations }
    ensures { rules.new ≡ sets rules.old place (start ∷ selectors ∷ declarations ∷ []) }
{
    emit_all(
        &[start as u32, selectors as u32, declarations as u32],
        rules,
        place,
    );
}
