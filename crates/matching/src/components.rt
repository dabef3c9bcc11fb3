// The components of a selector in rows, in reading order. A number that is not there reads as 0.
ghost use Rattle.std.specs.Prelude.{◌≡◌, List, ℕ};
ghost use Rattle.syntax.specs.RuleLayout.{component_kind_at, component_first_at, component_second_at, component_from};
ghost use Rattle.matching.specs.Rows.{component_number, components_at, first_text, second_text};
ghost use Rattle.cascade.specs.Specificity.{SumFits, sum};
ghost use Rattle.matching.specs.Specificity.{added, name_added, specificity};

use cascade::specificity::Specificity;
use combinators::texts::part_of;
use page::rows::number_in;
use syntax::rows::{
    CHILD, COMPONENT_FIRST, COMPONENT_KIND, COMPONENT_SECOND, COMPONENT_TEXT, COMPONENT_WIDTH,
    DESCENDANT, ELEMENT, HASH, STAR,
};

// The number in a column of a component's row.
fn component_number(components: &[u32], i: usize, column: usize) -> u32
    ensures { result ≡ component_number components.now i column }
{
    number_in::<COMPONENT_WIDTH>(components, i, column)
}

// A selector: the first `left` components of some rows, and the store of their texts. `left` is no length of the rows: fewer may be lent, and what is not lent
// reads as 0.
#[derive(Clone, Copy)]
pub struct Selector<'a> {
    pub components: &'a [u32],
    pub store: &'a [u8],
    pub left: usize,
}

impl<'a> Selector<'a> {
    // What a component is. This and the next two differ in a column, which has its name here alone.
    pub fn kind_at(self, i: usize) -> u32
        ensures { result ≡ component_number self.entry.components.now i component_kind_at }
    {
        component_number(self.components, i, COMPONENT_KIND)
    }

    // The number a of an nth-child.
    pub fn first_number(self, i: usize) -> u32
        ensures { result ≡ component_number self.entry.components.now i component_first_at }
    {
        component_number(self.components, i, COMPONENT_FIRST)
    }

    // The number b of an nth-child.
    pub fn second_number(self, i: usize) -> u32
        ensures { result ≡ component_number self.entry.components.now i component_second_at }
    {
        component_number(self.components, i, COMPONENT_SECOND)
    }

    // The name that a component asks for.
    pub fn first_text(self, i: usize) -> &'a [u8]
        ensures { result.now ≡ first_text self.entry.store.now self.entry.components.now i }
    {
        let start = component_number(self.components, i, COMPONENT_TEXT) as usize;
        part_of(self.store, start, self.first_number(i) as usize)
    }

    // The value that it asks for.
    pub fn second_text(self, i: usize) -> &'a [u8]
        ensures { result.now ≡ second_text self.entry.store.now self.entry.components.now i }
    {
        let start = component_number(self.components, i, COMPONENT_TEXT) as usize;
        let behind = self.first_number(i) as usize;
        part_of(self.store, start + behind, self.second_number(i) as usize)
    }
}

// What a component that is no star and no combinator adds to the specificity of its selector, by its kind: a number of lent rows or bytes, of any content, so
// that the last arm is that of any other.
#[tactic(auto, unfolding(crate::specs::Specificity::name_added, combinators::specs::Choice::pick, combinators::specs::Choice::is))]
pub fn name_weight(kind: u32) -> Specificity
    ensures { result ≡ name_added kind }
{
    match kind {
        ELEMENT => Specificity::new(0, 0, 1),
        HASH => Specificity::new(1, 0, 0),
        _ => Specificity::new(0, 1, 0),
    }
}

// With one component more of a kind counted.
#[tactic(auto, unfolding(crate::specs::Specificity::name_added, cascade::specs::Specificity::sum, cascade::specs::Specificity::specificity_of, combinators::specs::Choice::pick, combinators::specs::Choice::is, combinators::specs::Choice::or))]
pub fn with_name(mut value: Specificity, kind: u32) -> Specificity
    requires { SumFits value (name_added kind) }
    ensures { result ≡ sum value (name_added kind) }
{
    match kind {
        ELEMENT => value.typ += 1,
        HASH => value.id += 1,
        _ => value.class += 1,
    }
    value
}

// What a component of any kind adds.
fn added_by(kind: u32) -> Specificity
    ensures { (store : List ℕ) (f a b : ℕ) → result ≡ added (component_from store kind f a b) }
{
    match kind {
        STAR | CHILD | DESCENDANT => Specificity::NONE,
        _ => name_weight(kind),
    }
}

// How specific a selector of `n` components is (`Selector::specificity`). Texts do not matter for it. `n` has 32 bits, so that
// the sums fit, where a `Selector` has a `usize`; and it is no length of a slice, as what is not lent reads as 0.
pub fn specificity(components: &[u32], n: u32) -> Specificity
    ensures { (store : List ℕ) → result ≡ specificity (components_at store components.now n) }
{
    let mut result = Specificity::NONE;
    for i in 0..n {
        let kind = component_number(components, i as usize, COMPONENT_KIND);
        result = added_by(kind) + result;
    }
    result
}
