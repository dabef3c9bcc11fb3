// Whether a selector, in component rows, matches a row of a page (`Selector::do_matches`). Row 0 is the document.
ghost use Rattle.std.specs.Prelude.{◌≡◌, List, [], ◌∷◌, ℕ};
ghost use Rattle.page.specs.Lent.{element_in, path_in};
ghost use Rattle.syntax.specs.RuleLayout.{component_kind_at};
ghost use Rattle.matching.specs.Matches.{matches};
ghost use Rattle.matching.specs.Lent.{components_in, climb_in};
ghost use Rattle.matching.specs.Rows.{component_number, component_at, components_at, first_text, second_text, SimpleAt, Rooted, attributes_pass, element_passes};
ghost use Rattle.matching.specs.Recursion.{result_on_ancestors, match_recursively};
ghost use Rattle.matching.specs.Climb.{NameAt};
ghost use Rattle.matching.specs.Next.{IsNext, IsNextWith};

use crate::components::Selector;
use crate::elements::Element;
use crate::nth::nth_passes;
use page::rows::parent_of;
use syntax::rows::{ATTRIBUTE, CHILD, CLASS, DESCENDANT, ELEMENT, HASH, NTH, STAR};

// Whether an element passes a component of a kind that asks for its attributes. The second text is taken only where one is asked for. Kinds are numbers of
// lent rows, of any content, so here and below a `match` ends with an arm for any other. Kind, selector, place and element are told one by one: the loop in
// `match_locally` reads the kind first, and a struct of them would be made for each component and taken apart at once.
fn attributes_asked(kind: u32, selector: Selector<'_>, i: usize, element: Element<'_>) -> bool
    ensures { result ≡ attributes_pass kind (first_text selector.entry.store.now selector.entry.components.now i) (second_text selector.entry.store.now selector.entry.components.now i) (element_in element.entry.page element.entry.row).attributes }
{
    let name = selector.first_text(i);
    let attributes = element.attributes();
    match kind {
        CLASS => attributes.has_class(name),
        HASH => attributes.has_id(name),
        ATTRIBUTE => attributes.has_attribute(name),
        _ => attributes.attribute_is(name, selector.second_text(i)),
    }
}

// Whether an element passes a component that is neither star nor combinator, whose kind is told.
fn element_passes(kind: u32, selector: Selector<'_>, i: usize, element: Element<'_>) -> bool
    requires { kind ≡ component_number selector.components.now i component_kind_at }
    ensures { result ≡ element_passes selector.entry.store.now selector.entry.components.now i (element_in element.entry.page element.entry.row) }
{
    match kind {
        ELEMENT => element.is_called(selector.first_text(i)),
        NTH => nth_passes(
            selector.first_number(i),
            selector.second_number(i),
            element.place(),
        ),
        _ => attributes_asked(kind, selector, i, element),
    }
}

// Whether a row passes a component that is no combinator, whose kind is told. The document, row 0, passes star alone.
fn passes(kind: u32, selector: Selector<'_>, i: usize, element: Element<'_>) -> bool
    requires kind_value { kind ≡ component_number selector.components.now i component_kind_at }
    requires simple_at { SimpleAt selector.components.now i }
    ensures { result ≡ matches (component_at selector.entry.store.now selector.entry.components.now i ∷ []) (path_in element.entry.page element.entry.row) }
{
    kind == STAR || element.row != 0 && element_passes(kind, selector, i, element)
}

// What comes of matching a selector: it matches the row; it fails locally, which says nothing of the rows above; it fails completely, on the row and on
// each of its ancestors (law `result-holds`).
#[derive(Clone, Copy)]
pub enum SelectorMatch {
    Matches,
    FailsLocally,
    FailsCompletely,
}

// Where tests and child combinators lead: to the end, or to a descendant combinator that stands behind so many components, on a row.
#[derive(Clone, Copy)]
pub enum Climbed {
    Ended(SelectorMatch),
    Descendant(usize, usize),
}

// Matches the components, the last of them first, up to a descendant combinator. A child combinator leads to the parent. All this is one loop, so that
// the matcher calls itself only for a descendant combinator, however many tests a selector has. Here and below loops go up by rows, and an `Element` is
// made where one is asked: with an `Option<Element>` for the parent the matcher took a tenth longer.
pub fn match_locally(selector: Selector<'_>, element: Element<'_>) -> Climbed
    ensures { result ≡ climb_in element.entry.page (components_in selector.entry) element.entry.row }
{
    let page = element.page;
    let mut row = element.row;
    for n in (0..selector.left).rev() {
        let kind = selector.kind_at(n);
        if kind == DESCENDANT {
            return Climbed::Descendant(n, row);
        }
        if kind == CHILD {
            if row == 0 {
                return Climbed::Ended(SelectorMatch::FailsCompletely);
            }
            row = parent_of(page.nodes, row);
        } else if !passes(kind, selector, n, Element { page, row }) {
            return Climbed::Ended(SelectorMatch::FailsLocally);
        }
    }
    Climbed::Ended(SelectorMatch::Matches)
}

// The nearest ancestor that has the name of the last component. The name is taken once, and no other row is asked for more. A `while`: it goes up by parents.
fn named_ancestor(selector: Selector<'_>, element: Element<'_>) -> Option<usize>
    requires { NameAt selector.components.now selector.left }
    ensures { (attributes : List ℕ) → IsNextWith selector.entry element.entry attributes result }
{
    let name = selector.first_text(selector.left - 1);
    let page = element.page;
    let mut row = element.row;
    while row != 0 {
        row = parent_of(page.nodes, row);
        if (Element { page, row }).is_called(name) {
            return Some(row);
        }
    }
    None
}

// The next ancestor of a row on which the components can do more than fail locally, or an ancestor before it. Attributes are not asked, so that it is the next
// whatever they are.
pub fn next_ancestor(selector: Selector<'_>, element: Element<'_>) -> Option<usize>
    ensures next { IsNext selector.entry element.entry result }
    ensures any_attributes { (attributes : List ℕ) → IsNextWith selector.entry element.entry attributes result }
{
    if selector.left > 0 && selector.kind_at(selector.left - 1) == ELEMENT {
        return named_ancestor(selector, element);
    }
    element.parent()
}

// Matches a selector on a row: up to a descendant combinator, and what stands before that on the ancestors.
#[cycle(matching)]
fn match_recursively(selector: &Selector<'_>, element: &Element<'_>) -> SelectorMatch
    ensures { result ≡ match_recursively (components_in selector.now) (path_in element.now.page element.now.row) }
{
    match match_locally(*selector, *element) {
        Climbed::Ended(result) => result,
        Climbed::Descendant(left, row) => match_on_ancestors(selector, left, element, row),
    }
}

// What stands before a descendant combinator, the first `left` components, is tried on the parent of a row and the parent's own ancestors. Where it fails
// completely on one of them, no other is tried: the calls are at most (components + 1) * (ancestors + 1) (law `few-calls`). The structs that a call is told
// are made here, so that a selector without such a combinator does not wait for them, and are lent, so that they are not copied for each ancestor. Rows go up
// by what `next_ancestor` says, and an arm returns: of three results one goes on, and the other two are the answer as they stand, each in an arm that says it.
#[cycle(matching)]
fn match_on_ancestors(
    selector: &Selector<'_>,
    left: usize,
    element: &Element<'_>,
    row: usize,
) -> SelectorMatch
    requires { Rooted element.now.page.nodes.now row }
    ensures { result ≡ result_on_ancestors (match_recursively (components_at selector.now.store.now selector.now.components.now left)) (path_in element.now.page row) }
{
    let before = Selector { left, ..*selector };
    let page = element.page;
    let mut at = row;
    while let Some(row) = next_ancestor(before, Element { page, row: at }) {
        match match_recursively(&before, &Element { page, row }) {
            SelectorMatch::FailsLocally => at = row,
            SelectorMatch::Matches => return SelectorMatch::Matches,
            SelectorMatch::FailsCompletely => return SelectorMatch::FailsCompletely,
        }
    }
    SelectorMatch::FailsCompletely
}

// Whether a selector matches a row, the document or an element.
pub fn do_matches(selector: Selector<'_>, element: Element<'_>) -> bool
    ensures { result ≡ matches (components_in selector.entry) (path_in element.entry.page element.entry.row) }
{
    matches!(
        match_recursively(&selector, &element),
        SelectorMatch::Matches
    )
}
