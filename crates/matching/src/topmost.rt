// Matching on all rows of a path in a time that does not grow with the square of its length: the last descendant combinator of a selector is decided by one
// number, found once for the path.
ghost use Rattle.std.specs.Prelude.{◌≡◌, ◌≤◌, MatchOption, not};
ghost use Rattle.combinators.specs.Choice.{is};
ghost use Rattle.page.specs.Ancestors.{ancestors_of, line_of};
ghost use Rattle.page.specs.Lent.{path_in};
ghost use Rattle.matching.specs.Lent.{components_in, climb_in, first_reaching_in, topmost_in, selector_top_in, reached_number_in, selector_number_in, RightTopIn, RightNumberIn};
ghost use Rattle.matching.specs.Matches.{matches};
ghost use Rattle.matching.specs.Topmost.{parent_reached, has_descendant};

use crate::components::Selector;
use crate::elements::Element;
use crate::matcher::{Climbed, SelectorMatch, do_matches, match_locally, next_ancestor};
use page::rows::parent_of;
use syntax::rows::DESCENDANT;

// Whether a selector matches a row, where `top` decides its last descendant combinator: what stands before that is not matched.
fn matches_below(selector: Selector<'_>, top: usize, element: Element<'_>) -> bool
    requires { RightTopIn element.page (components_in selector) element.row top }
    ensures { result ≡ matches (components_in selector.entry) (path_in element.entry.page element.entry.row) }
{
    match match_locally(selector, element) {
        Climbed::Ended(result) => matches!(result, SelectorMatch::Matches),
        Climbed::Descendant(_, at) => top < at,
    }
}

// The topmost ancestor of a row that a selector matches; `top` decides its last descendant combinator.
fn topmost_ancestor(selector: Selector<'_>, top: usize, element: Element<'_>) -> Option<usize>
    requires { RightTopIn element.page (components_in selector) element.row top }
    ensures { MatchOption result (topmost_in element.entry.page (components_in selector.entry) element.entry.row ≡ element.entry.row) (λ found. found ≡ topmost_in element.entry.page (components_in selector.entry) element.entry.row) }
{
    let page = element.page;
    let mut found = None;
    // up by parents, which is no step of a range; here and in `first_reaching`
    let mut row = element.row;
    while row != 0 {
        row = parent_of(page.nodes, row);
        if matches_below(selector, top, Element { page, row }) {
            found = Some(row);
        }
    }
    found
}

// The topmost ancestor of a row that matches what stands before the last descendant combinator of a selector. Each component is asked of each row once:
// what stands before a descendant combinator is decided by the row that was found for it. Where none was, none is for those behind it: the row itself,
// before which it does not stand, says so. That number, here and below, is compared by its order alone.
fn selector_top(selector: Selector<'_>, element: Element<'_>) -> usize
    ensures value { result ≡ selector_top_in element.entry.page element.entry.row (components_in selector.entry) }
    ensures upper_bound { result ≤ element.entry.row }
{
    let mut top = element.row;
    for left in 0..selector.left {
        if selector.kind_at(left) == DESCENDANT {
            let Some(found) = topmost_ancestor(Selector { left, ..selector }, top, element) else {
                return element.row;
            };
            top = found;
        }
    }
    top
}

// Whether a descendant combinator is among the components.
fn has_descendant(selector: Selector<'_>) -> bool
    ensures { result ≡ has_descendant (components_in selector.entry) }
{
    (0..selector.left).any(|i| selector.kind_at(i) == DESCENDANT)
}

// The nearest of a row and its ancestors from which tests and child combinators lead to a descendant combinator. The document is not asked: a descendant
// combinator fails on it.
fn first_reaching(selector: Selector<'_>, element: Element<'_>) -> Option<usize>
    ensures { MatchOption result (first_reaching_in element.entry.page (components_in selector.entry) (line_of element.entry.page.nodes.now element.entry.row) ≡ 0) (λ first. (first ≡ first_reaching_in element.entry.page (components_in selector.entry) (line_of element.entry.page.nodes.now element.entry.row)) × ¬ (first ≡ 0)) }
{
    let page = element.page;
    let mut row = element.row;
    while row != 0 {
        let at = Element { page, row };
        if let Climbed::Descendant(_, _) = match_locally(selector, at) {
            return Some(row);
        }
        row = next_ancestor(selector, at)?;
    }
    None
}

// Whether a descendant combinator is reached from an ancestor of a row. (No `is_some_and`: its closure is not told that the parent's parents lead to the
// document, which the parent as an `Element` has to be shown.)
fn reached_above(selector: Selector<'_>, element: Element<'_>) -> bool
    ensures { result ≡ not (is (first_reaching_in element.entry.page (components_in selector.entry) (ancestors_of element.entry.page.nodes.now element.entry.row)) 0) }
{
    let page = element.page;
    let Some(row) = element.parent() else {
        return false;
    };
    first_reaching(selector, Element { page, row }).is_some()
}

// The parent of the row that a descendant combinator is reached on from a row, or 0: a number that decides, and of the document, which may be reached on a page
// that is not accepted, no element.
fn parent_reached(selector: Selector<'_>, element: Element<'_>) -> usize
    ensures { result ≡ parent_reached element.entry.page.nodes.now (climb_in element.entry.page (components_in selector.entry) element.entry.row) }
{
    match match_locally(selector, element) {
        Climbed::Descendant(_, at) => parent_of(element.page.nodes, at),
        Climbed::Ended(_) => 0,
    }
}

// The number of a selector on the path of a row, where a descendant combinator is among its components. Most last compounds are on one row of a path or on
// none: the matcher then decides for that row, and the topmost row is not looked for, which asks all components of all rows.
fn reached_number(selector: Selector<'_>, element: Element<'_>) -> usize
    ensures { result ≡ reached_number_in element.entry.page element.entry.row (components_in selector.entry) }
{
    let Some(row) = first_reaching(selector, element) else {
        return element.row;
    };
    let page = element.page;
    let first = Element { page, row };
    if reached_above(selector, first) {
        return selector_top(selector, element);
    }
    if do_matches(selector, first) {
        return parent_reached(selector, first);
    }
    element.row
}

// The number that decides the last descendant combinator of a selector on a row and its ancestors. Without such a combinator no row is asked.
pub fn selector_number(selector: Selector<'_>, element: Element<'_>) -> usize
    ensures value { result ≡ selector_number_in element.entry.page element.entry.row (components_in selector.entry) }
    ensures upper_bound { result ≤ element.entry.row }
{
    if has_descendant(selector) {
        reached_number(selector, element)
    } else {
        0
    }
}

// Whether a selector, whose number is `top`, matches a row. Before its number a selector is not even asked for its tests. (Selector, `top` and element are no
// struct: `top` is right by `RightNumber` here, and by `RightTop` in the functions above.)
pub fn matches_by_number(selector: Selector<'_>, top: usize, element: Element<'_>) -> bool
    requires { RightNumberIn element.page (components_in selector) element.row top }
    ensures { result ≡ matches (components_in selector.entry) (path_in element.entry.page element.entry.row) }
{
    top <= element.row && matches_below(selector, top, element)
}
