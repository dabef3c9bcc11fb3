// The rules of a row (document 01, "The page"; refusal 6). No store is asked for: the line of open rows is climbed.
ghost use Rattle.std.specs.Prelude.{◌≡◌, ◌<◌};
ghost use Rattle.page.specs.Rows.{node_at, number_bound};
ghost use Rattle.page.specs.Accepted.{ends_in_zeros, is_document, is_parent, first_bad_row};
ghost use Rattle.page.specs.CheckAnswers.{attributes_answer, element_answer, kind_answer, depth_answer, BehindRow, Carried, row_answer};

use crate::ancestors::climb_to;
use crate::lent::Page;
use crate::rows::{
    DOCUMENT, ELEMENT, OTHER, attribute_count, attribute_name_length, attribute_name_start,
    attribute_rows, first_attribute, kind_of, name_length, name_start, node_count, parent_of,
    value_length, value_start,
};

pub const DEPTH_LIMIT: usize = 64;

// What the next row goes on from: its first attribute, and the byte where its texts start.
#[derive(Clone, Copy)]
struct Totals {
    first: usize,
    start: usize,
}

// The same with the depth of the row before.
#[derive(Clone, Copy)]
struct Progress {
    depth: usize,
    totals: Totals,
}

// Whether the four numbers at the end of a row are zeros.
#[tactic(auto, unfolding(crate::specs::Accepted::ends_in_zeros, combinators::specs::Choice::and, combinators::specs::Choice::is))]
fn ends_in_zeros(nodes: &[u32], row: usize) -> bool
    ensures { result ≡ ends_in_zeros (node_at nodes.now row) }
{
    name_start(nodes, row) == 0
        && name_length(nodes, row) == 0
        && first_attribute(nodes, row) == 0
        && attribute_count(nodes, row) == 0
}

// Whether row 0 is all zeros.
#[tactic(auto, unfolding(crate::specs::Accepted::is_document, combinators::specs::Choice::and, combinators::specs::Choice::is))]
fn is_document(nodes: &[u32]) -> bool
    ensures { result ≡ is_document (node_at nodes.now 0) }
{
    kind_of(nodes, 0) == DOCUMENT && parent_of(nodes, 0) == 0 && ends_in_zeros(nodes, 0)
}

// Whether a row can be a parent: row 0 or an element.
#[tactic(auto, unfolding(crate::specs::Accepted::is_parent, combinators::specs::Choice::or, combinators::specs::Choice::is))]
fn is_parent(nodes: &[u32], row: usize) -> bool
    ensures { result ≡ is_parent nodes.now row }
{
    row == 0 || kind_of(nodes, row) == ELEMENT
}

// The depth of a row behind another, which lies at `depth`, if its parent is right and it is not too deep.
fn check_parent(nodes: &[u32], row: usize, depth: usize) -> Option<usize>
    requires { BehindRow nodes.now row depth }
    ensures { result ≡ depth_answer nodes.now row }
{
    let parent = parent_of(nodes, row);
    if !is_parent(nodes, parent) {
        return None;
    }
    let above = climb_to(nodes, row - 1, depth, parent)?;
    (above < DEPTH_LIMIT).then_some(above + 1)
}

// Where the texts of `count` attribute rows from `first` on end, if they lie end to end from `start`. Readers of a row are told all rows and its number, as
// everywhere here, so none are cut off.
fn follow_attributes(attributes: &[u32], first: usize, count: usize, start: usize) -> Option<usize>
    requires { (first < number_bound) × (count < number_bound) }
    ensures { result ≡ attributes_answer attributes.now count first start }
{
    let mut end = start;
    for at in first..first + count {
        if attribute_name_start(attributes, at) != end {
            return None;
        }
        end += attribute_name_length(attributes, at);
        if value_start(attributes, at) != end {
            return None;
        }
        end += value_length(attributes, at);
    }
    Some(end)
}

// What the row behind an element goes on from, if the element's name starts where it should, as its attributes do, and its texts lie end to end.
fn check_element(page: Page<'_>, row: usize, totals: Totals) -> Option<Totals>
    ensures { result ≡ element_answer page.entry.attributes.now (node_at page.entry.nodes.now row) totals.first totals.start }
{
    if name_start(page.nodes, row) != totals.start
        || first_attribute(page.nodes, row) != totals.first
    {
        return None;
    }
    let count = attribute_count(page.nodes, row);
    let first = totals.first + count;
    if first > attribute_rows(page.attributes) {
        return None;
    }
    let texts = totals.start + name_length(page.nodes, row);
    let start = follow_attributes(page.attributes, totals.first, count, texts)?;
    Some(Totals { first, start })
}

// What its kind asks of a row behind row 0.
fn check_kind(page: Page<'_>, row: usize, totals: Totals) -> Option<Totals>
    ensures { result ≡ kind_answer page.entry.attributes.now (node_at page.entry.nodes.now row) totals.first totals.start }
{
    match kind_of(page.nodes, row) {
        ELEMENT => check_element(page, row, totals),
        OTHER if ends_in_zeros(page.nodes, row) => Some(totals),
        _ => None,
    }
}

// What the row behind goes on from, if a row keeps the rules.
fn check_row(page: Page<'_>, row: usize, before: Progress) -> Option<Progress>
    requires { Carried page.nodes.now page.attributes.now row before.depth before.totals.first before.totals.start }
    ensures { result ≡ row_answer page.entry.nodes.now page.entry.attributes.now row }
{
    if row == 0 {
        // the document adds nothing
        return is_document(page.nodes).then_some(before);
    }
    let depth = check_parent(page.nodes, row, before.depth)?;
    let totals = check_kind(page, row, before.totals)?;
    Some(Progress { depth, totals })
}

// The first row that is against the rules.
pub fn first_bad_row(page: Page<'_>) -> Option<usize>
    ensures { result ≡ first_bad_row page.entry.nodes.now page.entry.attributes.now }
{
    let mut before = Progress {
        depth: 0,
        totals: Totals { first: 0, start: 0 },
    };
    for row in 0..node_count(page.nodes) {
        let Some(next) = check_row(page, row, before) else {
            return Some(row);
        };
        before = next;
    }
    None
}
