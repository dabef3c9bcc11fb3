// How deep a row lies, and its place among its siblings. Ancestors are gone over by a `while`: up to a parent is no step of a range, and of `successors`
// nothing tells that they end.
ghost use Rattle.std.specs.Prelude.{◌≡◌, ◌≤◌, ◌<◌, MatchOption};
ghost use Rattle.page.specs.Ancestors.{depth_of, climbed, is_element_child, element_children, place_of};
ghost use Rattle.page.specs.Rows.{node_at};

use crate::rows::{ELEMENT, kind_of, parent_of};

// The parent of a row, if it stands before it.
fn row_above(nodes: &[u32], row: usize) -> Option<usize>
    ensures { MatchOption result (row ≤ (node_at nodes.now row).parent) (λ above. (above ≡ (node_at nodes.now row).parent) × (above < row)) }
{
    let parent = parent_of(nodes, row);
    (parent < row).then_some(parent)
}

// How deep a row lies.
pub fn depth_of(nodes: &[u32], row: usize) -> usize
    ensures { result ≡ depth_of nodes.now row }
{
    let mut depth = 0;
    let mut at = row;
    while let Some(above) = row_above(nodes, at) {
        at = above;
        depth += 1;
    }
    depth
}

// The depth of row `target`, if it is row `from`, which lies at `depth`, or an ancestor of it.
pub fn climb_to(nodes: &[u32], from: usize, depth: usize, target: usize) -> Option<usize>
    requires { depth ≡ depth_of nodes.now from }
    ensures { result ≡ climbed nodes.now from target }
{
    let mut row = from;
    let mut left = depth;
    while row != target {
        row = row_above(nodes, row)?;
        left -= 1;
    }
    Some(left)
}

// Whether a row is an element with the parent `parent`.
fn is_element_child(nodes: &[u32], parent: usize, row: usize) -> bool
    ensures { result ≡ is_element_child nodes.now parent row }
{
    kind_of(nodes, row) == ELEMENT && parent_of(nodes, row) == parent
}

// How many of the first `rows` rows are elements with the parent `parent`.
pub fn element_children(nodes: &[u32], parent: usize, rows: usize) -> usize
    ensures value { result ≡ element_children nodes.now parent rows }
    ensures upper_bound { result ≤ rows }
{
    // each row adds 0 or 1: `filter` and `count` branch at each row, and take more than twice as long
    let mut count = 0;
    for row in 0..rows {
        count += usize::from(is_element_child(nodes, parent, row));
    }
    count
}

// The place of a row among the element children of its parent: the elements up to it that have this parent.
pub fn place_among(nodes: &[u32], row: usize) -> usize
    ensures { result ≡ place_of nodes.now row }
{
    element_children(nodes, parent_of(nodes, row), row.saturating_add(1))
}
