// The rows of a run, one step for each, in order. Rows, state and stores are lent one by one, here, in run.rt and in suffices.rt: a struct of them would be lent by
// `&mut`, and each function would owe that its slices are the same ones afterwards, as it does of the stores, of rows and state too, which a slice by itself says by its
// type.
ghost use Rattle.std.specs.Prelude.{◌≡◌, ◌+◌, ◌≤◌, take};
ghost use Rattle.runner.specs.Run.{run_step, run_of};
ghost use Rattle.stepping.specs.Lent.{Kept};
ghost use Rattle.page.specs.Lent.{page_in};
ghost use Rattle.running.specs.Ready.{RunReadyOf, RowReadyOf, PlaceRoom, texts_most, with_parent};

use crate::input::RunInput;
use cascade::rows::{STYLE_ROW_WIDTH, copy_within};
use combinators::lent::Stores;
use page::ancestors::depth_of;
use page::rows::{
    ATTRIBUTE_WIDTH, NODE_WIDTH, attribute_count, first_attribute, node_count, parent_of,
};
use stepping::step::{NodeRow, step};

// The style row of a row's parent, copied to the place of the row's own. Row 0, which is its own parent, has none.
fn place_parent(nodes: &[u32], row: usize, rows: &mut [u32])
    requires { PlaceRoom row rows.old }
    ensures { rows.new ≡ with_parent nodes.now row rows.old }
{
    let parent = parent_of(nodes, row);
    if parent < row {
        copy_within(rows, parent * STYLE_ROW_WIDTH, row * STYLE_ROW_WIDTH);
    }
}

// The step of a row; the fill behind its texts. The rows are one slice of numbers, of which a row is split off: of chunks (`as_chunks_mut`) nothing is promised of
// what the slice ends as. What the work stores hold afterwards, and the texts behind that fill, is left free.
fn run_row(
    input: RunInput<'_>,
    row: usize,
    rows: &mut [u32],
    state: &mut [u8],
    stores: &mut Stores<'_>,
    fill: usize,
) -> usize
    requires { RowReadyOf input rows.old state.old stores.old row fill }
    ensures texts_after { record { rows = rows.new; state = state.new; texts = take result stores.new.texts.now }
        ≡ run_step input.entry.compiled.now input.entry.settings (page_in input.entry.page) row (record { rows = rows.old; state = state.old; texts = take fill stores.old.texts.now }) }
    ensures upper_bound { result ≤ texts_most (page_in input.entry.page) (row + 1) }
    ensures kept { Kept stores.old stores.new result }
{
    let page = input.page;
    place_parent(page.nodes, row, rows);
    let node = row * NODE_WIDTH;
    let first = first_attribute(page.nodes, row) * ATTRIBUTE_WIDTH;
    let behind = first + attribute_count(page.nodes, row) * ATTRIBUTE_WIDTH;
    let depth = depth_of(page.nodes, row);
    let (_, own) = rows.split_at_mut(row * STYLE_ROW_WIDTH);
    let handed = NodeRow {
        node: &page.nodes[node..node + NODE_WIDTH],
        attributes: &page.attributes[first..behind],
        text: page.text,
    };
    step(
        input.settings,
        input.compiled,
        handed,
        depth,
        own.first_chunk_mut().unwrap(),
        state,
        stores,
        fill,
    )
}

// The steps of all rows; the fill behind their texts. What the work stores hold afterwards, and the texts behind that fill, is left free.
pub fn run_rows(
    input: RunInput<'_>,
    rows: &mut [u32],
    state: &mut [u8],
    stores: &mut Stores<'_>,
) -> usize
    requires { RunReadyOf input rows.old state.old stores.old }
    ensures texts_after { record { rows = rows.new; state = state.new; texts = take result stores.new.texts.now }
        ≡ run_of input.entry.compiled.now input.entry.settings (page_in input.entry.page) rows.old state.old }
    ensures kept { Kept stores.old stores.new result }
{
    let count = node_count(input.page.nodes);
    let mut fill = 0;
    for row in 0..count {
        fill = run_row(input, row, rows, state, stores, fill);
    }
    fill
}
