// Whether what a run is lent suffices (refusal 2). Lists and texts that are lent may be of any length, so no product or sum is made of them before it is known to
// fit.
ghost use Rattle.std.specs.Prelude.{◌≡◌, ◌+◌, ◌*◌, ◌/◌, ◌≤◌, leb, length};
ghost use Rattle.combinators.specs.Choice.{and};
ghost use Rattle.combinators.specs.LeastLengths.{stores_suffice};
ghost use Rattle.cascade.specs.Row.{style_row_width};
ghost use Rattle.page.specs.Rows.{attribute_width};
ghost use Rattle.compiled.specs.Sheet.{compiled_limit};
ghost use Rattle.runner.specs.State.{depths};
ghost use Rattle.running.specs.RunAnswer.{run_suffices_of};

use crate::input::RunInput;
use cascade::rows::STYLE_ROW_WIDTH;
use combinators::least::{long_enough, stores_suffice};
use combinators::lent::Stores;
use page::lent::ATTRIBUTE_MORE;
use page::rows::{ATTRIBUTE_WIDTH, node_count};
use page::rules::DEPTH_LIMIT;

// The depths of a page, from 0 on.
const DEPTHS: usize = DEPTH_LIMIT + 1;

// Whether buffers of these lengths suffice for so many compiled bytes, nodes, numbers of attributes and bytes of text. Lengths, and nothing that is lent, so that
// who has yet to make the buffers can ask. A sum that cannot be counted is more than any texts, which need two bytes for each.
pub fn run_suffices(
    compiled: usize,
    nodes: usize,
    attributes: usize,
    text: usize,
    rows: usize,
    state: usize,
    rules: usize,
    tokens: usize,
    brackets: usize,
    texts: usize,
) -> bool
    requires { compiled ≤ compiled_limit }
    ensures { result ≡ and (leb (nodes * style_row_width) rows) (and (leb (depths * (compiled + 1)) state) (stores_suffice (text + 2 * (attributes / attribute_width)) rules tokens brackets texts)) }
{
    let own = ATTRIBUTE_MORE * (attributes / ATTRIBUTE_WIDTH);
    long_enough(rows, STYLE_ROW_WIDTH, nodes, 0)
        && DEPTHS * (compiled + 1) <= state
        && stores_suffice(text.saturating_add(own), rules, tokens, brackets, texts)
}

// Whether rows, state and stores suffice for a run.
#[tactic(auto, unfolding(crate::specs::RunAnswer::run_suffices))]
pub fn lent_suffices(input: RunInput<'_>, rows: &[u32], state: &[u8], stores: &Stores<'_>) -> bool
    requires { length input.compiled.now ≤ compiled_limit }
    ensures { result ≡ run_suffices_of input.entry rows.now state.now stores.now }
{
    run_suffices(
        input.compiled.len(),
        node_count(input.page.nodes),
        input.page.attributes.len(),
        input.page.text.len(),
        rows.len(),
        state.len(),
        stores.rules.len(),
        stores.tokens.len(),
        stores.brackets.len(),
        stores.texts.len(),
    )
}
