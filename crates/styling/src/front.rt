// How much of the stores the style of an element asks for. Callers lend room for the whole page, of which the path of one element is a small part: only
// that is cleared before the work and again behind it, the rest once.
ghost use Rattle.std.specs.Prelude.{◌≡◌, ◌≤◌};
ghost use Rattle.combinators.specs.Store.{cleared};
ghost use Rattle.page.specs.Ancestors.{line_of};
ghost use Rattle.combinators.specs.Lent.{SameStores};
ghost use Rattle.styling.specs.Fronts.{room_most, attributes_room, rows_room, Totals};

use combinators::lent::Stores;
use combinators::stores::fill_from;
use page::check::TEXT_LIMIT;
use page::lent::ATTRIBUTE_MORE;
use page::rows::{attribute_count, first_attribute, parent_of, value_length};

// No path of a call asks for more, so that no sum grows beyond it by more than one attribute.
const ROOM_LIMIT: usize = 3 * TEXT_LIMIT;

// What attribute rows ask for at most, beside a total: their values may be cut by the end of the text.
fn attributes_room(attributes: &[u32], first: usize, count: usize, start: usize) -> usize
    requires { Totals first count start }
    ensures value { result ≡ attributes_room attributes.now count first start }
    ensures upper_bound { result ≤ room_most }
{
    let mut total = start;
    for row in first..first + count {
        if total > ROOM_LIMIT {
            return total;
        }
        total += value_length(attributes, row) + ATTRIBUTE_MORE;
    }
    total
}

// What a row and those above it ask for at most. It is told rows of any page, accepted or not, so it takes no `Element`.
pub fn path_room(nodes: &[u32], attributes: &[u32], row: usize) -> usize
    ensures value { result ≡ rows_room nodes.now attributes.now (line_of nodes.now row) 0 }
    ensures upper_bound { result ≤ room_most }
{
    let mut total = 0;
    let mut above = row;
    loop {
        let first = first_attribute(nodes, above);
        let count = attribute_count(nodes, above);
        total = attributes_room(attributes, first, count, total);
        let parent = parent_of(nodes, above);
        if parent >= above {
            return total;
        }
        above = parent;
    }
}

// Zeros behind the fronts of the stores. The three lengths are those that `style_front` cuts the fronts by, so each is told.
pub fn clear_behind(stores: &mut Stores<'_>, bytes: usize, numbers: usize, room: usize)
    ensures same { SameStores stores.old stores.new }
    ensures texts_after { stores.new.texts.now ≡ cleared bytes stores.old.texts.now }
    ensures rules_after { stores.new.rules.now ≡ cleared numbers stores.old.rules.now }
    ensures tokens_after { stores.new.tokens.now ≡ cleared numbers stores.old.tokens.now }
    ensures brackets_after { stores.new.brackets.now ≡ cleared room stores.old.brackets.now }
{
    fill_from(stores.texts, bytes, 0);
    fill_from(stores.rules, numbers, 0);
    fill_from(stores.tokens, numbers, 0);
    fill_from(stores.brackets, room, 0);
}
