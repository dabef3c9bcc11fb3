// The rows of a page: a node's numbers and an attribute's, and the texts that they name. A number that is not there reads as 0. Readers that differ in a
// column have a name for each, so that no other file knows the columns. Rows and a row's number are told one by one: callers go from row to row over the same
// rows, and a struct of the two would be made for each.
ghost use Rattle.std.specs.Prelude.{◌≡◌, ◌+◌, ◌*◌, ◌<◌, get_or};
ghost use Rattle.page.specs.Rows.{number_bound, node_number, node_at, node_count, attribute_number, attribute_at, attribute_rows, name_of, attribute_name, attribute_value};

use combinators::texts::part_of;

// A node's numbers.
pub const NODE_WIDTH: usize = 6;

const KIND: usize = 0;

const PARENT: usize = 1;

const NAME_START: usize = 2;

const NAME_LENGTH: usize = 3;

const FIRST_ATTRIBUTE: usize = 4;

const ATTRIBUTE_COUNT: usize = 5;

// Its kinds: numbers, since rows are lent with any number for a kind.
pub const DOCUMENT: usize = 0;

pub const ELEMENT: usize = 1;

pub const OTHER: usize = 2;

// An attribute's numbers.
pub const ATTRIBUTE_WIDTH: usize = 4;

const ATTRIBUTE_NAME_START: usize = 0;

const ATTRIBUTE_NAME_LENGTH: usize = 1;

const VALUE_START: usize = 2;

const VALUE_LENGTH: usize = 3;

// How many rows of nodes are lent.
pub fn node_count(nodes: &[u32]) -> usize
    ensures { result ≡ node_count nodes.now }
{
    nodes.len() / NODE_WIDTH
}

// How many rows of attributes are lent.
pub fn attribute_rows(attributes: &[u32]) -> usize
    ensures { result ≡ attribute_rows attributes.now }
{
    attributes.len() / ATTRIBUTE_WIDTH
}

// The number in a column of a row, where a row has `WIDTH` numbers.
pub fn number_in<const WIDTH: usize>(rows: &[u32], row: usize, column: usize) -> u32
    ensures { result ≡ get_or rows.now (row * WIDTH + column) 0 }
{
    let place = row.saturating_mul(WIDTH).saturating_add(column);
    rows.get(place).copied().unwrap_or(0)
}

// The number in a column of a node's row. This and the next are `number_in` for either width, with the bound of what 32 bits hold, so that no reader of a
// column names a width. Of a row that is there whole one test serves all columns, which `number_in` would make for each.
fn node_number(nodes: &[u32], row: usize, column: usize) -> usize
    ensures value { result ≡ node_number nodes.now row column }
    ensures upper_bound { result < number_bound }
{
    if row < nodes.len() / NODE_WIDTH && column < NODE_WIDTH {
        return nodes[row * NODE_WIDTH + column] as usize;
    }
    number_in::<NODE_WIDTH>(nodes, row, column) as usize
}

// The number in a column of an attribute's row.
fn attribute_number(attributes: &[u32], row: usize, column: usize) -> usize
    ensures value { result ≡ attribute_number attributes.now row column }
    ensures upper_bound { result < number_bound }
{
    if row < attributes.len() / ATTRIBUTE_WIDTH && column < ATTRIBUTE_WIDTH {
        return attributes[row * ATTRIBUTE_WIDTH + column] as usize;
    }
    number_in::<ATTRIBUTE_WIDTH>(attributes, row, column) as usize
}

// What a node is: the document, an element or something else.
pub fn kind_of(nodes: &[u32], row: usize) -> usize
    ensures { result ≡ (node_at nodes.now row).kind }
{
    node_number(nodes, row, KIND)
}

// The row of a node's parent.
pub fn parent_of(nodes: &[u32], row: usize) -> usize
    ensures value { result ≡ (node_at nodes.now row).parent }
    ensures upper_bound { result < number_bound }
{
    node_number(nodes, row, PARENT)
}

// Where a node's name starts in the byte text.
pub fn name_start(nodes: &[u32], row: usize) -> usize
    ensures value { result ≡ (node_at nodes.now row).name_start }
    ensures upper_bound { result < number_bound }
{
    node_number(nodes, row, NAME_START)
}

// How long it is.
pub fn name_length(nodes: &[u32], row: usize) -> usize
    ensures value { result ≡ (node_at nodes.now row).name_length }
    ensures upper_bound { result < number_bound }
{
    node_number(nodes, row, NAME_LENGTH)
}

// The row of a node's first attribute.
pub fn first_attribute(nodes: &[u32], row: usize) -> usize
    ensures value { result ≡ (node_at nodes.now row).first_attribute }
    ensures upper_bound { result < number_bound }
{
    node_number(nodes, row, FIRST_ATTRIBUTE)
}

// How many attributes it has.
pub fn attribute_count(nodes: &[u32], row: usize) -> usize
    ensures value { result ≡ (node_at nodes.now row).attribute_count }
    ensures upper_bound { result < number_bound }
{
    node_number(nodes, row, ATTRIBUTE_COUNT)
}

// Where an attribute's name starts in the byte text.
pub fn attribute_name_start(attributes: &[u32], row: usize) -> usize
    ensures value { result ≡ (attribute_at attributes.now row).name_start }
    ensures upper_bound { result < number_bound }
{
    attribute_number(attributes, row, ATTRIBUTE_NAME_START)
}

// How long it is.
pub fn attribute_name_length(attributes: &[u32], row: usize) -> usize
    ensures value { result ≡ (attribute_at attributes.now row).name_length }
    ensures upper_bound { result < number_bound }
{
    attribute_number(attributes, row, ATTRIBUTE_NAME_LENGTH)
}

// Where an attribute's value starts.
pub fn value_start(attributes: &[u32], row: usize) -> usize
    ensures value { result ≡ (attribute_at attributes.now row).value_start }
    ensures upper_bound { result < number_bound }
{
    attribute_number(attributes, row, VALUE_START)
}

// How long it is.
pub fn value_length(attributes: &[u32], row: usize) -> usize
    ensures value { result ≡ (attribute_at attributes.now row).value_length }
    ensures upper_bound { result < number_bound }
{
    attribute_number(attributes, row, VALUE_LENGTH)
}

// A node's name.
pub fn name_of<'a>(nodes: &[u32], text: &'a [u8], row: usize) -> &'a [u8]
    ensures { result.now ≡ name_of nodes.now text.now row }
{
    part_of(text, name_start(nodes, row), name_length(nodes, row))
}

// An attribute's name. This and the next share `part_of` alone: each has columns of its own, which one function for both would be told.
pub fn attribute_name<'a>(attributes: &[u32], text: &'a [u8], row: usize) -> &'a [u8]
    ensures { result.now ≡ attribute_name attributes.now text.now row }
{
    part_of(
        text,
        attribute_name_start(attributes, row),
        attribute_name_length(attributes, row),
    )
}

// An attribute's value.
pub fn attribute_value<'a>(attributes: &[u32], text: &'a [u8], row: usize) -> &'a [u8]
    ensures { result.now ≡ attribute_value attributes.now text.now row }
{
    part_of(
        text,
        value_start(attributes, row),
        value_length(attributes, row),
    )
}
