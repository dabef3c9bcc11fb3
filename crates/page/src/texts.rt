// The texts of a row (document 01, "The page"; refusal 7): each lies within the byte text and is UTF-8 by itself.
ghost use Rattle.std.specs.Prelude.{◌≡◌, ◌<◌};
ghost use Rattle.page.specs.Rows.{number_bound};
ghost use Rattle.page.specs.Accepted.{text_right, attribute_text_right, attribute_texts_right, texts_right, first_bad_text};

use crate::lent::Page;
use crate::rows::{
    attribute_count, attribute_name_length, attribute_name_start, first_attribute, name_length,
    name_start, node_count, value_length, value_start,
};
use characters::utf8::is_valid;

// Whether `n` bytes from `start` on lie in the byte text and are UTF-8. No slice is handed in: whether there is one is what is asked.
#[tactic(auto, unfolding(crate::specs::Accepted::text_right, combinators::specs::Part::part, combinators::specs::Choice::and))]
fn is_text(text: &[u8], start: usize, n: usize) -> bool
    ensures { result ≡ text_right text.now start n }
{
    text.get(start..)
        .and_then(|rest| rest.get(..n))
        .is_some_and(is_valid)
}

// Whether the name and the value of an attribute are texts.
#[tactic(auto, unfolding(crate::specs::Accepted::attribute_text_right, combinators::specs::Choice::and))]
fn attribute_text(page: Page<'_>, at: usize) -> bool
    ensures { result ≡ attribute_text_right page.entry.attributes.now page.entry.text.now at }
{
    is_text(
        page.text,
        attribute_name_start(page.attributes, at),
        attribute_name_length(page.attributes, at),
    ) && is_text(
        page.text,
        value_start(page.attributes, at),
        value_length(page.attributes, at),
    )
}

// Whether the names and values of `count` attribute rows from `first` on are texts.
fn attribute_texts(page: Page<'_>, first: usize, count: usize) -> bool
    requires { (first < number_bound) × (count < number_bound) }
    ensures { result ≡ attribute_texts_right page.entry.attributes.now page.entry.text.now count first }
{
    (first..first + count).all(|at| attribute_text(page, at))
}

// Whether a row's name and its attributes' names and values are texts.
#[tactic(auto, unfolding(crate::specs::Accepted::texts_right, combinators::specs::Choice::and))]
fn row_texts(page: Page<'_>, row: usize) -> bool
    ensures { result ≡ texts_right page.entry.nodes.now page.entry.attributes.now page.entry.text.now row }
{
    let first = first_attribute(page.nodes, row);
    let count = attribute_count(page.nodes, row);
    is_text(
        page.text,
        name_start(page.nodes, row),
        name_length(page.nodes, row),
    ) && attribute_texts(page, first, count)
}

// The first row one of whose texts is none.
pub fn first_bad_text(page: Page<'_>) -> Option<usize>
    ensures { result ≡ first_bad_text page.entry.nodes.now page.entry.attributes.now page.entry.text.now }
{
    (0..node_count(page.nodes)).find(|row| !row_texts(page, *row))
}
