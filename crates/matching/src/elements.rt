// What a selector asks of an element: its name, its place among its siblings and its attributes. Names and values asked for are texts, whether rule
// rows or compiled bytes name them.
ghost use Rattle.std.specs.Prelude.{◌≡◌, MatchOption};
ghost use Rattle.combinators.specs.Word.{same_text};
ghost use Rattle.page.specs.Ancestors.{place_of};
ghost use Rattle.page.specs.PathOf.{attributes_from, element_at};
ghost use Rattle.page.specs.Rows.{node_at, name_of, attribute_rows, attribute_value};
ghost use Rattle.matching.specs.Matches.{any_attribute, is_class, is_id, is_named, first_is};
ghost use Rattle.matching.specs.Rows.{attribute_of, Rooted, Rooted-prop};

use crate::texts::has_word;
use combinators::texts::part_of;
use page::ancestors::{element_children, place_among};
use page::lent::Page;
use page::rows::{
    ATTRIBUTE_WIDTH, NODE_WIDTH, attribute_count, attribute_name, attribute_rows, attribute_value,
    first_attribute, name_of, parent_of,
};

// An element of a page, or its document, row 0: a row from which parents lead to the document. On an accepted page they do from every element (law
// `accepted-element`).
#[derive(Clone, Copy)]
pub struct Element<'a> {
    pub page: Page<'a>,
    pub row: usize,
    pub ghost rooted: { Rooted page.nodes.now row } by { Rooted-prop page.nodes.now row },
}

impl<'a> Element<'a> {
    // The row above; above the document there is none.
    pub fn parent(self) -> Option<usize>
        ensures { MatchOption result (self.entry.row ≡ 0) (λ above. (above ≡ (node_at self.entry.page.nodes.now self.entry.row).parent) × ¬ (self.entry.row ≡ 0)) }
    {
        (self.row != 0).then_some(parent_of(self.page.nodes, self.row))
    }

    // Its place among the element children of its parent, counted from the parent on, behind which they stand.
    pub fn place(self) -> usize
        ensures { result ≡ place_of self.entry.page.nodes.now self.entry.row }
    {
        let nodes = self.page.nodes;
        let parent = parent_of(nodes, self.row);
        match nodes.get((parent + 1) * NODE_WIDTH..) {
            Some(behind) if parent < self.row => {
                element_children(behind, parent, self.row - parent)
            }
            _ => place_among(nodes, self.row),
        }
    }

    // Whether it has a name.
    pub fn is_called(self, name: &[u8]) -> bool
        ensures { result ≡ same_text (name_of self.entry.page.nodes.now self.entry.page.text.now self.entry.row) name.now }
    {
        name_of(self.page.nodes, self.page.text, self.row) == name
    }

    // Its attributes.
    pub fn attributes(self) -> Attributes<'a>
        ensures { attributes_from result.rows.now result.text.now result.count 0 ≡ (element_at self.entry.page.nodes.now self.entry.page.attributes.now self.entry.page.text.now self.entry.row).attributes }
    {
        let first = first_attribute(self.page.nodes, self.row);
        let count = attribute_count(self.page.nodes, self.row);
        Attributes {
            rows: part_of(
                self.page.attributes,
                first * ATTRIBUTE_WIDTH,
                count * ATTRIBUTE_WIDTH,
            ),
            text: self.page.text,
            count,
        }
    }
}

// The attributes of an element: their rows, and the text that they name theirs in. `count` is how many the element has: of a page that is not accepted fewer
// rows may be lent, and what is not lent reads as 0, which names an empty text.
#[derive(Clone, Copy)]
pub struct Attributes<'a> {
    pub rows: &'a [u32],
    pub text: &'a [u8],
    pub count: usize,
}

impl<'a> Attributes<'a> {
    // All rows that are lent.
    pub fn of_rows(rows: &'a [u32], text: &'a [u8]) -> Attributes<'a>
        ensures { attributes_from result.rows.now result.text.now result.count 0 ≡ attributes_from rows.now text.now (attribute_rows rows.now) 0 }
    {
        Attributes {
            rows,
            text,
            count: attribute_rows(rows),
        }
    }

    // Whether the attribute in a row has a name. This and the next compare one of its two texts each.
    pub fn is_named(self, row: usize, name: &[u8]) -> bool
        ensures { result ≡ is_named name.now (attribute_of self.entry.rows.now self.entry.text.now row) }
    {
        attribute_name(self.rows, self.text, row) == name
    }

    // Whether it has a value.
    fn has_value(self, row: usize, value: &[u8]) -> bool
        ensures { result ≡ same_text (attribute_value self.entry.rows.now self.entry.text.now row) value.now }
    {
        attribute_value(self.rows, self.text, row) == value
    }

    // Whether it is a `class` and `class` one of its words.
    fn is_class(self, row: usize, class: &[u8]) -> bool
        ensures { result ≡ is_class class.now (attribute_of self.entry.rows.now self.entry.text.now row) }
    {
        self.is_named(row, b"class") && has_word(attribute_value(self.rows, self.text, row), class)
    }

    // Whether it is an `id` and `hash` its value.
    fn is_id(self, row: usize, hash: &[u8]) -> bool
        ensures { result ≡ is_id hash.now (attribute_of self.entry.rows.now self.entry.text.now row) }
    {
        self.is_named(row, b"id") && self.has_value(row, hash)
    }

    // Whether `class` is a word of any `class`. What this and the next two ask of a row is three definitions.
    pub fn has_class(self, class: &[u8]) -> bool
        ensures { result ≡ any_attribute (is_class class.now) (attributes_from self.entry.rows.now self.entry.text.now self.entry.count 0) }
    {
        (0..self.count).any(|row| self.is_class(row, class))
    }

    // Whether any `id` is `hash`.
    pub fn has_id(self, hash: &[u8]) -> bool
        ensures { result ≡ any_attribute (is_id hash.now) (attributes_from self.entry.rows.now self.entry.text.now self.entry.count 0) }
    {
        (0..self.count).any(|row| self.is_id(row, hash))
    }

    // Whether there is an attribute of a name.
    pub fn has_attribute(self, name: &[u8]) -> bool
        ensures { result ≡ any_attribute (is_named name.now) (attributes_from self.entry.rows.now self.entry.text.now self.entry.count 0) }
    {
        (0..self.count).any(|row| self.is_named(row, name))
    }

    // Whether the first attribute of a name has a value. (No `is_some_and`: what its closure ensures does not reach the proof.)
    pub fn attribute_is(self, name: &[u8], value: &[u8]) -> bool
        ensures { result ≡ first_is name.now value.now (attributes_from self.entry.rows.now self.entry.text.now self.entry.count 0) }
    {
        let Some(row) = (0..self.count).find(|row| self.is_named(*row, name)) else {
            return false;
        };
        self.has_value(row, value)
    }
}
