// A page, as it is lent to be read.
ghost use Rattle.std.specs.Prelude.{◌≡◌, ◌+◌, ◌*◌, length};
ghost use Rattle.combinators.specs.LeastLengths.{stores_suffice};
ghost use Rattle.page.specs.Rows.{attribute_rows};

use crate::rows::attribute_rows;
use combinators::lent::Stores;

// An attribute asks for so many bytes of stores beside those of its value.
pub const ATTRIBUTE_MORE: usize = 2;

// Rows of nodes and of attributes, and the text that they name their texts in (document 01, "The page").
#[derive(Clone, Copy)]
pub struct Page<'a> {
    pub nodes: &'a [u32],
    pub attributes: &'a [u32],
    pub text: &'a [u8],
}

impl Page<'_> {
    // Whether stores suffice for its text, its attributes and some bytes beside. Lists and texts that are lent may be of any length: a sum that cannot be counted is more
    // than the brackets, which need a byte for each.
    pub fn fits(self, beside: usize, stores: &Stores<'_>) -> bool
        ensures { result
            ≡ stores_suffice (beside + 2 * attribute_rows self.entry.attributes.now + length self.entry.text.now) (length stores.now.rules.now) (length stores.now.tokens.now) (length stores.now.brackets.now) (length stores.now.texts.now) }
    {
        let own = ATTRIBUTE_MORE * attribute_rows(self.attributes);
        stores.suffice(beside.saturating_add(own).saturating_add(self.text.len()))
    }
}
