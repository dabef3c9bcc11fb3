// A style in numbers, as rows, compiled bytes and slots have it.
ghost use Rattle.std.specs.Prelude.{◌≡◌, drop};
ghost use Rattle.syntax.specs.Layout.{numbers_at, row_of_numbers};

use crate::rows::{
    FLAG_TRUE, STYLE_IMPORTANT, STYLE_NUMBER, STYLE_SECOND, STYLE_SLOT, STYLE_START, STYLE_WIDTH,
    flag_of,
};
use combinators::stores::number_at;

// What a style gives its slot: a number, and a second one, which of a content are where its text starts and how long it is; and the byte where
// the declaration starts that asks for it.
#[derive(Clone, Copy)]
pub struct Value {
    pub number: u32,
    pub second: u32,
    pub start: u32,
}

// A style: its slot, whether it is important, and what it gives the slot.
#[derive(Clone, Copy)]
pub struct StyleNumbers {
    pub slot: u32,
    pub important: bool,
    pub value: Value,
}

impl StyleNumbers {
    // Its row.
    #[tactic(auto, unfolding(crate::specs::Layout::row_of_numbers, crate::specs::Layout::value_numbers))]
    pub fn row(self) -> [u32; STYLE_WIDTH]
        ensures { result ≡ row_of_numbers self }
    {
        let value = self.value;
        [
            self.slot,
            flag_of(self.important),
            value.number,
            value.second,
            value.start,
        ]
    }
}

// The style whose row starts at `at`, whatever numbers stand there. It is told a place, 0 where the row is cut already: who is handed a place in lent
// rows, and asked for no room there, may stand behind their end, where all numbers are 0.
pub fn style_at(rows: &[u32], at: usize) -> StyleNumbers
    ensures { result ≡ numbers_at (drop at rows.now) }
{
    StyleNumbers {
        slot: number_at(rows, at, STYLE_SLOT),
        important: number_at(rows, at, STYLE_IMPORTANT) == FLAG_TRUE,
        value: Value {
            number: number_at(rows, at, STYLE_NUMBER),
            second: number_at(rows, at, STYLE_SECOND),
            start: number_at(rows, at, STYLE_START),
        },
    }
}
