// A question: a call with its arguments, and the bytes and numbers that are lent to read. Those lie one behind the other, by the lengths among the
// arguments: of a page its nodes and attributes, and its text.
use crate::calls::{ARGUMENTS, COMPONENTS, Call, FIRST, NAMES, SECOND, SHEET, THIRD};
use crate::stream::Stream;
use combinators::texts::part_of;

#[derive(Clone, Copy)]
pub struct Question<'a> {
    pub call: Call,
    arguments: [u32; ARGUMENTS],
    input: &'a [u8],
    numbers: &'a [u32],
}

impl<'a> Question<'a> {
    /// The question whose arguments come next.
    pub fn read(
        stream: &mut Stream<'_>,
        call: Call,
        input: &'a [u8],
        numbers: &'a [u32],
    ) -> Question<'a> {
        let count = stream.number();
        // where a vector gives fewer, those that are missing are the numbers behind the list
        let mut given = *stream;
        let mut arguments = [0; ARGUMENTS];
        for slot in &mut arguments {
            *slot = given.number();
        }
        for _ in 0..count {
            stream.number();
        }
        Question {
            call,
            arguments,
            input,
            numbers,
        }
    }

    /// The argument that has `k` before it.
    pub fn number(&self, k: usize) -> u32 {
        self.arguments.get(k).copied().unwrap_or(0)
    }

    pub fn length(&self, k: usize) -> usize {
        self.number(k) as usize
    }

    /// As much of a buffer as the vector lends, or all of it where that is less.
    pub fn lent<'b, T>(&self, k: usize, buffer: &'b mut [T]) -> &'b mut [T] {
        let n = self.length(k).min(buffer.len());
        &mut buffer[..n]
    }

    // ---- what is lent to read: each names where it lies, which no caller should

    /// The first text, of a call with sheets, an attribute, a height or compiled bytes.
    pub fn text(&self) -> &'a [u8] {
        part_of(self.input, 0, self.length(FIRST))
    }

    /// Three sheets from `start` on, whose lengths are the arguments from `k` on.
    pub fn sheets(&self, start: usize, k: usize) -> [&'a [u8]; 3] {
        let agent = self.length(k);
        let user = self.length(k.saturating_add(1));
        let author = self.length(k.saturating_add(2));
        let user_start = start.saturating_add(agent);
        let author_start = user_start.saturating_add(user);
        [
            part_of(self.input, start, agent),
            part_of(self.input, user_start, user),
            part_of(self.input, author_start, author),
        ]
    }

    pub fn nodes(&self) -> &'a [u32] {
        part_of(self.numbers, 0, self.length(FIRST))
    }

    pub fn attributes(&self) -> &'a [u32] {
        part_of(self.numbers, self.length(FIRST), self.length(SECOND))
    }

    /// The text of the page.
    pub fn page(&self) -> &'a [u8] {
        part_of(self.input, 0, self.length(THIRD))
    }

    /// Components of a selector, behind the attributes.
    pub fn components(&self) -> &'a [u32] {
        let start = self.length(FIRST).saturating_add(self.length(SECOND));
        part_of(self.numbers, start, self.length(COMPONENTS))
    }

    /// Their texts, behind the page's; or a sheet, which lies there too.
    pub fn names(&self) -> &'a [u8] {
        part_of(self.input, self.length(THIRD), self.length(NAMES))
    }

    /// The compiled sheet of a run, behind the page.
    pub fn compiled(&self) -> &'a [u8] {
        part_of(self.input, self.length(THIRD), self.length(SHEET))
    }
}
