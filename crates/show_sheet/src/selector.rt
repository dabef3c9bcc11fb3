// Selectors as text, from their rows.
use crate::rows::cut;
use crate::text::Name;
use combinators::stores::number_at;
use combinators::texts::part_of;
use std::fmt;
use streams::Quoted;
use syntax::rows::{
    ATTRIBUTE, ATTRIBUTE_EQUAL, CHILD, CLASS, COMPONENT_FIRST, COMPONENT_KIND, COMPONENT_SECOND,
    COMPONENT_TEXT, COMPONENT_WIDTH, DESCENDANT, ELEMENT, HASH, NTH, PSEUDO_AFTER, PSEUDO_BEFORE,
    SELECTOR_COMPONENTS, SELECTOR_HEAD, SELECTOR_PSEUDO, STAR,
};

/// A selector, of which the components are rows and have their texts in a store.
#[derive(Clone, Copy)]
pub struct Selector<'a> {
    components: &'a [[u32; COMPONENT_WIDTH]],
    pseudo: u32,
    texts: &'a [u8],
}

impl<'a> Selector<'a> {
    /// The selector whose numbers are the first of the rows, and the rows behind it.
    pub fn cut(rows: &'a [u32], texts: &'a [u8]) -> (Self, &'a [u32]) {
        let count = number_at(rows, 0, SELECTOR_COMPONENTS) as usize;
        let pseudo = number_at(rows, 0, SELECTOR_PSEUDO);
        let (_, behind_head) = cut(rows, SELECTOR_HEAD);
        let (components, rest) = cut(behind_head, count * COMPONENT_WIDTH);
        let (components, _) = components.as_chunks::<COMPONENT_WIDTH>();
        let selector = Selector {
            components,
            pseudo,
            texts,
        };
        (selector, rest)
    }
}

impl fmt::Display for Selector<'_> {
    fn fmt<W: fmt::Write>(&self, f: &mut fmt::Formatter<W>) -> fmt::Result {
        let texts = self.texts;
        for row in self.components {
            write!(f, "{}", Component { row: *row, texts })?;
        }
        match self.pseudo {
            PSEUDO_BEFORE => f.write_str("::before"),
            PSEUDO_AFTER => f.write_str("::after"),
            _ => Ok(()),
        }
    }
}

// The rows are lent numbers by the project's rule, so that a kind stays the number that `syntax::rows` names.
#[derive(Clone, Copy)]
struct Component<'a> {
    row: [u32; COMPONENT_WIDTH],
    texts: &'a [u8],
}

impl fmt::Display for Component<'_> {
    fn fmt<W: fmt::Write>(&self, f: &mut fmt::Formatter<W>) -> fmt::Result {
        let start = self.row[COMPONENT_TEXT] as usize;
        let first = self.row[COMPONENT_FIRST];
        let second = self.row[COMPONENT_SECOND];
        let name = part_of(self.texts, start, first as usize);
        let value = part_of(self.texts, start + first as usize, second as usize);
        match self.row[COMPONENT_KIND] {
            STAR => f.write_str("*"),
            CLASS => write!(f, ".{}", Name(name)),
            ELEMENT => write!(f, "{}", Name(name)),
            HASH => write!(f, "#{}", Name(name)),
            CHILD => f.write_str(" > "),
            DESCENDANT => f.write_str(" "),
            NTH => write!(f, ":nth-child({}n{:+})", signed(first), signed(second)),
            ATTRIBUTE => write!(f, "[{}]", Name(name)),
            ATTRIBUTE_EQUAL => write!(f, "[{}={}]", Name(name), Quoted(value)),
            _ => Ok(()),
        }
    }
}

// A number with a sign, which is stored as 2v, or as -2v-1 where it is negative. As `signed_of` of matching: for that alone the program would stand on three crates more.
fn signed(n: u32) -> i64 {
    let half = i64::from(n / 2);
    if n % 2 == 0 { half } else { -half - 1 }
}
