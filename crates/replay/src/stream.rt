// The bytes of vectors: numbers, which are groups of seven bits, highest first, the top bit set on all but the last; and texts, a length and so many
// bytes. What is past the end reads as nothing, so that every reader answers.

// A group has seven bits, and the top bit says that another follows.
const GROUP: u32 = 128;

const TOP: u8 = 128;

// What is kept of a number before a group is added: so much that the sum has 32 bits.
const KEPT: u32 = 0x0200_0000;

/// The bytes that are left to read.
#[derive(Clone, Copy)]
pub struct Stream<'a> {
    rest: &'a [u8],
}

impl<'a> Stream<'a> {
    pub fn new(bytes: &'a [u8]) -> Self {
        Stream { rest: bytes }
    }

    pub fn is_empty(&self) -> bool {
        self.rest.is_empty()
    }

    pub fn len(&self) -> usize {
        self.rest.len()
    }

    pub fn number(&mut self) -> u32 {
        let mut value = 0;
        // a number ends with a group that says so, or with the bytes
        while let Some((byte, rest)) = self.rest.split_first() {
            self.rest = rest;
            value = value % KEPT * GROUP + u32::from(*byte % TOP);
            if *byte < TOP {
                break;
            }
        }
        value
    }

    /// A number that may be anything, which is written as 0, or else is written as the number one higher.
    pub fn expected(&mut self) -> Option<u32> {
        self.number().checked_sub(1)
    }

    pub fn byte(&mut self) -> u8 {
        let Some((byte, rest)) = self.rest.split_first() else {
            return 0;
        };
        self.rest = rest;
        *byte
    }

    /// So many bytes, or as many as there are.
    pub fn bytes(&mut self, size: usize) -> &'a [u8] {
        let (bytes, rest) = self.rest.split_at(size.min(self.rest.len()));
        self.rest = rest;
        bytes
    }

    /// A text, of any bytes.
    pub fn words(&mut self) -> &'a [u8] {
        let size = self.number() as usize;
        self.bytes(size)
    }
}
