// A window over standard input, so that any number of vectors can be read.
ghost use Rattle.std.specs.Prelude.{◌≤◌};
ghost use Rattle.replay.specs.declared.window.TheConstants.{WINDOW};

use std::io::Read;
use streams::read_full;

// A window's bytes. A vector that starts in its first half ends in it: none has as many bytes as a half.
const WINDOW: usize = 65536;

const HALF: usize = WINDOW / 2;

/// The bytes of the window, how far they are read, and how many there are: an array, of which the front is held, for the programs too have fixed memory.
#[derive(Drop)]
pub struct Window {
    bytes: [u8; WINDOW],
    at: usize,
    held: usize,
    ghost read: { at ≤ held },
    ghost filled: { held ≤ WINDOW },
}

impl Window {
    pub fn new() -> Self {
        Window {
            bytes: [0; WINDOW],
            at: 0,
            held: 0,
        }
    }

    /// The bytes that are not yet read.
    pub fn rest(&self) -> &[u8] {
        &self.bytes[self.at..self.held]
    }

    /// Goes on to the last `left` bytes of the window.
    pub fn leave(&mut self, left: usize) {
        self.at = self.held - left.min(self.held);
    }

    /// Moves the window on, if it is read to its second half: what is left goes to the front, and the window is filled up.
    pub fn move_on<R: Read>(&mut self, input: &mut R) {
        if self.at >= HALF {
            self.fill(input);
        }
    }

    pub fn fill<R: Read>(&mut self, input: &mut R) {
        let left = self.held - self.at;
        self.bytes.copy_within(self.at..self.held, 0);
        let more = read_full(input, &mut self.bytes[left..]);
        self.at = 0;
        self.held = left + more;
    }
}
