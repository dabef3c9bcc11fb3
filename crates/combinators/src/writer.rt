// A writer of bytes. It asks for no room: what does not fit is left out, and the fill then stands one above the length.
ghost use Rattle.std.specs.Prelude.{◌≡◌, [], ◌∷◌};
ghost use Rattle.combinators.specs.Store.{emits};
ghost use Rattle.combinators.specs.Writer.{written, SameStore};

use crate::stores::{emit, emit_all};

// A lent store, and how far it is filled. It is one of bytes: of any elements it would owe at each call that there are fewer than 2^63 of them, and what writes rows of numbers is told a
// place in a store that it shares with others. A function that is lent one says that its store stays the same slice (`SameStore`), so that who lent the slice finds there what was written.
#[derive(Drop)]
pub struct Writer<'a> {
    pub store: &'a mut [u8],
    pub fill: usize,
}

impl Writer<'_> {
    // One byte. This and the next only hand on the store and its fill, each to the function of its name: a byte and a text share no more.
    pub fn emit(&mut self, b: u8)
        ensures same_store { SameStore self.old self.new }
        ensures written { written self.new ≡ emits (written self.old) (b ∷ []) }
    {
        self.fill = emit(b, self.store, self.fill);
    }

    // All bytes of `s`, one behind the other.
    pub fn emit_all(&mut self, s: &[u8])
        ensures same_store { SameStore self.old self.new }
        ensures written { written self.new ≡ emits (written self.old) s.now }
    {
        self.fill = emit_all(s, self.store, self.fill);
    }
}
