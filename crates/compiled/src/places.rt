// What a reader answers: what was read, with the place behind it, or where the bytes are at fault.
ghost use Rattle.std.specs.Prelude.{◌≡◌};
ghost use Rattle.combinators.specs.Refusal.{refused_at, bad_bytes};

use combinators::refusals::{BAD_BYTES, Refusal, refused_at};

// Where the number or the text that fails starts, or the first byte left over.
#[derive(Clone, Copy, Debug, PartialEq, Eq)]
pub struct Fault {
    pub place: usize,
}

// A value that was read, and the place behind it. It is no `Taken`, which counts bytes from where a text begins: faults are told by their places in the sheet, so
// a reader is lent the whole of it.
#[derive(Clone, Copy, PartialEq, Eq)]
pub struct Read<T> {
    pub next: usize,
    pub value: T,
}

impl<T> Read<T> {
    // What `make` makes of the value, with the same place behind it.
    pub fn map<U, F: FnOnce(T) -> U>(self, make: F) -> Read<U>
        requires { F.pre make self.value }
        ensures next { result.next ≡ self.next }
        ensures value { F.post make self.value result.value }
    {
        Read {
            next: self.next,
            value: make(self.value),
        }
    }
}

impl From<Fault> for Refusal {
    ghost from_gives = { λ fault refusal. refusal ≡ refused_at bad_bytes fault.place };

    fn from(fault: Fault) -> Refusal {
        refused_at(BAD_BYTES, fault.place)
    }
}
