// What was read of a text, of whatever type.
ghost use Rattle.std.specs.Prelude.{◌≡◌, ◌<◌, ◌+◌, ◌^◌};

// A value that a text begins with, and how many bytes it takes.
#[derive(Clone, Copy, Debug, PartialEq, Eq)]
pub struct Taken<T> {
    pub taken: usize,
    pub value: T,
}

impl<T> Taken<T> {
    // The same, of a text that begins `n` bytes before.
    pub fn behind(self, n: usize) -> Taken<T>
        requires { n + self.taken < 2 ^ 64 }
        ensures { result ≡ record { taken = n + self.taken; value = self.value } }
    {
        Taken {
            taken: n + self.taken,
            value: self.value,
        }
    }
}
