// What readers of selectors, rules and sheets answer, and how what they wrote is taken back.
ghost use Rattle.std.specs.Prelude.{◌≡◌, ◌+◌, ◌^◌, ◌<◌, Ok, Err, IfErr, MatchResult};
ghost use Rattle.combinators.specs.Lent.{SameStores, SameWork};
ghost use Rattle.combinators.specs.Store.{wiped};

use combinators::lent::Stores;
use combinators::stores::fill_part;

// The bytes that a reader takes, how many things it read, how many numbers their rows take and how many bytes their texts. One that does not read
// answers None.
#[derive(Clone, Copy, Debug, PartialEq, Eq)]
pub struct Read {
    pub taken: usize,
    pub count: usize,
    pub numbers: usize,
    pub text: usize,
}

impl Read {
    // Nothing, from which readers of several things go on.
    pub const NOTHING: Read = Read {
        taken: 0,
        count: 0,
        numbers: 0,
        text: 0,
    };
}

// The byte where the crate panics (refusal 4).
#[derive(Clone, Copy, Debug, PartialEq, Eq)]
pub struct Panic {
    pub place: usize,
}

impl Panic {
    // The same panic in a text that starts `n` bytes before.
    pub fn behind(self, n: usize) -> Panic
        requires { n + self.place < 2 ^ 64 }
        ensures { result ≡ record { place = n + self.place } }
    {
        Panic {
            place: n + self.place,
        }
    }
}

// What was answered of the part of a text that starts at its byte `n`, told of the whole: a panic's place is moved.
pub fn moved<T>(answer: Result<T, Panic>, n: usize) -> Result<T, Panic>
    requires { IfErr answer (λ panic. n + panic.place < 2 ^ 64) }
    ensures { MatchResult answer (λ read. result ≡ Ok read) (λ panic. result ≡ Err (record { place = n + panic.place })) }
{
    answer.map_err(|panic| panic.behind(n))
}

// Zeros again where rows and texts were written, of which nothing is kept. What is taken back is told by its places and lengths: of the declarations of a block,
// and of several sheets, there is no Read.
pub fn take_back(stores: &mut Stores<'_>, place: usize, numbers: usize, fill: usize, text: usize)
    ensures same { SameStores stores.old stores.new }
    ensures work_unchanged { SameWork stores.old stores.new }
    ensures rules_after { stores.new.rules.now ≡ wiped place numbers stores.old.rules.now }
    ensures texts_after { stores.new.texts.now ≡ wiped fill text stores.old.texts.now }
{
    fill_part(stores.rules, place, numbers, 0);
    fill_part(stores.texts, fill, text, 0);
}
