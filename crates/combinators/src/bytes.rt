// Tests of bytes. A place past the end of a text reads as 0 and is no `Option`, as in the definitions: no byte that CSS gives a meaning is 0, so a test there
// fails without an arm of its own, and who has to tell the end asks for it.
ghost use Rattle.std.specs.Prelude.{◌≡◌, get_or};
ghost use Rattle.combinators.specs.Choice.{is};
ghost use Rattle.combinators.specs.Word.{starts_with};

// The byte at `i`, or 0 past the end.
pub fn peek(s: &[u8], i: usize) -> u8
    ensures { result ≡ get_or s.now i 0 }
{
    s.get(i).copied().unwrap_or(0)
}

// Whether the byte at `i` is `k`: a comparison, in the word of the definitions, so that no caller has to turn one into the other.
#[tactic(auto, unfolding(crate::specs::Choice::is))]
pub fn byte_is(s: &[u8], i: usize, k: u8) -> bool
    ensures { result ≡ is (get_or s.now i 0) k }
{
    peek(s, i) == k
}

// Whether `s` begins with `word`: the library's, likewise.
pub fn starts_with(s: &[u8], word: &[u8]) -> bool
    ensures { result ≡ starts_with word.now s.now }
{
    s.starts_with(word)
}
