// White_Space at the start of a text, and the word that it begins with. (Calls of their own: most texts are ASCII, of which matching::texts counts the bytes itself. As
// parts of that they make it too large to be a part of what looks for a word.)
ghost use Rattle.std.specs.Prelude.{◌≡◌, ◌≤◌, length};
ghost use Rattle.combinators.specs.Repeat.{many};
ghost use Rattle.characters.specs.Trim.{white_taken, word_taken};

use crate::utf8::scalar_at;
use crate::white_space::is_white_space;

// How many bytes of White_Space `s` begins with. A step, here and below, is what a character takes, so this is no range.
#[inline(never)]
pub fn trim_start(s: &[u8]) -> usize
    ensures value { result ≡ many white_taken 0 0 s.now }
    ensures upper_bound { result ≤ length s.now }
{
    let mut i = 0;
    while let Some(c) = scalar_at(&s[i..])
        && is_white_space(c.value as u32)
    {
        i += c.taken;
    }
    i
}

// How many bytes of `s` stand before the first White_Space character, or the end of the text. A byte that begins no well-formed
// character counts as one.
#[inline(never)]
pub fn word_end(s: &[u8]) -> usize
    ensures value { result ≡ many word_taken 0 0 s.now }
    ensures upper_bound { result ≤ length s.now }
{
    let mut i = 0;
    while i < s.len() {
        match scalar_at(&s[i..]) {
            Some(c) if is_white_space(c.value as u32) => break,
            Some(c) => i += c.taken,
            None => i += 1,
        }
    }
    i
}
