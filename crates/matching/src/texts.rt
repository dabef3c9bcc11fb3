// The texts of a page: words, parted by White_Space.
ghost use Rattle.std.specs.Prelude.{◌≡◌, ◌≤◌, MatchOption, length};
ghost use Rattle.combinators.specs.Repeat.{many};
ghost use Rattle.characters.specs.Trim.{white_taken, word_taken};
ghost use Rattle.matching.specs.Texts.{NoWord, FirstWord, has_word};

use characters::trim::{trim_start, word_end};

const SPACE: u8 = 0x20;

// How many bytes of White_Space `s` begins with. A visible ASCII character is a character of a word by itself. Where more than these and spaces are met,
// what is left is decoded.
pub fn white_space_length(s: &[u8]) -> usize
    ensures value { result ≡ many white_taken 0 0 s.now }
    ensures upper_bound { result ≤ length s.now }
{
    for (i, b) in s.iter().enumerate() {
        if b.is_ascii_graphic() {
            return i;
        }
        if *b != SPACE {
            return i + trim_start(&s[i..]);
        }
    }
    s.len()
}

// How many bytes the word has that `s` begins with; they are decoded likewise.
pub fn word_length(s: &[u8]) -> usize
    ensures value { result ≡ many word_taken 0 0 s.now }
    ensures upper_bound { result ≤ length s.now }
{
    for (i, b) in s.iter().enumerate() {
        if b.is_ascii_graphic() {
            continue;
        }
        if *b == SPACE {
            return i;
        }
        return i + word_end(&s[i..]);
    }
    s.len()
}

// The first of the words that White_Space parts in `s` (`str::split_whitespace`), and what is left behind it.
pub fn split_word(s: &[u8]) -> Option<(&[u8], &[u8])>
    ensures { MatchOption result (NoWord s.now) (λ split. FirstWord s.now split.0.now split.1.now) }
{
    let trimmed = &s[white_space_length(s)..];
    let n = word_length(trimmed);
    (n != 0).then_some(trimmed.split_at(n))
}

// Whether `word` is one of the words. A `while`: a step leaves what stands behind a word.
pub fn has_word(s: &[u8], word: &[u8]) -> bool
    ensures { result ≡ has_word word.now s.now }
{
    let mut left = s;
    while let Some((first, rest)) = split_word(left) {
        if first == word {
            return true;
        }
        left = rest;
    }
    false
}
