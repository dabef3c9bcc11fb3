// Words, compared byte by byte, and tables of what they stand for. A table is of pairs, or of words that are joined, with their lengths.
ghost use Rattle.std.specs.Prelude.{◌≡◌, Some, None, map};
ghost use Rattle.values.specs.Words.{lookup, on_found, entries, split, word_place};
ghost use Rattle.values.specs.Property.{any_of};

use combinators::texts::part_of;

// Whether `s` is one of the words.
pub fn any_of(s: &[u8], words: &[&str]) -> bool
    ensures { result ≡ any_of s.now (map (λ w. w.now) words.now) }
{
    words.iter().any(|word| s == word.as_bytes())
}

// What `s` stands for by the first row of the table that has it.
pub fn lookup<T: Copy>(s: &[u8], table: &[(&str, T)]) -> Option<T>
    ensures { result ≡ on_found (lookup s.now (entries table.now)) Some None }
{
    table
        .iter()
        .find(|(word, _)| s == word.as_bytes())
        .map(|(_, means)| *means)
}

// The place of `s` among the words that `joined` and `lengths` hold, or their count where it is none of them. A word that would
// run past the end of `joined` ends there. Any bytes are words here, where `lookup` asks for texts.
pub fn place_of(s: &[u8], joined: &[u8], lengths: &[u8]) -> usize
    ensures { result ≡ word_place s.now (split joined.now lengths.now) }
{
    let mut at = 0;
    for (i, length) in lengths.iter().enumerate() {
        let word = part_of(joined, at, usize::from(*length));
        if s == word {
            return i;
        }
        at += word.len();
    }
    lengths.len()
}
