// White space and comments at the start of a text: how many bytes they take.
ghost use Rattle.std.specs.Prelude.{◌≡◌, ◌+◌, ◌≤◌, length, drop};
ghost use Rattle.lexer.specs.Taken.{taken_answer};
ghost use Rattle.lexer.specs.Whitespace.{comment_end, comment_of, is_whitespace, whitespace_item, skip_whitespace};

use combinators::bytes::peek;

// Where the comment ends of which `s` is what follows "/*", those two bytes counted.
fn comment_end(s: &[u8]) -> Option<usize>
    ensures { result ≡ taken_answer (comment_end 2 s.now) }
{
    let i = s.windows(2).position(|pair| pair == b"*/".as_slice())?;
    Some(i + 4) // "/*", i bytes, and "*/"
}

// The bytes of the comment that `s` begins with.
pub fn match_comment(s: &[u8]) -> Option<usize>
    ensures { result ≡ taken_answer (comment_of s.now) }
{
    comment_end(s.strip_prefix(b"/*")?)
}

// Whether `b` is white space: the library's, in the word of the definitions.
#[tactic(auto, unfolding(crate::specs::Whitespace::is_whitespace, combinators::specs::Choice::or, combinators::specs::Choice::is))]
fn is_whitespace(b: u8) -> bool
    ensures { result ≡ is_whitespace b }
{
    b.is_ascii_whitespace()
}

// The bytes of the character of white space or the comment that `s` begins with.
#[tactic(auto, unfolding(crate::specs::Whitespace::whitespace_item, crate::specs::Taken::taken_answer, combinators::specs::Choice::pick, combinators::specs::Choice::is))]
pub fn match_whitespace_item(s: &[u8]) -> Option<usize>
    ensures { result ≡ taken_answer (whitespace_item s.now) }
{
    if is_whitespace(peek(s, 0)) {
        Some(1)
    } else {
        match_comment(s)
    }
}

// How many bytes of white space and comments `s` begins with. A step is what an item takes, so this is no range.
pub fn skip_optional_whitespace(s: &[u8]) -> usize
    ensures value { result ≡ skip_whitespace s.now }
    ensures upper_bound { result ≤ length s.now }
{
    let mut i = 0;
    while let Some(n) = match_whitespace_item(&s[i..]) {
        i += n;
    }
    i
}

// The place behind white space and comments that stand from `at` on.
pub fn skip_from(s: &[u8], at: usize) -> usize
    requires { at ≤ length s.now }
    ensures value { result ≡ at + skip_whitespace (drop at s.now) }
    ensures upper_bound { result ≤ length s.now }
{
    at + skip_optional_whitespace(&s[at..])
}
