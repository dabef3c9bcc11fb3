// Keywords: the first name of a value that a table has, or its only token.
ghost use Rattle.std.specs.Prelude.{◌≡◌, ◌*◌, Some, None, [], ◌∷◌};
ghost use Rattle.lexer.specs.TokenRow.{token_width};
ghost use Rattle.syntax.specs.Layout.{overflow_number, white_space_number};
ghost use Rattle.values.specs.Words.{on_found, entries};
ghost use Rattle.values.specs.Property.{first_word, overflow_of, display_of, white_space_of, visibility_of};
ghost use Rattle.values.specs.View.{token_here};
ghost use Rattle.values.specs.Tokens.{value_tokens};
ghost use Rattle.values.specs.KeywordAnswer.{overflow_meant, white_space_meant, overflow_answer, white_space_word};

use crate::tokens::Tokens;
use crate::words::lookup;
use lexer::rows::IDENT;
use syntax::rows::{
    OVERFLOW_AUTO, OVERFLOW_HIDDEN, OVERFLOW_SCROLL, OVERFLOW_VISIBLE, WHITE_SPACE_NORMAL,
    WHITE_SPACE_PRE, WHITE_SPACE_PRE_WRAP,
};

// What `overflow` may be.
#[derive(Clone, Copy)]
pub enum Overflow {
    Visible,
    Hidden,
    Scroll,
    Auto,
}

// What `white-space` may be.
#[derive(Clone, Copy)]
pub enum WhiteSpace {
    Normal,
    Pre,
    PreWrap,
}

// Their numbers in rows.
impl From<Overflow> for u32 {
    ghost from_gives = { λ overflow number. number ≡ overflow_number (overflow_meant overflow) };

    #[tactic(auto, unfolding(crate::specs::KeywordAnswer::overflow_meant, syntax::specs::Layout::overflow_number))]
    fn from(overflow: Overflow) -> u32 {
        match overflow {
            Overflow::Visible => OVERFLOW_VISIBLE,
            Overflow::Hidden => OVERFLOW_HIDDEN,
            Overflow::Scroll => OVERFLOW_SCROLL,
            Overflow::Auto => OVERFLOW_AUTO,
        }
    }
}

impl From<WhiteSpace> for u32 {
    ghost from_gives = { λ white_space number. number ≡ white_space_number (white_space_meant white_space) };

    #[tactic(auto, unfolding(crate::specs::KeywordAnswer::white_space_meant, syntax::specs::Layout::white_space_number))]
    fn from(white_space: WhiteSpace) -> u32 {
        match white_space {
            WhiteSpace::Normal => WHITE_SPACE_NORMAL,
            WhiteSpace::Pre => WHITE_SPACE_PRE,
            WhiteSpace::PreWrap => WHITE_SPACE_PRE_WRAP,
        }
    }
}

// Keywords, and what they stand for.
const OVERFLOWS: [(&str, Overflow); 4] = [
    ("visible", Overflow::Visible),
    ("hidden", Overflow::Hidden),
    ("scroll", Overflow::Scroll),
    ("auto", Overflow::Auto),
];

const DISPLAYS: [(&str, bool); 1] = [("none", true)];

const WHITE_SPACES: [(&str, WhiteSpace); 3] = [
    ("normal", WhiteSpace::Normal),
    ("pre", WhiteSpace::Pre),
    ("pre-wrap", WhiteSpace::PreWrap),
];

const VISIBILITIES: [(&str, bool); 2] = [("visible", false), ("hidden", true)];

// What a token that is a name stands for in a table.
fn word_at<T: Copy>(tokens: Tokens, i: usize, table: &[(&str, T)]) -> Option<T>
    ensures { result ≡ on_found (first_word (entries table.now) (token_here tokens.entry.rows.now tokens.entry.store.now (i * token_width) ∷ [])) Some None }
{
    if tokens.is_kind(i, IDENT) {
        lookup(tokens.text(i), table)
    } else {
        None
    }
}

// What the first name of a value that a table has stands for there.
fn first_word<T: Copy>(tokens: Tokens, table: &[(&str, T)]) -> Option<T>
    ensures { result ≡ on_found (first_word (entries table.now) (value_tokens tokens.entry)) Some None }
{
    (0..tokens.count()).find_map(|i| word_at(tokens, i, table))
}

// The overflow that a value names first.
pub fn parse_overflow(tokens: Tokens) -> Option<Overflow>
    ensures { result ≡ overflow_answer (overflow_of (value_tokens tokens.entry)) }
{
    first_word(tokens, &OVERFLOWS)
}

// Whether a value names `none`.
pub fn parse_display(tokens: Tokens) -> bool
    ensures { result ≡ display_of (value_tokens tokens.entry) }
{
    first_word(tokens, &DISPLAYS).unwrap_or(false)
}

// The white space that a value names first; `normal` where it names none.
pub fn parse_white_space(tokens: Tokens) -> WhiteSpace
    ensures { result ≡ white_space_word (white_space_of (value_tokens tokens.entry)) }
{
    first_word(tokens, &WHITE_SPACES).unwrap_or(WhiteSpace::Normal)
}

// Whether a value of exactly one word hides.
pub fn parse_visibility(tokens: Tokens) -> Option<bool>
    ensures { result ≡ on_found (visibility_of (value_tokens tokens.entry)) Some None }
{
    if tokens.count() != 1 {
        return None;
    }
    word_at(tokens, 0, &VISIBILITIES)
}
