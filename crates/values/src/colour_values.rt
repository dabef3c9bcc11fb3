// Values read from token rows: colours.
ghost use Rattle.std.specs.Prelude.{◌≡◌, ◌≤◌, ◌*◌, [], ◌∷◌};
ghost use Rattle.lexer.specs.TokenRow.{token_width};
ghost use Rattle.values.specs.Colour.{colour_of, background_of};
ghost use Rattle.values.specs.ColourAnswer.{colour_answer};
ghost use Rattle.values.specs.View.{token_here, tokens_at, token_count};
ghost use Rattle.values.specs.Tokens.{value_tokens};
ghost use Rattle.values.specs.ColourRows.{rgb_count, rgb_name, number_before, rgb_kinds, rgb_here, last_part};

use crate::colours::{hash_colour, named_colour, rgb_colour};
use crate::tokens::Tokens;
use lexer::rows::{CLOSE_ROUND, COMMA, FUNCTION, HASH, IDENT, NUMBER, TOKEN_WIDTH};

// The tokens of a call of `rgb`: its name, its arguments with a comma between them, and the closing bracket.
const RGB_TOKENS: usize = 7;

const RED: usize = 1;

const FIRST_COMMA: usize = 2;

const GREEN: usize = 3;

const SECOND_COMMA: usize = 4;

const BLUE: usize = 5;

const CLOSING: usize = 6;

// The colour of one token.
fn one_token(tokens: Tokens) -> Option<u32>
    ensures { result ≡ colour_answer (colour_of (token_here tokens.entry.rows.now tokens.entry.store.now 0 ∷ [])) }
{
    let text = tokens.text(0);
    if tokens.is_kind(0, IDENT) {
        named_colour(text)
    } else if tokens.is_kind(0, HASH) {
        hash_colour(text)
    } else {
        None
    }
}

// Whether the first token is `rgb(`.
fn is_rgb(tokens: Tokens) -> bool
    ensures { result ≡ rgb_name tokens.entry.rows.now tokens.entry.store.now }
{
    tokens.is_kind(0, FUNCTION) && tokens.text(0) == "rgb".as_bytes()
}

// Whether the token `i` is a number and the token `next` of a kind.
fn is_number_before(tokens: Tokens, i: usize, next: usize, kind: u32) -> bool
    ensures { result ≡ number_before tokens.entry.rows.now (i * token_width) (next * token_width) kind }
{
    tokens.is_kind(i, NUMBER) && tokens.is_kind(next, kind)
}

// Whether three numbers parted by commas and a closing bracket follow it.
fn is_rgb_list(tokens: Tokens) -> bool
    ensures { result ≡ rgb_kinds tokens.entry.rows.now }
{
    is_number_before(tokens, RED, FIRST_COMMA, COMMA)
        && is_number_before(tokens, GREEN, SECOND_COMMA, COMMA)
        && is_number_before(tokens, BLUE, CLOSING, CLOSE_ROUND)
}

// The colour of the three numbers.
fn rgb_value(tokens: Tokens) -> Option<u32>
    ensures { result ≡ colour_answer (rgb_here tokens.entry.rows.now tokens.entry.store.now) }
{
    rgb_colour(tokens.text(RED), tokens.text(GREEN), tokens.text(BLUE))
}

// The colour of the tokens of `rgb(` three numbers parted by commas `)`.
fn rgb_tokens(tokens: Tokens) -> Option<u32>
    ensures { result ≡ colour_answer (colour_of (tokens_at tokens.entry.rows.now tokens.entry.store.now rgb_count)) }
{
    if is_rgb(tokens) && is_rgb_list(tokens) {
        rgb_value(tokens)
    } else {
        None
    }
}

// The colour of a value.
pub fn parse_color(tokens: Tokens) -> Option<u32>
    ensures { result ≡ colour_answer (colour_of (value_tokens tokens.entry)) }
{
    match tokens.count() {
        1 => one_token(tokens),
        RGB_TOKENS => rgb_tokens(tokens),
        _ => None,
    }
}

// The number of the first token behind the last comma; without one the list begins at 0.
fn behind_comma(tokens: Tokens) -> usize
    ensures value { result ≡ last_part tokens.entry.rows.now (token_count tokens.entry.rows.now) }
    ensures upper_bound { result ≤ token_count tokens.entry.rows.now }
{
    (0..tokens.count())
        .rfind(|i| tokens.is_kind(*i, COMMA))
        .map_or(0, |i| i + 1)
}

// The colour of what stands behind the last comma.
pub fn parse_background_color(tokens: Tokens) -> Option<u32>
    ensures { result ≡ colour_answer (background_of (value_tokens tokens.entry)) }
{
    let start = behind_comma(tokens);
    parse_color(Tokens {
        rows: &tokens.rows[start * TOKEN_WIDTH..],
        ..tokens
    })
}
