// What token rows say.
ghost use Rattle.std.specs.Prelude.{◌≡◌, ◌+◌, ◌*◌, ◌^◌, ◌<◌, ◌≤◌, List, ℕ, length, get_or};
ghost use Rattle.combinators.specs.Choice.{is};
ghost use Rattle.lexer.specs.TokenRow.{token_width, kind_column};
ghost use Rattle.values.specs.Words.{is_delim, is_word};
ghost use Rattle.values.specs.View.{token_here, tokens_at, first_text, token_count};
ghost use Rattle.values.specs.Tokens.{value_tokens};

use combinators::stores::number_at;
use combinators::texts::part_of;
use lexer::rows::{DELIM, IDENT, TOKEN_FIRST, TOKEN_KIND, TOKEN_START, TOKEN_WIDTH};

// The tokens of a value: their rows, and the store of their texts. What stands behind the last whole row is no token. Numbers and no rows of five:
// the definitions read a list of numbers, from any place in it.
#[derive(Clone, Copy)]
pub struct Tokens<'a> {
    pub rows: &'a [u32],
    pub store: &'a [u8],
}

// A token is told by its number. Behind the rows all numbers are 0.
impl<'a> Tokens<'a> {
    // The first `count` tokens of lent rows, which go on behind them.
    pub fn first(rows: &'a [u32], count: usize, store: &'a [u8]) -> Tokens<'a>
        requires { token_width * count ≤ length rows.now }
        ensures { value_tokens result ≡ tokens_at rows.now store.now count }
    {
        Tokens {
            rows: &rows[..TOKEN_WIDTH * count],
            store,
        }
    }

    // How many there are.
    #[tactic(auto, unfolding(crate::specs::View::token_count))]
    pub fn count(self) -> usize
        ensures { result ≡ token_count self.entry.rows.now }
    {
        self.rows.len() / TOKEN_WIDTH
    }

    // The number in a column of a token's row.
    fn number(self, i: usize, column: usize) -> u32
        ensures { result ≡ get_or self.entry.rows.now (i * token_width + column) 0 }
    {
        number_at(self.rows, i.saturating_mul(TOKEN_WIDTH), column)
    }

    // The same as a place or a length.
    pub fn place(self, i: usize, column: usize) -> usize
        ensures value { result ≡ get_or self.entry.rows.now (i * token_width + column) 0 }
        ensures upper_bound { result < 2 ^ 32 }
    {
        self.number(i, column) as usize
    }

    // Whether a token is of a kind.
    #[tactic(auto, unfolding(combinators::specs::Choice::is))]
    pub fn is_kind(self, i: usize, kind: u32) -> bool
        ensures { result ≡ is (get_or self.entry.rows.now (i * token_width + kind_column) 0) kind }
    {
        self.number(i, TOKEN_KIND) == kind
    }

    // The text of a token.
    pub fn text(self, i: usize) -> &'a [u8]
        ensures { result.now ≡ first_text self.entry.rows.now self.entry.store.now (i * token_width) }
    {
        part_of(
            self.store,
            self.place(i, TOKEN_START),
            self.place(i, TOKEN_FIRST),
        )
    }

    // Whether a token is the delimiter `byte`.
    pub fn is_delim(self, i: usize, byte: u8) -> bool
        ensures { (store : List ℕ) → result ≡ is_delim byte (token_here self.entry.rows.now store (i * token_width)) }
    {
        self.is_kind(i, DELIM) && self.place(i, TOKEN_FIRST) == usize::from(byte)
    }

    // Whether a token is the name `word`.
    pub fn is_word(self, i: usize, word: &str) -> bool
        ensures { result ≡ is_word word.now (token_here self.entry.rows.now self.entry.store.now (i * token_width)) }
    {
        self.is_kind(i, IDENT) && self.text(i) == word.as_bytes()
    }
}
