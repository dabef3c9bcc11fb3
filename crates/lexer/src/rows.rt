// Token rows: a token written to lent numbers of 32 bits.
ghost use Rattle.std.specs.Prelude.{◌≡◌};
ghost use Rattle.combinators.specs.Store.{emits};
ghost use Rattle.lexer.specs.TokenRow.{columns_of, word, row_of, mark_from, token_from, token_in};

use crate::tokens::Token;
use combinators::columns::Columns;
use combinators::stores::{emit_all, number_at};

// Numbers in a row: the kind, the byte of the text where the token starts, the place of the store where its text starts, and two more.
pub const TOKEN_WIDTH: usize = 5;

// Where the kind, the place of the text and the two last numbers stand in a row.
pub const TOKEN_KIND: usize = 0;

pub const TOKEN_START: usize = 2;

pub const TOKEN_FIRST: usize = 3;

pub const TOKEN_SECOND: usize = 4;

// The kinds, as numbers, since a row is lent and may hold any. No token has 0, so that a cleared row is told from a written one.
pub const IDENT: u32 = 1;

pub const FUNCTION: u32 = 2;

pub const HASH: u32 = 3;

pub const STRING: u32 = 4;

pub const BAD_STRING: u32 = 5;

pub const DELIM: u32 = 6;

pub const NUMBER: u32 = 7;

pub const DIMENSION: u32 = 8;

pub const PERCENTAGE: u32 = 9;

pub const CDO: u32 = 10;

pub const CDC: u32 = 11;

pub const COLON: u32 = 12;

pub const SEMICOLON: u32 = 13;

pub const COMMA: u32 = 14;

pub const OPEN_SQUARE: u32 = 15;

pub const CLOSE_SQUARE: u32 = 16;

pub const OPEN_ROUND: u32 = 17;

pub const CLOSE_ROUND: u32 = 18;

pub const OPEN_BRACE: u32 = 19;

pub const CLOSE_BRACE: u32 = 20;

// A token's kind, and its two numbers: the length of its text, or of a dimension's number and unit, or a delimiter's scalar value.
impl From<Token> for Columns {
    ghost from_gives = { λ k row. row ≡ columns_of k };

    #[tactic(auto, unfolding(crate::specs::TokenRow::columns_of))]
    fn from(k: Token) -> Columns {
        match k {
            Token::Ident(n) => Columns::new(IDENT, n, 0),
            Token::Function(n) => Columns::new(FUNCTION, n, 0),
            Token::Hash(n) => Columns::new(HASH, n, 0),
            Token::String(n) => Columns::new(STRING, n, 0),
            Token::BadString(n) => Columns::new(BAD_STRING, n, 0),
            Token::Delim(c) => Columns::new(DELIM, c as usize, 0),
            Token::Number(n) => Columns::new(NUMBER, n, 0),
            Token::Dimension(n, m) => Columns::new(DIMENSION, n, m),
            Token::Percentage(n) => Columns::new(PERCENTAGE, n, 0),
            Token::CDO => Columns::new(CDO, 0, 0),
            Token::CDC => Columns::new(CDC, 0, 0),
            Token::Colon => Columns::new(COLON, 0, 0),
            Token::Semicolon => Columns::new(SEMICOLON, 0, 0),
            Token::Comma => Columns::new(COMMA, 0, 0),
            Token::OpenSquare => Columns::new(OPEN_SQUARE, 0, 0),
            Token::CloseSquare => Columns::new(CLOSE_SQUARE, 0, 0),
            Token::OpenRound => Columns::new(OPEN_ROUND, 0, 0),
            Token::CloseRound => Columns::new(CLOSE_ROUND, 0, 0),
            Token::OpenBrace => Columns::new(OPEN_BRACE, 0, 0),
            Token::CloseBrace => Columns::new(CLOSE_BRACE, 0, 0),
        }
    }
}

// The low 32 bits.
fn word_of(x: usize) -> u32
    ensures { result ≡ word x }
{
    (x % 0x1_0000_0000) as u32
}

// Writes the row of the token `k`, which starts at the byte `byte` of the text and whose text starts at `start` in the text store,
// from `at` on; the place behind the row.
#[tactic(auto, unfolding(crate::specs::TokenRow::row_of))]
pub fn put_token(k: Token, byte: usize, start: usize, rows: &mut [u32], at: usize) -> usize
    ensures { record { bytes = rows.new; fill = result } ≡ emits (record { bytes = rows.old; fill = at }) (row_of byte start k) }
{
    let row = Columns::from(k);
    emit_all(
        &[
            row.kind,
            word_of(byte),
            word_of(start),
            word_of(row.first),
            word_of(row.second),
        ],
        rows,
        at,
    )
}

// The mark of a kind: a closing brace where no other fits. Here and below a `match` is the table itself: pairs would be searched at each row.
#[tactic(auto, unfolding(crate::specs::TokenRow::mark_from, combinators::specs::Choice::pick, combinators::specs::Choice::is))]
fn mark_of(kind: u32) -> Token
    ensures { result ≡ mark_from kind }
{
    match kind {
        CDO => Token::CDO,
        CDC => Token::CDC,
        COLON => Token::Colon,
        SEMICOLON => Token::Semicolon,
        COMMA => Token::Comma,
        OPEN_SQUARE => Token::OpenSquare,
        CLOSE_SQUARE => Token::CloseSquare,
        OPEN_ROUND => Token::OpenRound,
        CLOSE_ROUND => Token::CloseRound,
        OPEN_BRACE => Token::OpenBrace,
        _ => Token::CloseBrace,
    }
}

// The token of a kind and two numbers, as a row has them. They are no `Columns`, which has lengths of any size: a delimiter's scalar value would be cut
// to 32 bits again.
#[tactic(auto, unfolding(crate::specs::TokenRow::token_from, combinators::specs::Choice::pick, combinators::specs::Choice::is))]
fn token_of(kind: u32, first: u32, second: u32) -> Token
    ensures { result ≡ token_from kind first second }
{
    let n = first as usize;
    match kind {
        IDENT => Token::Ident(n),
        FUNCTION => Token::Function(n),
        HASH => Token::Hash(n),
        STRING => Token::String(n),
        BAD_STRING => Token::BadString(n),
        DELIM => Token::Delim(first),
        NUMBER => Token::Number(n),
        DIMENSION => Token::Dimension(n, second as usize),
        PERCENTAGE => Token::Percentage(n),
        _ => mark_of(kind),
    }
}

// The token whose row starts at `at`. It is told a place and no row, since any place may be asked: behind the end of the rows all numbers are 0.
pub fn token_at(rows: &[u32], at: usize) -> Token
    ensures { result ≡ token_in rows.now at }
{
    token_of(
        number_at(rows, at, TOKEN_KIND),
        number_at(rows, at, TOKEN_FIRST),
        number_at(rows, at, TOKEN_SECOND),
    )
}
