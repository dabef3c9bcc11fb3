// The line of a token.
ghost use Rattle.std.specs.Prelude.{◌≡◌, ◌≤◌, length};
ghost use Rattle.show_tokens.specs.Texts.{texts_of, texts_length};

use lexer::tokens::Token;
use std::fmt;
use streams::Quoted;

/// A token from `start` to `end`, with a store whose first bytes are its texts, one behind the other.
#[derive(Clone, Copy)]
pub struct Line<'a> {
    pub start: usize,
    pub end: usize,
    pub token: Token,
    pub store: &'a [u8],
    ghost texts_fit: { texts_length (texts_of token) ≤ length store.now },
}

impl fmt::Display for Line<'_> {
    #[tactic(auto, unfolding(crate::specs::Texts::texts_length))]
    fn fmt<W: fmt::Write>(&self, f: &mut fmt::Formatter<W>) -> fmt::Result {
        write!(f, "{} {} {}", self.start, self.end, kind_of(self.token))?;
        let store = self.store;
        match texts_of(self.token) {
            Texts::NoText => Ok(()),
            Texts::One(n) => write!(f, " {}", Quoted(&store[..n])),
            Texts::Two(n, u) => {
                write!(f, " {} {}", Quoted(&store[..n]), Quoted(&store[n..n + u]))
            }
            Texts::Character(c) => {
                let c = char::from_u32(c).ok_or(fmt::Error)?;
                write!(f, " {}", Quoted(c.encode_utf8(&mut [0; 4]).as_bytes()))
            }
        }
    }
}

// What a token's texts are: lengths in the store, or the scalar value of a delimiter.
#[derive(Clone, Copy)]
enum Texts {
    NoText,
    One(usize),
    Two(usize, usize),
    Character(u32),
}

// What is printed behind the kind of a token.
#[tactic(auto, unfolding(crate::specs::Texts::texts_of))]
fn texts_of(token: Token) -> Texts
    ensures { result ≡ texts_of token }
{
    match token {
        Token::Ident(n)
        | Token::Function(n)
        | Token::Hash(n)
        | Token::String(n)
        | Token::BadString(n)
        | Token::Number(n)
        | Token::Percentage(n) => Texts::One(n),
        Token::Dimension(n, u) => Texts::Two(n, u),
        Token::Delim(c) => Texts::Character(c),
        Token::CDO
        | Token::CDC
        | Token::Colon
        | Token::Semicolon
        | Token::Comma
        | Token::OpenSquare
        | Token::CloseSquare
        | Token::OpenRound
        | Token::CloseRound
        | Token::OpenBrace
        | Token::CloseBrace => Texts::NoText,
    }
}

fn kind_of(token: Token) -> &'static str {
    match token {
        Token::Ident(_) => "ident",
        Token::Function(_) => "function",
        Token::Hash(_) => "hash",
        Token::String(_) => "string",
        Token::BadString(_) => "bad-string",
        Token::Delim(_) => "delim",
        Token::Number(_) => "number",
        Token::Dimension(_, _) => "dimension",
        Token::Percentage(_) => "percentage",
        Token::CDO => "cdo",
        Token::CDC => "cdc",
        Token::Colon => "colon",
        Token::Semicolon => "semicolon",
        Token::Comma => "comma",
        Token::OpenSquare => "open-square",
        Token::CloseSquare => "close-square",
        Token::OpenRound => "open-round",
        Token::CloseRound => "close-round",
        Token::OpenBrace => "open-brace",
        Token::CloseBrace => "close-brace",
    }
}
