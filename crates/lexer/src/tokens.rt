// Tokens: a token by value, read from the start of a text; its text goes to the store, from a fill that the callers keep, so that no writer is lent.
ghost use Rattle.std.specs.Prelude.{◌≡◌, ◌≤◌, length, Some, ◌<◌, ◌^◌};
ghost use Rattle.std.proofs.lemmas.List.Edits.{sets};
ghost use Rattle.lexer.specs.Token.{numeric_of, ident_like_of, is_quote, string_of, is_ident_start, mark_of, hash_of, plus_of, minus_of, less_of, token_with, token_at, token_of, coded, token_answer, token_text, lexed_answer, or_delim, length_by};
ghost use Rattle.lexer.specs.Whitespace.{skip_whitespace};
ghost use Rattle.lexer.specs.declared.tokens.Token.TheVariants.{Delim};
ghost use Rattle.characters.specs.Utf8.{scalar_of};

use crate::names::{parse_ident, parse_identstring};
use crate::numbers::parse_number;
use crate::strings::emit_string;
use crate::whitespace::skip_optional_whitespace;
use characters::utf8::scalar_at;
use combinators::bytes::{byte_is, starts_with};
use combinators::stores::emit_all;
use combinators::taken::Taken;

// A token, with the lengths of its texts, which lie in the store one behind the other, or the scalar value of a delimiter. That is a number and no `char`,
// since a token is read from lent rows too, which may hold any.
#[derive(Clone, Copy)]
pub enum Token {
    Ident(usize),
    Function(usize),
    Hash(usize),
    String(usize),
    BadString(usize),
    Delim(u32),
    Number(usize),
    Dimension(usize, usize),
    Percentage(usize),
    CDO,
    CDC,
    Colon,
    Semicolon,
    Comma,
    OpenSquare,
    CloseSquare,
    OpenRound,
    CloseRound,
    OpenBrace,
    CloseBrace,
}

// The next token: where it starts behind white space and comments, where it ends, and the token.
#[derive(Clone, Copy)]
pub struct Lexed {
    pub start: usize,
    pub end: usize,
    pub token: Token,
}

impl Token {
    // How many bytes its texts take in the store; a delimiter's character is not there.
    #[tactic(auto, unfolding(crate::specs::Token::length_by))]
    pub fn text_length(self) -> usize
        requires { length_by self < 2 ^ 64 }
        ensures { result ≡ length_by self }
    {
        match self {
            Token::Ident(n)
            | Token::Function(n)
            | Token::Hash(n)
            | Token::String(n)
            | Token::BadString(n)
            | Token::Number(n)
            | Token::Percentage(n) => n,
            Token::Dimension(n, m) => n + m,
            _ => 0,
        }
    }
}

// The marks that a comment of HTML opens and closes with.
const CDO_MARK: [u8; 4] = *b"<!--";

const CDC_MARK: [u8; 3] = *b"-->";

// A number; with '%' behind it a percentage, with a name behind it a dimension.
pub fn parse_numeric_token(s: &[u8], store: &mut [u8], fill: usize) -> Option<Taken<Token>>
    ensures value { result ≡ token_answer (numeric_of s.now) }
    ensures store_after { store.new ≡ sets store.old fill (token_text (numeric_of s.now)) }
{
    let n = parse_number(s)?;
    let behind = emit_all(&s[..n], store, fill);
    if byte_is(s, n, b'%') {
        return Some(Taken {
            taken: n + 1,
            value: Token::Percentage(n),
        });
    }
    match parse_ident(&s[n..], store, behind) {
        Some(unit) => Some(Taken {
            taken: n + unit.taken,
            value: Token::Dimension(n, unit.length),
        }),
        None => Some(Taken {
            taken: n,
            value: Token::Number(n),
        }),
    }
}

// A name; with '(' behind it a function.
pub fn parse_ident_like(s: &[u8], store: &mut [u8], fill: usize) -> Option<Taken<Token>>
    ensures value { result ≡ token_answer (ident_like_of s.now) }
    ensures store_after { store.new ≡ sets store.old fill (token_text (ident_like_of s.now)) }
{
    let name = parse_ident(s, store, fill)?;
    if byte_is(s, name.taken, b'(') {
        return Some(Taken {
            taken: name.taken + 1,
            value: Token::Function(name.length),
        });
    }
    Some(Taken {
        taken: name.taken,
        value: Token::Ident(name.length),
    })
}

// Whether `b` starts a string.
#[tactic(auto, unfolding(crate::specs::Token::is_quote, combinators::specs::Choice::or, combinators::specs::Choice::is))]
fn is_quote(b: u8) -> bool
    ensures { result ≡ is_quote b }
{
    matches!(b, b'"' | b'\'')
}

// A string up to its quote or the end of the text; a bad one up to a line feed.
pub fn parse_string_token(t: &[u8], store: &mut [u8], fill: usize) -> Option<Taken<Token>>
    ensures value { result ≡ token_answer (string_of t.now) }
    ensures store_after { store.new ≡ sets store.old fill (token_text (string_of t.now)) }
{
    let (&quote, r) = t.split_first()?;
    if !is_quote(quote) {
        return None;
    }
    let w = emit_string(r, quote, store, fill);
    if w.taken == r.len() {
        return Some(Taken {
            taken: 1 + w.taken,
            value: Token::String(w.length),
        });
    }
    if byte_is(r, w.taken, quote) {
        return Some(Taken {
            taken: 1 + w.taken + 1,
            value: Token::String(w.length),
        });
    }
    Some(Taken {
        taken: 1 + w.taken,
        value: Token::BadString(w.length),
    })
}

const FIRST_ABOVE_U_0080: char = '\u{81}'; // from here on the crate takes every character for the start of a name

// Whether the crate takes `c` for the start of a name. Above U+0080 it does, and then reads none.
#[tactic(auto, unfolding(crate::specs::Token::is_ident_start, crate::specs::Name::is_nmstart, combinators::specs::Choice::or, combinators::specs::Choice::is, combinators::specs::Choice::within, combinators::specs::Choice::and))]
fn is_ident_start(c: char) -> bool
    ensures { result ≡ is_ident_start c }
{
    matches!(c, 'a'..='z' | 'A'..='Z' | '_' | FIRST_ABOVE_U_0080..)
}

// The token that the character `c` is by itself: a mark, or else a delimiter.
#[tactic(auto, unfolding(crate::specs::Token::mark_of, crate::specs::Token::coded, combinators::specs::Choice::pick, combinators::specs::Choice::is))]
fn mark_of(c: char) -> Token
    ensures { result ≡ coded (mark_of c) }
{
    match c {
        ';' => Token::Semicolon,
        '(' => Token::OpenRound,
        ')' => Token::CloseRound,
        ',' => Token::Comma,
        ':' => Token::Colon,
        '[' => Token::OpenSquare,
        ']' => Token::CloseSquare,
        '{' => Token::OpenBrace,
        '}' => Token::CloseBrace,
        _ => Token::Delim(u32::from(c)),
    }
}

// The delimiter `c`, which takes one byte.
fn delimiter(c: char) -> Option<Taken<Token>>
    ensures { result ≡ Some (record { taken = 1; value = Delim c }) }
{
    Some(Taken {
        taken: 1,
        value: Token::Delim(u32::from(c)),
    })
}

// What was read, or else the delimiter `c`.
fn or_delim(a: Option<Taken<Token>>, c: char) -> Option<Taken<Token>>
    ensures { result ≡ or_delim a c }
{
    a.or(delimiter(c))
}

// The readers from here on are told the first character of `t`, which therefore is not empty: three of them ask for it, to read on behind a first
// byte, and a type for a text that is not empty would serve them alone. They place a token's text as all readers do.

// Behind '#': a name that may start with any character of names.
fn hash_token(t: &[u8], c: char, store: &mut [u8], fill: usize) -> Option<Taken<Token>>
    requires { 1 ≤ length t.now }
    ensures value { result ≡ token_answer (hash_of c t.now) }
    ensures store_after { store.new ≡ sets store.old fill (token_text (hash_of c t.now)) }
{
    let name = parse_identstring(&t[1..], store, fill);
    let hash = name.map(|name| Taken {
        taken: 1 + name.taken,
        value: Token::Hash(name.length),
    });
    or_delim(hash, c)
}

// Behind '+': a number, whose text then lacks the sign.
fn plus_token(t: &[u8], c: char, store: &mut [u8], fill: usize) -> Option<Taken<Token>>
    requires { 1 ≤ length t.now }
    ensures value { result ≡ token_answer (plus_of c t.now) }
    ensures store_after { store.new ≡ sets store.old fill (token_text (plus_of c t.now)) }
{
    let number = parse_numeric_token(&t[1..], store, fill);
    or_delim(number.map(|number| number.behind(1)), c)
}

// From '-' on: a number, the mark "-->", a name, or the delimiter. A number returns by itself and through no `or_else`, behind whose closure nothing is known
// of the store that it writes.
fn minus_token(t: &[u8], c: char, store: &mut [u8], fill: usize) -> Option<Taken<Token>>
    ensures value { result ≡ token_answer (minus_of c t.now) }
    ensures store_after { store.new ≡ sets store.old fill (token_text (minus_of c t.now)) }
{
    if let Some(number) = parse_numeric_token(t, store, fill) {
        return Some(number);
    }
    if starts_with(t, &CDC_MARK) {
        return Some(Taken {
            taken: CDC_MARK.len(),
            value: Token::CDC,
        });
    }
    or_delim(parse_ident_like(t, store, fill), c)
}

// From '<' on: the mark "<!--", or the delimiter.
fn less_token(t: &[u8], c: char) -> Option<Taken<Token>>
    ensures { result ≡ token_answer (less_of c t.now) }
{
    if starts_with(t, &CDO_MARK) {
        return Some(Taken {
            taken: CDO_MARK.len(),
            value: Token::CDO,
        });
    }
    delimiter(c)
}

// The token at the start of `t`, whose first character is `first`, by the reader that it selects, in the crate's order.
#[tactic(auto, unfolding(crate::specs::Token::token_with, crate::specs::Token::is_quote, crate::specs::Number::is_digit, combinators::specs::Choice::pick, combinators::specs::Choice::or, combinators::specs::Choice::is, combinators::specs::Choice::within, combinators::specs::Choice::and))]
fn token_with(t: &[u8], first: Taken<char>, store: &mut [u8], fill: usize) -> Option<Taken<Token>>
    requires { 1 ≤ length t.now }
    ensures value { result ≡ token_answer (token_with first.taken first.value t.now) }
    ensures store_after { store.new ≡ sets store.old fill (token_text (token_with first.taken first.value t.now)) }
{
    let c = first.value;
    match c {
        '"' | '\'' => parse_string_token(t, store, fill),
        '#' => hash_token(t, c, store, fill),
        '+' => plus_token(t, c, store, fill),
        '-' => minus_token(t, c, store, fill),
        '.' => or_delim(parse_numeric_token(t, store, fill), c),
        '<' => less_token(t, c),
        '\\' => or_delim(parse_ident_like(t, store, fill), c),
        _ if is_ident_start(c) => parse_ident_like(t, store, fill),
        '0'..='9' => parse_numeric_token(t, store, fill),
        _ => Some(Taken {
            taken: first.taken,
            value: mark_of(c),
        }),
    }
}

// The token at the start of `t`, where no white space is.
fn token_at(t: &[u8], store: &mut [u8], fill: usize) -> Option<Taken<Token>>
    ensures value { result ≡ token_answer (token_at t.now (scalar_of t.now)) }
    ensures store_after { store.new ≡ sets store.old fill (token_text (token_at t.now (scalar_of t.now))) }
{
    let first = scalar_at(t)?;
    token_with(t, first, store, fill)
}

// The next token of `s`, behind white space and comments.
pub fn parse_token(s: &[u8], store: &mut [u8], fill: usize) -> Option<Lexed>
    ensures value { result ≡ lexed_answer (skip_whitespace s.now) (token_of s.now) }
    ensures store_after { store.new ≡ sets store.old fill (token_text (token_of s.now)) }
{
    let w = skip_optional_whitespace(s);
    let read = token_at(&s[w..], store, fill)?;
    Some(Lexed {
        start: w,
        end: w + read.taken,
        token: read.value,
    })
}
