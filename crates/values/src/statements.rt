// Statements: tokens read to the end of a statement, into rows and a store of texts. `fill` stands beside the stores: only texts go on behind others.
// So does the depth, how many brackets are awaited: they are a stack at the start of a lent store, and the next one is written behind them.
ghost use Rattle.std.specs.Prelude.{◌≡◌, false, ◌-◌, ◌*◌, ◌^◌, ◌≤◌, ◌<◌, length};
ghost use Rattle.combinators.specs.Lent.{SameStores};
ghost use Rattle.values.specs.Value.{marked, bracket_of, closing, statement_of};
ghost use Rattle.lexer.specs.Token as lexer;
ghost use Rattle.lexer.specs.Token.{coded, length_by};
ghost use Rattle.lexer.specs.TokenRow.{token_width};
ghost use Rattle.values.specs.Layout.{meant, awaited, step_to, deep, ending_by, Moved, Room, left, leaving, Bounds, unmarked, value_left, leaving_value};
ghost use Rattle.values.specs.View.{tokens_at};
ghost use Rattle.values.specs.Tokens.{value_tokens};

use crate::tokens::Tokens;
use combinators::lent::Stores;
use lexer::rows::put_token;
use lexer::tokens::{Lexed, Token, parse_token};

// The bytes taken, the tokens and the bytes of text of a statement.
#[derive(Clone, Copy)]
pub struct Statement {
    pub taken: usize,
    pub count: usize,
    pub text: usize,
}

// What stands before a closing bracket that is wrong.
#[derive(Clone, Copy)]
pub struct Unbalanced(pub Statement);

// A value: its statement, and whether that ends in the mark `!important`.
#[derive(Clone, Copy)]
pub struct Value {
    pub statement: Statement,
    pub important: bool,
}

// The tokens of the mark: an exclamation mark, and the name.
const MARK_TOKENS: usize = 2;

impl Value {
    // How many tokens it has without the mark.
    #[tactic(auto, unfolding(combinators::specs::Choice::pick))]
    fn count(self) -> usize
        ensures { result ≡ unmarked self }
    {
        if self.important {
            self.statement.count.saturating_sub(MARK_TOKENS)
        } else {
            self.statement.count
        }
    }

    // Its tokens without the mark, from the rows and the store that it was read into.
    pub fn tokens<'a>(self, rows: &'a [u32], store: &'a [u8]) -> Tokens<'a>
        requires { token_width * unmarked self ≤ length rows.now }
        ensures { value_tokens result ≡ tokens_at rows.now store.now (unmarked self) }
    {
        Tokens::first(rows, self.count(), store)
    }
}

// What a token does to the brackets, by the byte that is awaited. `NoBracket` is one of four cases: with `None` in its place each of the others would be a `Some`.
#[derive(Clone, Copy)]
pub enum Bracket {
    Opens(u8),
    Closes(u8),
    Ends,
    NoBracket,
}

// How a statement goes on at a token: with so many brackets awaited; it ends before the token, or behind it; or the brackets are wrong. `Wrong` is no error:
// what was read before it, which the error tells, only the loop knows.
#[derive(Clone, Copy)]
pub enum Step {
    Next(usize),
    Before,
    Behind,
    Wrong,
}

#[tactic(auto, using(crate::proofs::Nesting::by_code), unfolding(crate::specs::Layout::meant, crate::proofs::Nesting::bracket_by))]
fn bracket_of(k: Token) -> Bracket
    ensures { (t : lexer.Token) → coded t ≡ k → meant result ≡ bracket_of t }
{
    match k {
        Token::Function(_) => Bracket::Opens(b')'),
        Token::CDO => Bracket::Opens(b'>'),
        Token::CDC => Bracket::Closes(b'>'),
        Token::Semicolon => Bracket::Ends,
        Token::OpenSquare => Bracket::Opens(b']'),
        Token::CloseSquare => Bracket::Closes(b']'),
        Token::OpenRound => Bracket::Opens(b')'),
        Token::CloseRound => Bracket::Closes(b')'),
        Token::OpenBrace => Bracket::Opens(b'}'),
        Token::CloseBrace => Bracket::Closes(b'}'),
        _ => Bracket::NoBracket,
    }
}

// A closing bracket `c`, where these brackets are awaited, the innermost last.
fn closing_step(c: u8, brackets: &[u8]) -> Step
    ensures brackets_value { step_to result brackets.now ≡ closing c (awaited brackets.now (length brackets.now)) }
    ensures depth_value { deep result (length brackets.now - 1) ≡ length brackets.now - 1 }
{
    match brackets {
        [] if c == b'}' => Step::Before,
        [] => Step::Wrong,
        [.., last] if *last != c => Step::Wrong,
        [_] if c == b'}' => Step::Behind,
        [outer @ .., _] => Step::Next(outer.len()),
    }
}

// A semicolon, where `d` brackets are awaited.
fn ending_step(include_semicolon: bool, d: usize) -> Step
    ensures { result ≡ ending_by include_semicolon d }
{
    if d > 0 {
        Step::Next(d)
    } else if include_semicolon {
        Step::Behind
    } else {
        Step::Before
    }
}

// The token `k`, where `d` brackets are awaited.
fn step_at(k: Token, include_semicolon: bool, brackets: &mut [u8], d: usize) -> Step
    requires { d < length brackets.old }
    ensures { (t : lexer.Token) → coded t ≡ k → Moved include_semicolon (bracket_of t) brackets.old d brackets.new result }
{
    match bracket_of(k) {
        Bracket::Opens(c) => {
            brackets[d] = c;
            Step::Next(d + 1)
        }
        Bracket::Closes(c) => closing_step(c, &brackets[..d]),
        Bracket::Ends => ending_step(include_semicolon, d),
        Bracket::NoBracket => Step::Next(d),
    }
}

// Reads the tokens to the end of a statement: to a semicolon or a closing brace outside all brackets, or behind an outermost block
// in braces. Their rows go to the stores' tokens from 0 on, their texts to their texts from `fill` on; their brackets hold those awaited. The
// entry points refuse stores below the least lengths (refusal 2), so `Room` holds wherever this is called.
pub fn parse_to_end_of_statement(
    s: &[u8],
    include_semicolon: bool,
    stores: &mut Stores<'_>,
    fill: usize,
) -> Result<Statement, Unbalanced>
    requires { Room (length s.now) fill stores.old.tokens.now stores.old.brackets.now stores.old.texts.now }
    ensures same { SameStores stores.old stores.new }
    ensures rules_unchanged { stores.new.rules.now ≡ stores.old.rules.now }
    ensures work_after { leaving result stores.new
        ≡ left (statement_of include_semicolon s.now) stores.old.tokens.now stores.old.brackets.now stores.old.texts.now fill }
    ensures bounds { Bounds s.now result }
{
    let mut taken = 0;
    let mut count = 0;
    let mut place = 0;
    let mut depth = 0;
    let mut text = 0;
    // each turn goes on behind the token that was read, and three of its four ways on end the statement
    while let Some(Lexed { start, end, token }) = parse_token(
        &s[taken..],
        stores.texts,
        fill + text,
    ) {
        let byte = taken + start;
        let at = fill + text;
        let length = token.text_length();
        match step_at(token, include_semicolon, stores.brackets, depth) {
            Step::Before => break,
            Step::Wrong => return Err(Unbalanced(Statement { taken, count, text })),
            Step::Behind => {
                put_token(token, byte, at, stores.tokens, place);
                return Ok(Statement {
                    taken: taken + end,
                    count: count + 1,
                    text: text + length,
                });
            }
            Step::Next(awaited) => {
                place = put_token(token, byte, at, stores.tokens, place);
                taken += end;
                count += 1;
                text += length;
                depth = awaited;
            }
        }
    }
    Ok(Statement { taken, count, text })
}

// Whether the last two tokens are the mark `!important`.
fn is_important(tokens: Tokens) -> bool
    ensures { result ≡ (marked (value_tokens tokens.entry)).important }
{
    let count = tokens.count();
    count >= MARK_TOKENS
        && tokens.is_delim(count - MARK_TOKENS, b'!')
        && tokens.is_word(count - 1, "important")
}

// Reads a value, and leaves its tokens and texts as `parse_to_end_of_statement` does.
pub fn parse_value(s: &[u8], stores: &mut Stores<'_>, fill: usize) -> Result<Value, Unbalanced>
    requires { Room (length s.now) fill stores.old.tokens.now stores.old.brackets.now stores.old.texts.now }
    ensures same { SameStores stores.old stores.new }
    ensures rules_unchanged { stores.new.rules.now ≡ stores.old.rules.now }
    ensures work_after { leaving_value result stores.new
        ≡ value_left (statement_of false s.now) stores.old.tokens.now stores.old.brackets.now stores.old.texts.now fill }
{
    let statement = parse_to_end_of_statement(s, false, stores, fill)?;
    let tokens = &mut *stores.tokens;
    let texts = &mut *stores.texts;
    let important = is_important(Tokens::first(tokens, statement.count, texts));
    Ok(Value {
        statement,
        important,
    })
}
