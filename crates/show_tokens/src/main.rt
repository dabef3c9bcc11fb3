// Prints the tokens of a text from standard input, a line for each: the byte where it starts, the byte behind it, its kind and
// its texts in double quotes. A last line says where reading stopped.
#![tactic(auto)]

mod line; // line.rt: the line of a token

ghost use Rattle.std.specs.Prelude.{◌+◌, ◌≤◌, length};

use characters::utf8::is_valid;
use combinators::least::{TEXT_MORE, TEXT_WIDTH};
use combinators::refusals::{NOT_UTF8, TOO_LONG};
use lexer::tokens::{Lexed, parse_token};
use line::Line;
use streams::read_full;

// The longest text whose tokens are printed. One byte more is read, to see whether the input goes on.
const LONGEST: usize = 32768;

const INPUT: usize = LONGEST + 1;

// Room for the texts of every token.
const STORE: usize = TEXT_WIDTH * LONGEST + TEXT_MORE;

// Prints every token of `s`; where reading stopped. A line that cannot be written is passed over.
fn print_tokens(out: &impl Print, s: &[u8], store: &mut [u8]) -> usize
    requires { length s.now + 2 ≤ length store.old }
{
    let mut at = 0;
    // a token takes as many bytes as it has, so its turns are no range
    while let Some(Lexed { start, end, token }) = parse_token(&s[at..], store, 0) {
        let line = Line {
            start: at + start,
            end: at + end,
            token,
            store,
        };
        let _ = println!(out; "{line}");
        at += end;
    }
    at
}

// The tokens of a text and where reading stopped, or why it is refused as a whole.
fn print_text(out: &impl Print, s: &[u8]) {
    if s.len() > LONGEST {
        let _ = println!(out; "refused {TOO_LONG} 0");
        return;
    }
    if !is_valid(s) {
        let _ = println!(out; "refused {NOT_UTF8} 0");
        return;
    }
    let mut store = [0u8; STORE];
    let stop = print_tokens(out, s, &mut store);
    let _ = println!(out; "stop {stop}");
}

// A write that fails is no error. (Each program has a `main` of its own, over its own buffer.)
fn main(rt: HostRuntime) {
    let mut input = [0u8; INPUT];
    let n = read_full(&mut rt.stdin(), &mut input);
    print_text(&rt, &input[..n]);
}
