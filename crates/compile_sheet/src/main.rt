// Compiles an author sheet from standard input, beside an empty agent's and an empty user's sheet, and prints one line: the compiled bytes as
// hexadecimal pairs parted by spaces, or `refused`, the refusal's number and its place; after 4 the text and then the byte.
#![tactic(auto)]

mod hexadecimal; // hexadecimal.rt: bytes as a line of pairs

use combinators::least::{NUMBER_MORE, NUMBER_WIDTH, TEXT_MORE, TEXT_WIDTH};
use combinators::lent::{SheetTexts, Stores};
use combinators::refusals::Refusal;
use combinators::texts::part_of;
use compiled::sheets::COMPILED_LIMIT;
use compiler::compile::{CompileError, compile};
use hexadecimal::HexLine;
use std::io;
use std::io::Write;
use streams::read_full;

// The bytes that the sheet may have here, and one byte more, to see whether the input goes on.
const LONGEST: usize = 1024;

const INPUT: usize = LONGEST + 1;

// The least lengths of the stores for a sheet of that size.
const TEXTS: usize = TEXT_WIDTH * LONGEST + TEXT_MORE;

const BRACKETS: usize = LONGEST;

const NUMBERS: usize = NUMBER_WIDTH * LONGEST + NUMBER_MORE;

fn print_refusal(out: &impl Print, error: CompileError) -> io::Result<()> {
    let Refusal {
        number,
        text,
        place,
    } = Refusal::from(error);
    match error {
        CompileError::Panic(_) => println!(out; "refused {number} {text} {place}"),
        _ => println!(out; "refused {number} {place}"),
    }
}

fn print_compiled(out: &impl Print, author: &[u8]) -> io::Result<()> {
    let mut compiled = [0u8; COMPILED_LIMIT];
    let mut texts = [0u8; TEXTS];
    let mut rules = [0u32; NUMBERS];
    let mut tokens = [0u32; NUMBERS];
    let mut brackets = [0u8; BRACKETS];
    let sheets = SheetTexts {
        agent: b"",
        user: b"",
        author,
    };
    let mut stores = Stores {
        rules: &mut rules,
        tokens: &mut tokens,
        brackets: &mut brackets,
        texts: &mut texts,
    };
    let answer = compile(sheets, &mut compiled, &mut stores);
    match answer {
        // not `print!`, whose buffer takes the line byte by byte
        Ok(done) => write!(
            io::writer(out),
            "{}",
            HexLine(part_of(&compiled, 0, done.bytes))
        ),
        Err(error) => print_refusal(out, error),
    }
}

// Whoever stops reading the output ends it; that is no error.
fn main(rt: HostRuntime) {
    let mut input = [0u8; INPUT];
    let n = read_full(&mut rt.stdin(), &mut input);
    let _ = if n > LONGEST {
        print_refusal(&rt, CompileError::TooLong)
    } else {
        print_compiled(&rt, &input[..n])
    };
}
