// Prints a sheet from standard input as it was read: how many bytes were read and where reading stopped, then each rule with its selectors and
// its declarations, of which each has a line of its own and in front the line and column of the sheet where it starts. A refusal is printed by
// its number, in words. Takes 2.2 MB of stack, the stores for a sheet of 32,768 bytes.
#![tactic(auto)]

mod declaration; // declaration.rt: declarations as text
mod place; // place.rt: a byte of the sheet by its line and column
mod refusal; // refusal.rt: why a sheet is refused
mod rows; // rows.rt: rows as slices
mod rule; // rule.rt: the rules, line by line
mod selector; // selector.rt: selectors as text
mod text; // text.rt: names, lines and colours as text

use combinators::least::{NUMBER_MORE, NUMBER_WIDTH, TEXT_MORE, TEXT_WIDTH};
use combinators::lent::Stores;
use place::{Marked, Place};
use refusal::Refusal;
use rule::{Source, print_rules};
use sheets::sheet::{SHEET_LIMIT, read_sheet};
use streams::read_full;

// One byte more than a sheet may have is read, to see whether the input goes on.
const INPUT: usize = SHEET_LIMIT + 1;

// The least lengths of the stores for a sheet of that size.
const STORE: usize = TEXT_WIDTH * SHEET_LIMIT + TEXT_MORE;

const BRACKETS: usize = SHEET_LIMIT;

const NUMBERS: usize = NUMBER_WIDTH * SHEET_LIMIT + NUMBER_MORE;

// How many bytes were read of the sheet, and where reading stopped before its end.
fn print_read(out: &impl Print, sheet: &[u8], stop: usize) {
    let _ = println!(out; "read {stop} of {} bytes", sheet.len());
    if stop < sheet.len() {
        let _ = print!(out; "stopped at {}", Marked(Place { sheet, byte: stop }));
    }
}

fn print_sheet(out: &impl Print, sheet: &[u8]) {
    let mut rules = [0u32; NUMBERS];
    let mut tokens = [0u32; NUMBERS];
    let mut brackets = [0u8; BRACKETS];
    let mut texts = [0u8; STORE];
    let mut stores = Stores {
        rules: &mut rules,
        tokens: &mut tokens,
        brackets: &mut brackets,
        texts: &mut texts,
    };
    match read_sheet(sheet, &mut stores) {
        Ok(read) => {
            let texts = &texts;
            print_read(out, sheet, read.taken);
            print_rules(out, Source { sheet, texts }, &rules, read.count);
        }
        Err(error) => {
            let _ = print!(out; "{}", Refusal { sheet, error });
        }
    }
}

// A write that fails is passed over wherever one is made; it is no error. (Each program has a `main` of its own, over its own buffer.)
fn main(rt: HostRuntime) {
    let mut input = [0u8; INPUT];
    let n = read_full(&mut rt.stdin(), &mut input);
    print_sheet(&rt, &input[..n]);
}
