// Replays vectors, which it reads from standard input: asks the functions of crates/engine and crates/comparison, and holds what they answer and
// leave in the lent buffers against what each vector expects. Prints the number, the call and the words of each vector that differs, then for each list how
// many vectors it has and how many differ. tools/vectors/README.md says how vectors lie in bytes; tools/vectors/vectors.py writes them. Takes some 5 MB of stack.
#![tactic(auto)]

mod answers; // answers.rt: what is asked with lent buffers, and whether it answers as expected
mod buffers; // buffers.rt: what a call is lent to write in
mod calls; // calls.rt: the calls, and where their arguments stand
mod content; // content.rt: what stands in a buffer
mod pages; // pages.rt: calls with a page or with compiled bytes
mod question; // question.rt: a call with its arguments and what is lent to read
mod reading; // reading.rt: calls with sheets, attributes and heights
mod stream; // stream.rt: numbers and texts of a vector
mod style_calls; // style_calls.rt: calls for styles
mod tally; // tally.rt: how many vectors there are, and how many differ
mod window; // window.rt: a window over standard input

use answers::answers_as_expected;
use calls::Call;
use content::lend;
use question::Question;
use std::io::{Read, Write};
use stream::Stream;
use tally::Tally;
use window::Window;

// What is lent to read: bytes of sheets or of a page, and numbers of a page and a selector.
const INPUT: usize = 98304;

const INPUT_NUMBERS: usize = 90112;

// The vectors that standard input may hold.
const MOST_VECTORS: u32 = 1_000_000;

// In place of a call: the end of a list.
const END: u32 = 0;

// Whether the questions of a vector are answered as it expects: behind the bytes and the numbers that are lent to read, one behind the other.
fn is_same(stream: &mut Stream<'_>, call: Call) -> bool {
    let mut input = [0u8; INPUT];
    let mut numbers = [0u32; INPUT_NUMBERS];
    lend(stream, &mut input);
    lend(stream, &mut numbers);
    let mut same = true;
    for _ in 0..stream.number() {
        let question = Question::read(stream, call, &input, &numbers);
        same = answers_as_expected(stream, &question) && same;
    }
    same
}

// Replays what comes next: a vector, or the end of a list.
fn replay<W: Write>(out: &mut W, stream: &mut Stream<'_>, tally: &mut Tally) {
    let words = stream.words();
    let number = stream.number();
    if number == END {
        let _ = out.write_all(words);
        let _ = writeln!(out, ": {tally}");
        *tally = Tally::default();
        return;
    }
    let call = Call::from(number);
    let same = is_same(stream, call);
    if !same {
        let _ = write!(out, "vector {} ({call}) differs: ", tally.vectors);
        let _ = out.write_all(words);
        let _ = writeln!(out);
    }
    tally.count(same);
}

// Replays all vectors of the input, one behind the other.
fn replay_all<R: Read, W: Write>(input: &mut R, out: &mut W, window: &mut Window) {
    let mut tally = Tally::default();
    window.fill(input);
    for _ in 0..MOST_VECTORS {
        window.move_on(input);
        let mut stream = Stream::new(window.rest());
        if stream.is_empty() {
            break;
        }
        replay(out, &mut stream, &mut tally);
        let left = stream.len();
        window.leave(left);
    }
}

// A write that fails is passed over wherever one is made; it is no error.
fn main(rt: HostRuntime) {
    replay_all(&mut rt.stdin(), &mut rt.stdout(), &mut Window::new());
}
