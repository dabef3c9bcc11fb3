// What a question is asked with: buffers on the stack, of which the vector lends parts. And what is expected of them.
ghost use Rattle.std.specs.Prelude.{◌^◌, ◌<◌};

use crate::buffers::Buffers;
use crate::calls::{
    BRACKETS_LENT, BYTES_LENT, Call, FILLING, OUT_LENT, RESULTS, RULES_LENT, Results, TEXTS_LENT,
    TOKENS_LENT,
};
use crate::content::{Element, is_expected};
use crate::pages::{ask_bytes, ask_matches, ask_page, ask_rows, ask_selector};
use crate::question::Question;
use crate::reading::{ask_colour, ask_compile, ask_length, ask_sheet, ask_style_attribute};
use crate::stream::Stream;
use crate::style_calls::{ask_run, ask_style};
use cascade::rows::STYLE_ROW_WIDTH;
use combinators::least::{NUMBER_MORE, NUMBER_WIDTH, TEXT_MORE, TEXT_WIDTH};
use compiled::sheets::COMPILED_LIMIT;
use page::check::NODE_LIMIT;
use page::rules::DEPTH_LIMIT;

// All texts of a vector together, at most, and stores of the least lengths for it.
const LONGEST: usize = 65600;

const NUMBERS: usize = NUMBER_WIDTH * LONGEST + NUMBER_MORE;

const TEXTS: usize = TEXT_WIDTH * LONGEST + TEXT_MORE;

// What vectors lend to compile into: more than any compiled sheet has.
const COMPILED: usize = 80_000;

// The style rows of a page of so many nodes.
const OUT: usize = 128 * STYLE_ROW_WIDTH;

// What vectors lend beyond the least where they lend plenty.
const MORE: usize = 100;

// For a run, the style rows of one node more than a page may have, or the state of the longest compiled sheet, and some beyond. With either all texts of a
// vector have less together: so all lies within a stack of 8 MB.
const MANY_ROWS: usize = (NODE_LIMIT + 1) * STYLE_ROW_WIDTH + MORE;

const LONG_STATE: usize = (DEPTH_LIMIT + 1) * (COMPILED_LIMIT + 1) + MORE;

const SHORTER: usize = 16384;

const SHORTER_NUMBERS: usize = NUMBER_WIDTH * SHORTER + NUMBER_MORE;

const SHORTER_TEXTS: usize = TEXT_WIDTH * SHORTER + TEXT_MORE;

/// Asks a question with buffers that have room for what the vector lends; whether all comes that is expected next.
pub fn answers_as_expected(stream: &mut Stream<'_>, question: &Question<'_>) -> bool {
    if question.length(BYTES_LENT) > COMPILED {
        answers_with_buffers::<SHORTER_NUMBERS, SHORTER, SHORTER_TEXTS, LONG_STATE, OUT>(
            stream, question,
        )
    } else if question.length(OUT_LENT) > OUT {
        answers_with_buffers::<SHORTER_NUMBERS, SHORTER, SHORTER_TEXTS, COMPILED, MANY_ROWS>(
            stream, question,
        )
    } else {
        answers_with_buffers::<NUMBERS, LONGEST, TEXTS, COMPILED, OUT>(stream, question)
    }
}

// The same with buffers of these lengths, full of the value that the vector says. (A call of its own for each list of lengths: as parts of one function their
// buffers would lie on the stack together.)
#[inline(never)]
fn answers_with_buffers<
    const NUMBERS: usize,
    const BRACKETS: usize,
    const TEXTS: usize,
    const BYTES: usize,
    const OUT: usize,
>(stream: &mut Stream<'_>, question: &Question<'_>) -> bool
    requires numbers { NUMBERS < 2 ^ 32 }
    requires brackets { BRACKETS < 2 ^ 32 }
    requires texts { TEXTS < 2 ^ 32 }
    requires bytes { BYTES < 2 ^ 32 }
    requires out { OUT < 2 ^ 32 }
{
    let value = question.number(FILLING);
    let byte = u8::from_number(value);
    let mut rules = [value; NUMBERS];
    let mut tokens = [value; NUMBERS];
    let mut brackets = [byte; BRACKETS];
    let mut texts = [byte; TEXTS];
    let mut bytes = [byte; BYTES];
    let mut out = [value; OUT];
    let mut buffers = Buffers {
        rules: question.lent(RULES_LENT, &mut rules),
        tokens: question.lent(TOKENS_LENT, &mut tokens),
        brackets: question.lent(BRACKETS_LENT, &mut brackets),
        texts: question.lent(TEXTS_LENT, &mut texts),
        bytes: question.lent(BYTES_LENT, &mut bytes),
        out: question.lent(OUT_LENT, &mut out),
    };
    let came = ask(question, &mut buffers);
    // Each reads on in the stream, whatever came before it.
    are_expected(stream, came)
        & is_expected(stream, buffers.rules)
        & is_expected(stream, buffers.tokens)
        & is_expected(stream, buffers.brackets)
        & is_expected(stream, buffers.texts)
        & is_expected(stream, buffers.bytes)
        & is_expected(stream, buffers.out)
}

// Whether the results are those that come next. All are read, also behind one that differs, so no `all` asks them.
fn are_expected(stream: &mut Stream<'_>, came: Results) -> bool {
    let mut same = true;
    for result in came {
        let expected = stream.expected();
        same = same && expected.is_none_or(|number| number as usize == result);
    }
    same
}

// Asks by the call. A `match` names all calls, so that none is forgotten; a table of functions would say no more.
fn ask(question: &Question<'_>, buffers: &mut Buffers<'_>) -> Results {
    match question.call {
        Call::ReadSheet => ask_sheet(question, buffers),
        Call::Compile => ask_compile(question, buffers),
        Call::CheckPage => ask_page(question),
        Call::Style | Call::StyleBook => ask_style(question, buffers),
        Call::Run => ask_run(question, buffers),
        Call::CheckBytes => ask_bytes(question),
        Call::StyleAttribute => ask_style_attribute(question, buffers),
        Call::Colour => ask_colour(question, buffers),
        Call::Matches => ask_matches(question),
        Call::Rows => ask_rows(question, buffers.rules),
        Call::Selector => ask_selector(question, buffers),
        Call::HeightLength => ask_length(question, buffers),
        Call::Unknown => [0; RESULTS],
    }
}
