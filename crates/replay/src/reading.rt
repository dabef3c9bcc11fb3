// Calls with sheets, attributes and heights. Each answers the numbers of its result, in the order of its struct.
use crate::buffers::Buffers;
use crate::calls::{FIRST, Results};
use crate::question::Question;
use comparison::values_read::{comparison_color_attribute, comparison_style_attribute};
use engine::compile::hicsolmab_compile;
use engine::length::hicsolmab_height_length;
use engine::sheet::hicsolmab_read_sheet;

// A number of a vector is below 2^32, which an amount may exceed.
const MILLION: u64 = 1_000_000;

pub fn ask_sheet(question: &Question<'_>, buffers: &mut Buffers<'_>) -> Results {
    let came = hicsolmab_read_sheet(
        question.text(),
        buffers.rules,
        buffers.tokens,
        buffers.brackets,
        buffers.texts,
    );
    [
        came.refusal as usize,
        came.place,
        came.count,
        came.stop,
        came.numbers,
        came.bytes,
    ]
}

pub fn ask_compile(question: &Question<'_>, buffers: &mut Buffers<'_>) -> Results {
    let [agent, user, author] = question.sheets(0, FIRST);
    let came = hicsolmab_compile(
        agent,
        user,
        author,
        buffers.bytes,
        buffers.texts,
        buffers.rules,
        buffers.tokens,
        buffers.brackets,
    );
    [
        came.refusal as usize,
        came.text,
        came.place,
        came.bytes,
        came.texts,
        0,
    ]
}

pub fn ask_style_attribute(question: &Question<'_>, buffers: &mut Buffers<'_>) -> Results {
    let came = comparison_style_attribute(
        question.text(),
        buffers.rules,
        buffers.tokens,
        buffers.brackets,
        buffers.texts,
    );
    [came.refusal as usize, came.count, came.bytes, 0, 0, 0]
}

pub fn ask_colour(question: &Question<'_>, buffers: &mut Buffers<'_>) -> Results {
    let came = comparison_color_attribute(
        question.text(),
        buffers.tokens,
        buffers.brackets,
        buffers.texts,
    );
    let (refusal, found) = (came.refusal as usize, came.found as usize);
    [refusal, found, came.colour as usize, 0, 0, 0]
}

pub fn ask_length(question: &Question<'_>, buffers: &mut Buffers<'_>) -> Results {
    let came = hicsolmab_height_length(
        question.text(),
        buffers.rules,
        buffers.tokens,
        buffers.brackets,
        buffers.texts,
    );
    let amount = came.amount;
    [
        came.refusal as usize,
        came.place,
        came.kind as usize,
        (amount / MILLION) as usize,
        (amount % MILLION) as usize,
        0,
    ]
}
