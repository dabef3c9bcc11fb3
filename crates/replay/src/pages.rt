// Calls with a page or with compiled bytes. Each answers the numbers of its result, in the order of its struct.
use crate::buffers::Buffers;
use crate::calls::{COMPONENTS, COUNT, FIRST, ROW, Results};
use crate::question::Question;
use comparison::bytes::comparison_check_bytes;
use comparison::matches::{MatchResult, comparison_matches};
use engine::pages::hicsolmab_check_page;
use engine::sheet::hicsolmab_read_sheet;
use page::rows::NODE_WIDTH;

pub fn ask_bytes(question: &Question<'_>) -> Results {
    let came = comparison_check_bytes(question.text());
    [came.refusal as usize, came.place, 0, 0, 0, 0]
}

pub fn ask_page(question: &Question<'_>) -> Results {
    let came = hicsolmab_check_page(question.nodes(), question.attributes(), question.page());
    [came.refusal as usize, came.place, 0, 0, 0, 0]
}

// Whether components match a row of the page.
fn match_row(question: &Question<'_>, components: &[u32], names: &[u8], row: usize) -> MatchResult {
    comparison_matches(
        components,
        question.length(COUNT),
        names,
        question.nodes(),
        question.attributes(),
        question.page(),
        row,
    )
}

// A function and no `From`: neither type is of this crate.
fn match_numbers(came: MatchResult) -> Results {
    [
        came.refusal as usize,
        came.place,
        came.matches as usize,
        came.ids as usize,
        came.classes as usize,
        came.types as usize,
    ]
}

pub fn ask_matches(question: &Question<'_>) -> Results {
    let row = question.length(ROW);
    match_numbers(match_row(question, question.components(), question.names(), row))
}

// The numbers of a row's answer: the refusal, whether it matches, and the specificity.
const ROW_NUMBERS: usize = 5;

// Puts them into the slots of the row, which may be fewer at the end of what is lent.
fn put_row(came: MatchResult, slots: &mut [u32]) {
    let numbers: [u32; ROW_NUMBERS] = [
        came.refusal,
        came.matches,
        came.ids,
        came.classes,
        came.types,
    ];
    let n = slots.len().min(ROW_NUMBERS);
    slots[..n].copy_from_slice(&numbers[..n]);
}

/// Asks for each row of the page for which `rules` have slots. The result is how many rows there are.
pub fn ask_rows(question: &Question<'_>, rules: &mut [u32]) -> Results {
    let components = question.components();
    let names = question.names();
    let rows = question.length(FIRST) / NODE_WIDTH;
    for (row, slots) in rules.chunks_mut(ROW_NUMBERS).take(rows).enumerate() {
        let came = match_row(question, components, names, row);
        put_row(came, slots);
    }
    [rows, 0, 0, 0, 0, 0]
}

// Whether components from a place of the rules on match the row, where the sheet's texts are read.
fn match_rule(question: &Question<'_>, buffers: &Buffers<'_>) -> MatchResult {
    let start = question.length(COMPONENTS);
    let components = buffers.rules.get(start..).unwrap_or_default();
    match_row(question, components, buffers.texts, question.length(ROW))
}

/// Reads a sheet, and asks for a row with components of its rules.
pub fn ask_selector(question: &Question<'_>, buffers: &mut Buffers<'_>) -> Results {
    hicsolmab_read_sheet(
        question.names(),
        buffers.rules,
        buffers.tokens,
        buffers.brackets,
        buffers.texts,
    );
    match_numbers(match_rule(question, buffers))
}
