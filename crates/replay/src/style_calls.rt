// Calls for styles: of an element, by a page, three sheets behind it, a row and whether document styles are on; and of all elements, by a page, a compiled
// sheet behind it, and whether document styles are on.
use crate::buffers::Buffers;
use crate::calls::{AGENT, Call, DOCUMENT_STYLES, ROW, RUN_DOCUMENT_STYLES, Results, THIRD};
use crate::question::Question;
use engine::run::hicsolmab_run;
use engine::style::{hicsolmab_style, hicsolmab_style_book};

/// The style of an element, by the cascade of the call. Each arm writes the arguments of its function: of an `extern "C"` function there is no pointer, and a closure
/// would write all thirteen too.
pub fn ask_style(question: &Question<'_>, buffers: &mut Buffers<'_>) -> Results {
    let [agent, user, author] = question.sheets(question.length(THIRD), AGENT);
    let (nodes, attributes, page) = (question.nodes(), question.attributes(), question.page());
    let (row, switch) = (question.length(ROW), question.number(DOCUMENT_STYLES));
    let came = match question.call {
        Call::StyleBook => hicsolmab_style_book(
            agent,
            user,
            author,
            nodes,
            attributes,
            page,
            row,
            switch,
            buffers.out,
            buffers.texts,
            buffers.rules,
            buffers.tokens,
            buffers.brackets,
        ),
        _ => hicsolmab_style(
            agent,
            user,
            author,
            nodes,
            attributes,
            page,
            row,
            switch,
            buffers.out,
            buffers.texts,
            buffers.rules,
            buffers.tokens,
            buffers.brackets,
        ),
    };
    let (refusal, text) = (came.refusal as usize, came.text);
    [refusal, text, came.place, came.texts, 0, 0]
}

/// The styles of all elements.
pub fn ask_run(question: &Question<'_>, buffers: &mut Buffers<'_>) -> Results {
    let came = hicsolmab_run(
        question.compiled(),
        question.nodes(),
        question.attributes(),
        question.page(),
        question.number(RUN_DOCUMENT_STYLES),
        buffers.out,
        buffers.texts,
        buffers.bytes,
        buffers.rules,
        buffers.tokens,
        buffers.brackets,
    );
    [came.refusal as usize, came.place, came.texts, 0, 0, 0]
}
