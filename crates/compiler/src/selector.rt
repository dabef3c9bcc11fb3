// A selector of a rule, from its row and the rule's style rows, as its bytes.
ghost use Rattle.std.specs.Prelude.{◌≡◌, reverse, get_or, drop};
ghost use Rattle.syntax.specs.RuleLayout.{selector_components, selector_pseudo, read_component, pseudo_number, pseudo_from, read_selector};
ghost use Rattle.syntax.specs.Stream.{read_many, texts_many};
ghost use Rattle.compiled.specs.Component.{component_bytes};
ghost use Rattle.compiled.specs.Sheet.{head_bytes};
ghost use Rattle.compiled.specs.Wrote.{Wrote};
ghost use Rattle.compiler.specs.Given.{given_styles};
ghost use Rattle.compiler.specs.Writing.{styled_bytes};

use crate::lent::{Given, Rows};
use crate::styles::emit_styles;
use combinators::stores::number_at;
use combinators::writer::Writer;
use compiled::components::emit_component;
use compiled::sheets::{Head, emit_head};
use origins::walk::selector_pseudo;
use syntax::rows::{
    COMPONENT_FIRST, COMPONENT_KIND, COMPONENT_SECOND, COMPONENT_TEXT, COMPONENT_WIDTH,
    SELECTOR_COMPONENTS, SELECTOR_HEAD,
};
use syntax::walk::forward;

// Writes the component whose row starts at `at`.
fn emit_component_at(rows: Rows<'_>, at: usize, writer: &mut Writer<'_>)
    ensures { Wrote writer.old writer.new (component_bytes (read_component rows.entry.texts.now (drop at rows.entry.numbers.now)).value) }
{
    emit_component(
        number_at(rows.numbers, at, COMPONENT_KIND),
        number_at(rows.numbers, at, COMPONENT_TEXT),
        number_at(rows.numbers, at, COMPONENT_FIRST),
        number_at(rows.numbers, at, COMPONENT_SECOND),
        rows.texts,
        writer,
    );
}

// Writes `count` components whose rows start at `at`, the last first. The count is what the selector's row says, and there may be fewer (as in rules.rt).
fn emit_components(rows: Rows<'_>, at: usize, count: u32, writer: &mut Writer<'_>)
    ensures { Wrote writer.old writer.new (texts_many component_bytes (reverse (read_many (read_component rows.entry.texts.now) count (drop at rows.entry.numbers.now)).value)) }
{
    for before in (0..count).rev() {
        let place = forward(rows.numbers, at, COMPONENT_WIDTH * before as usize);
        emit_component_at(rows, place, writer);
    }
}

// Writes what stands before the components of the selector whose row starts at `at`.
fn emit_selector_head(rows: &[u32], at: usize, origin: u32, writer: &mut Writer<'_>)
    ensures { Wrote writer.old writer.new (head_bytes origin (pseudo_number (pseudo_from (get_or (drop at rows.now) selector_pseudo 0))) (get_or (drop at rows.now) selector_components 0)) }
{
    let head = Head {
        origin,
        pseudo: selector_pseudo(rows, at),
        count: number_at(rows, at, SELECTOR_COMPONENTS),
    };
    emit_head(head, writer);
}

// Writes the selector whose row starts at `at`, with what its rule gives it.
pub fn emit_selector(rows: Rows<'_>, at: usize, given: Given<'_>, writer: &mut Writer<'_>)
    ensures { Wrote writer.old writer.new (styled_bytes given.entry.origin (given_styles given.entry) (read_selector rows.entry.texts.now (drop at rows.entry.numbers.now)).value) }
{
    emit_selector_head(rows.numbers, at, given.origin, writer);
    let components = number_at(rows.numbers, at, SELECTOR_COMPONENTS);
    let first = forward(rows.numbers, at, SELECTOR_HEAD);
    emit_components(rows, first, components, writer);
    emit_styles(given.styles, given.count, writer);
}
