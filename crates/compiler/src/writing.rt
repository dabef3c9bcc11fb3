// The bytes of a compiled sheet from the rows of three sheets, one behind the other.
ghost use Rattle.std.specs.Prelude.{◌≡◌, ◌<◌, length};
ghost use Rattle.combinators.specs.Store.{emits};
ghost use Rattle.syntax.specs.Stream.{texts_many};
ghost use Rattle.origins.specs.Reading.{rules_from};
ghost use Rattle.compiled.specs.Number.{number_limit};
ghost use Rattle.compiled.specs.Sheet.{selector_bytes, encode};
ghost use Rattle.compiled.specs.Wrote.{Wrote};
ghost use Rattle.compiler.specs.Selectors.{sheet_selectors};
ghost use Rattle.compiler.specs.CompileAnswer.{room_of};
ghost use Rattle.compiler.specs.Written.{selectors_from, SheetLying, Lying, fill_of, written_in};

use crate::lent::Rows;
use crate::rules::{count_selectors, emit_rules};
use combinators::writer::Writer;
use compiled::numbers::emit_number;
use compiled::sheets::COMPILED_LIMIT;
use origins::reading::{SheetRules, SheetsRules};
use syntax::rows::{AGENT_ORIGIN, AUTHOR_ORIGIN, USER_ORIGIN};

// How many bytes of a buffer of `n` the compiled sheet may take.
pub fn room_of(n: usize) -> usize
    ensures { result ≡ room_of n }
{
    n.min(COMPILED_LIMIT)
}

// How many selectors the three sheets have.
fn count_all(rows: Rows<'_>, sheets: SheetsRules) -> usize
    requires { length (selectors_from rows.numbers.now rows.texts.now sheets) < number_limit }
    ensures { result ≡ length (selectors_from rows.entry.numbers.now rows.entry.texts.now sheets) }
{
    let agent = sheets.agent;
    let user = sheets.user;
    let author = sheets.author;
    let agents = count_selectors(rows.numbers, agent.place, agent.count);
    let users = count_selectors(rows.numbers, user.place, user.count);
    let authors = count_selectors(rows.numbers, author.place, author.count);
    agents + users + authors
}

// Writes the selectors of a sheet, whose texts count from a place of the text store on.
fn write_sheet(
    rows: Rows<'_>,
    sheet: SheetRules,
    origin: u32,
    tokens: &mut [u32],
    writer: &mut Writer<'_>,
)
    requires { SheetLying rows.numbers.now rows.texts.now tokens.old sheet }
    ensures tokens_unchanged { tokens.new ≡ tokens.old }
    ensures wrote { Wrote writer.old writer.new (texts_many selector_bytes (sheet_selectors origin (rules_from rows.entry.numbers.now rows.entry.texts.now sheet))) }
{
    let from = sheet.from;
    let own = Rows {
        numbers: rows.numbers,
        texts: &rows.texts[from..],
    };
    emit_rules(own, sheet.place, sheet.count, origin, tokens, writer);
}

// Writes the compiled sheet from the first byte on; the fill behind it.
fn write_sheets(
    rows: Rows<'_>,
    sheets: SheetsRules,
    tokens: &mut [u32],
    compiled: &mut [u8],
) -> usize
    requires { Lying rows.numbers.now rows.texts.now tokens.old sheets }
    ensures tokens_unchanged { tokens.new ≡ tokens.old }
    ensures result_after { record { bytes = compiled.new; fill = result } ≡ emits (record { bytes = compiled.old; fill = 0 }) (encode (selectors_from rows.entry.numbers.now rows.entry.texts.now sheets)) }
{
    let count = count_all(rows, sheets);
    let mut writer = Writer {
        store: compiled,
        fill: 0,
    };
    emit_number(count as u32, &mut writer);
    write_sheet(rows, sheets.agent, AGENT_ORIGIN, tokens, &mut writer);
    write_sheet(rows, sheets.user, USER_ORIGIN, tokens, &mut writer);
    write_sheet(rows, sheets.author, AUTHOR_ORIGIN, tokens, &mut writer);
    writer.fill
}

// The same within the room that a compiled sheet has in the buffer.
pub fn write_within(
    rows: Rows<'_>,
    sheets: SheetsRules,
    tokens: &mut [u32],
    compiled: &mut [u8],
) -> usize
    requires { Lying rows.numbers.now rows.texts.now tokens.old sheets }
    ensures tokens_unchanged { tokens.new ≡ tokens.old }
    ensures value { result ≡ fill_of (room_of (length compiled.old)) (encode (selectors_from rows.entry.numbers.now rows.entry.texts.now sheets)) }
    ensures compiled_after { compiled.new ≡ written_in (room_of (length compiled.old)) (encode (selectors_from rows.entry.numbers.now rows.entry.texts.now sheets)) compiled.old }
{
    let room = room_of(compiled.len());
    write_sheets(rows, sheets, tokens, &mut compiled[..room])
}
