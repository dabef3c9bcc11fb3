// The three sheets read into one set of stores, one behind the other.
ghost use Rattle.std.specs.Prelude.{◌≡◌, length};
ghost use Rattle.std.proofs.lemmas.List.Edits.{sets};
ghost use Rattle.combinators.specs.Lent.{SameStores, SameWork, OfStores};
ghost use Rattle.syntax.specs.RuleLayout.{rule_rows, rule_texts};
ghost use Rattle.selectors.specs.Reading.{many_reading, written};
ghost use Rattle.sheets.specs.Rules.{SheetRoom};
ghost use Rattle.sheets.specs.Sheet.{sheet_of};
ghost use Rattle.origins.specs.Reading.{ReadRoom, RulesBounds, in_sheet, stored_behind, sheets_of, sheets_rows, sheets_texts, sheets_answer, SheetsRoom};

use combinators::lent::{SheetTexts, Stores};
use selectors::readings::{Panic, Read, take_back};
use sheets::statements::parse_stylesheet;

// The sheets by their numbers in a refusal, where alone they are told: an enum would be made here to be turned back into these numbers there.
pub const AGENT_TEXT: usize = 0;

pub const USER_TEXT: usize = 1;

pub const AUTHOR_TEXT: usize = 2;

// Of a sheet in stores that hold several: how many rules, and where their numbers and their texts start.
#[derive(Clone, Copy, Debug, PartialEq, Eq)]
pub struct SheetRules {
    pub count: usize,
    pub place: usize,
    pub from: usize,
}

// What there is of each of three sheets, and where the texts of their rules end.
#[derive(Clone, Copy, Debug, PartialEq, Eq)]
pub struct Sheets<T> {
    pub agent: T,
    pub user: T,
    pub author: T,
    pub end: usize,
}

pub type SheetsRules = Sheets<SheetRules>;

// Of three sheets: the sheet and the byte where the crate panics.
#[derive(Clone, Copy, Debug, PartialEq, Eq)]
pub struct SheetPanic {
    pub text: usize,
    pub place: usize,
}

// Reads a sheet into parts of stores. The struct is made here, since the borrow checker does not cover one that is made of parts of another's slices.
fn read_part(
    s: &[u8],
    rules: &mut [u32],
    tokens: &mut [u32],
    brackets: &mut [u8],
    texts: &mut [u8],
) -> Result<Read, Panic>
    requires { SheetRoom s.now rules.old tokens.old brackets.old texts.old }
    ensures value { result ≡ many_reading length (rule_rows 0) rule_texts (sheet_of s.now) }
    ensures rules_after { rules.new ≡ sets rules.old 0 (written (rule_rows 0) (sheet_of s.now)) }
    ensures tokens_unchanged { tokens.new ≡ tokens.old }
    ensures brackets_unchanged { brackets.new ≡ brackets.old }
    ensures texts_after { texts.new ≡ sets texts.old 0 (written rule_texts (sheet_of s.now)) }
{
    let mut stores = Stores {
        rules,
        tokens,
        brackets,
        texts,
    };
    parse_stylesheet(s, &mut stores)
}

// Reads a sheet behind what the stores hold: its numbers from `place` on, its texts from `fill` on, which is where its rows count from. Both
// go on from sheet to sheet, so they stand beside the stores.
fn read_behind(s: &[u8], stores: &mut Stores<'_>, place: usize, fill: usize) -> Result<Read, Panic>
    requires { OfStores (ReadRoom s.now) stores.old place fill }
    ensures same { SameStores stores.old stores.new }
    ensures work_unchanged { SameWork stores.old stores.new }
    ensures value { result ≡ many_reading length (rule_rows 0) rule_texts (sheet_of s.now) }
    ensures rules_after { stores.new.rules.now ≡ sets stores.old.rules.now place (written (rule_rows 0) (sheet_of s.now)) }
    ensures texts_after { stores.new.texts.now ≡ sets stores.old.texts.now fill (written rule_texts (sheet_of s.now)) }
    ensures rules_bounds { RulesBounds s.now result }
{
    read_part(
        s,
        &mut stores.rules[place..],
        stores.tokens,
        stores.brackets,
        &mut stores.texts[fill..],
    )
}

// Reads the sheet of a number behind those before it; where the crate panics, what they left is wiped. No map_err: its closure would take the stores along, of
// which nothing would be known behind it.
fn read_next(
    text: usize,
    s: &[u8],
    stores: &mut Stores<'_>,
    place: usize,
    fill: usize,
) -> Result<Read, SheetPanic>
    requires { OfStores (ReadRoom s.now) stores.old place fill }
    ensures same { SameStores stores.old stores.new }
    ensures work_unchanged { SameWork stores.old stores.new }
    ensures value { result ≡ in_sheet text (many_reading length (rule_rows 0) rule_texts (sheet_of s.now)) }
    ensures rules_after { stores.new.rules.now ≡ stored_behind (rule_rows 0) (sheet_of s.now) place stores.old.rules.now }
    ensures texts_after { stores.new.texts.now ≡ stored_behind rule_texts (sheet_of s.now) fill stores.old.texts.now }
    ensures rules_bounds { RulesBounds s.now result }
{
    match read_behind(s, stores, place, fill) {
        Ok(read) => Ok(read),
        Err(panic) => {
            take_back(stores, 0, place, 0, fill);
            Err(SheetPanic {
                text,
                place: panic.place,
            })
        }
    }
}

// Reads the three sheets into stores that are zero; where the crate panics they are zero again.
pub fn read_sheets(
    sheets: SheetTexts<'_>,
    stores: &mut Stores<'_>,
) -> Result<SheetsRules, SheetPanic>
    requires { SheetsRoom sheets.agent.now sheets.user.now sheets.author.now stores.old.rules.now stores.old.tokens.now stores.old.brackets.now stores.old.texts.now }
    ensures same { SameStores stores.old stores.new }
    ensures work_unchanged { SameWork stores.old stores.new }
    ensures value { result ≡ sheets_answer (sheets_of sheets.entry.agent.now sheets.entry.user.now sheets.entry.author.now) }
    ensures rules_after { stores.new.rules.now ≡ sets stores.old.rules.now 0 (sheets_rows (sheets_of sheets.entry.agent.now sheets.entry.user.now sheets.entry.author.now)) }
    ensures texts_after { stores.new.texts.now ≡ sets stores.old.texts.now 0 (sheets_texts (sheets_of sheets.entry.agent.now sheets.entry.user.now sheets.entry.author.now)) }
{
    let agents = read_next(AGENT_TEXT, sheets.agent, stores, 0, 0)?;
    let numbers = agents.numbers;
    let bytes = agents.text;
    let users = read_next(USER_TEXT, sheets.user, stores, numbers, bytes)?;
    let place = numbers + users.numbers;
    let from = bytes + users.text;
    let authors = read_next(AUTHOR_TEXT, sheets.author, stores, place, from)?;
    Ok(Sheets {
        agent: SheetRules {
            count: agents.count,
            place: 0,
            from: 0,
        },
        user: SheetRules {
            count: users.count,
            place: numbers,
            from: bytes,
        },
        author: SheetRules {
            count: authors.count,
            place,
            from,
        },
        end: from + authors.text,
    })
}
