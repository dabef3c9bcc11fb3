// Three sheets whose styles are made.
ghost use Rattle.std.specs.Prelude.{◌≡◌};
ghost use Rattle.std.proofs.lemmas.List.Edits.{sets};
ghost use Rattle.styles.specs.StyleCall.{sheets_contents};
ghost use Rattle.rule_styles.specs.Held.{sheets_from, SheetsHeld, sheets_kept, styled_places};

use crate::placing::{Placed, style_rules};
use origins::reading::{SheetRules, Sheets, SheetsRules};

// A sheet: its rules, and where its styles start in the store of tokens.
#[derive(Clone, Copy)]
pub struct StyledSheet {
    pub rules: SheetRules,
    pub styles: usize,
}

// Three sheets of which something is kept: where their rows and all that is kept of them end, and how far the store of contents behind the texts is filled.
#[derive(Clone, Copy)]
pub struct KeptSheets<T> {
    pub sheets: Sheets<T>,
    pub rows: usize,
    pub behind: usize,
    pub fill: usize,
}

pub type StyledSheets = KeptSheets<StyledSheet>;

// Makes the styles of three sheets that were read: those that decide are kept in `tokens`, their contents behind the texts of the sheets. Each sheet's places follow
// from those of the one before, so the three are written out. The stores come one by one: the rules are only read, as their type says. Each sheet's texts are cut here,
// as the clauses of its rules are about its own.
pub fn style_sheets(
    rules: &[u32],
    sheets: SheetsRules,
    tokens: &mut [u32],
    texts: &mut [u8],
) -> StyledSheets
    requires { SheetsHeld sheets rules.now tokens.old texts.old }
    ensures value { result ≡ styled_places sheets (sheets_from rules.now texts.old sheets) }
    ensures tokens_after { tokens.new ≡ sets tokens.old 0 (sheets_kept (sheets_from rules.now texts.old sheets)) }
    ensures texts_after { texts.new ≡ sets texts.old sheets.end (sheets_contents (sheets_from rules.now texts.old sheets)) }
{
    let (text, contents) = texts.split_at_mut(sheets.end);
    let own = &text[sheets.agent.from..];
    let agent = style_rules(rules, sheets.agent, own, tokens, contents, Placed::BEGIN);
    let own = &text[sheets.user.from..];
    let user = style_rules(rules, sheets.user, own, tokens, contents, agent.placed);
    let own = &text[sheets.author.from..];
    let author = style_rules(rules, sheets.author, own, tokens, contents, user.placed);
    let styled = Sheets {
        agent: StyledSheet {
            rules: sheets.agent,
            styles: 0,
        },
        user: StyledSheet {
            rules: sheets.user,
            styles: agent.placed.place,
        },
        author: StyledSheet {
            rules: sheets.author,
            styles: user.placed.place,
        },
        end: sheets.end,
    };
    KeptSheets {
        sheets: styled,
        rows: author.rows,
        behind: author.placed.place,
        fill: author.placed.fill,
    }
}
