// `hicsolmab_read_sheet`: a sheet into lent stores.
ghost use Rattle.std.specs.Prelude.{◌≡◌};
ghost use Rattle.sheets.specs.SheetAnswer.{read_sheet};
ghost use Rattle.engine.specs.Sheet.{numbers_in};

use engine::sheet::SheetResult;

// Reads a sheet, as `read_sheet` does: its rules to `rules`, their texts to `texts`; `tokens` and `brackets` are work stores.
#[unsafe(no_mangle)]
pub extern "C" fn hicsolmab_read_sheet(
    sheet: &[u8],
    rules: &mut [u32],
    tokens: &mut [u32],
    brackets: &mut [u8],
    texts: &mut [u8],
) -> SheetResult
    ensures { record { answer = numbers_in result; rules = rules.new; tokens = tokens.new; brackets = brackets.new; texts = texts.new } ≡ read_sheet sheet.now rules.old tokens.old brackets.old texts.old }
{
    engine::sheet::hicsolmab_read_sheet(sheet, rules, tokens, brackets, texts)
}
