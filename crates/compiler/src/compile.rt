// `compile`: three sheets into the bytes of a compiled sheet. Refusals are looked for in the order of their numbers; nothing is written before all
// texts are known to be UTF-8, and all sheets are read before the room for the bytes is judged.
ghost use Rattle.std.specs.Prelude.{◌≡◌};
ghost use Rattle.compiler.specs.declared.compile.CompileError.TheVariants as CompileError;
ghost use Rattle.combinators.specs.Lent.{SameStores};
ghost use Rattle.compiler.specs.CompileAnswer.{numbers_of, leaving, LentOf, compiled_left_of, compile_call_of};

use crate::lent::Rows;
use crate::writing::{room_of, write_within};
use combinators::lent::{SheetTexts, Stores};
use origins::checks::{all_valid, any_too_long};
use origins::reading::{SheetPanic, read_sheets};

// How many bytes the compiled sheet has, and the texts that its rules name.
#[derive(Clone, Copy, Debug, PartialEq, Eq)]
pub struct Compiled {
    pub bytes: usize,
    pub texts: usize,
}

// Why sheets are refused; of a panic the sheet and the byte where the crate panics. It is the error of a `Result`: no variant stands for sheets that compile.
#[derive(Clone, Copy, Debug, PartialEq, Eq)]
pub enum CompileError {
    TooLong,
    ShortStore,
    NotUtf8,
    Panic(SheetPanic),
    NoRoom,
}

impl From<SheetPanic> for CompileError {
    ghost from_gives = { λ panic error. error ≡ CompileError.Panic panic };

    fn from(panic: SheetPanic) -> CompileError {
        CompileError::Panic(panic)
    }
}

// Compiles sheets for which the stores suffice, whatever the buffers hold. The clause joins the sheets with the stores, which are lent apart, shared and to
// write in, so neither struct can carry it.
fn compile_texts(
    sheets: SheetTexts<'_>,
    compiled: &mut [u8],
    stores: &mut Stores<'_>,
) -> Result<Compiled, CompileError>
    requires { LentOf sheets stores.old }
    ensures same { SameStores stores.old stores.new }
    ensures buffers_after { leaving (numbers_of result) compiled.new stores.new ≡ compiled_left_of sheets.entry compiled.old stores.old }
{
    compiled.fill(0);
    stores.clear();
    let read = read_sheets(sheets, stores)?;
    let rules = &mut *stores.rules;
    let texts = &mut *stores.texts;
    let rows = Rows {
        numbers: rules,
        texts,
    };
    let bytes = write_within(rows, read, stores.tokens, compiled);
    rules.fill(0);
    if bytes > room_of(compiled.len()) {
        compiled.fill(0);
        texts.fill(0);
        return Err(CompileError::NoRoom);
    }
    Ok(Compiled {
        bytes,
        texts: read.end,
    })
}

// Compiles three sheets into `compiled`; the stores' texts are then those that their rules name.
pub fn compile(
    sheets: SheetTexts<'_>,
    compiled: &mut [u8],
    stores: &mut Stores<'_>,
) -> Result<Compiled, CompileError>
    ensures same { SameStores stores.old stores.new }
    ensures buffers_after { leaving (numbers_of result) compiled.new stores.new ≡ compile_call_of sheets.entry compiled.old stores.old }
{
    if any_too_long(sheets.agent.len(), sheets.user.len(), sheets.author.len()) {
        return Err(CompileError::TooLong);
    }
    if !stores.suffice(sheets.bytes()) {
        return Err(CompileError::ShortStore);
    }
    if !all_valid(sheets) {
        return Err(CompileError::NotUtf8);
    }
    compile_texts(sheets, compiled, stores)
}
