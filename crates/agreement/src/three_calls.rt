// Demand 3 as a contract: three sheets are compiled, their bytes are run down a page, and a row of it is asked of the style call. The run's row is the style call's.
// The three calls are told different things, compiling no page, the run no sheets, the style call one row of the page, and each is made here with what its
// entry point lists: a struct for one of them would be taken apart again for it.
ghost use Rattle.std.specs.Prelude.{◌≡◌, take};
ghost use Rattle.combinators.specs.Lent.{SameStores};
ghost use Rattle.compiler.specs.CompileAnswer as compiling;
ghost use Rattle.page.specs.Lent.{page_in};
ghost use Rattle.styles.specs.Lent.{sheets_in};
ghost use Rattle.styling.specs.StyleAnswer.{numbers_of, left_in};
ghost use Rattle.running.specs.RunAnswer as run;
ghost use Rattle.agreement.specs.Agreed.{Agreed};
ghost use Rattle.agreement.specs.Calls.{compile_lent, run_lent, style_lent, compile_with, run_with, style_with};

use combinators::lent::{SheetTexts, Stores};
use compiler::answers::CompileNumbers;
use compiler::compile::{CompileError, Compiled, compile};
use page::lent::Page;
use running::input::RunInput;
use running::run::{RunError, run};
use styles::settings::Settings;
use styling::style::{StyleError, style};

// What compiling and the run answer.
#[derive(Clone, Copy)]
pub struct RunAnswers {
    pub compiling: Result<Compiled, CompileError>,
    pub running: Result<usize, RunError>,
}

// What the three calls answer.
#[derive(Clone, Copy)]
pub struct CallAnswers {
    pub run: RunAnswers,
    pub styling: Result<usize, StyleError>,
}

// Compiles three sheets and runs their bytes down a page. Where the sheets are refused the run is of no bytes.
fn compile_and_run(
    settings: Settings,
    sheets: SheetTexts<'_>,
    page: Page<'_>,
    compiled: &mut [u8],
    compile_stores: &mut Stores<'_>,
    rows: &mut [u32],
    state: &mut [u8],
    run_stores: &mut Stores<'_>,
) -> RunAnswers
    ensures compile_after { compiling.leaving (compiling.numbers_of result.compiling) compiled.new compile_stores.new
        ≡ compile_with (sheets_in sheets.entry) (compile_lent compiled.old compile_stores.old) }
    ensures run_after { run.left_in (run.numbers_of result.running) rows.new state.new run_stores.new
        ≡ run_with (take (compiling.numbers_of result.compiling).bytes compiled.new) settings (page_in page.entry) (run_lent rows.old state.old run_stores.old) }
    ensures compile_same { SameStores compile_stores.old compile_stores.new }
    ensures run_same { SameStores run_stores.old run_stores.new }
{
    let compiling = compile(sheets, compiled, compile_stores);
    let bytes = CompileNumbers::from(compiling).bytes;
    let input = RunInput {
        settings,
        compiled: &compiled[..bytes],
        page,
    };
    let running = run(input, rows, state, run_stores);
    RunAnswers { compiling, running }
}

// Compiles three sheets, runs their bytes down a page, and styles a row of it: each call over buffers of its own, and each is made whatever the others answer.
pub fn compile_run_style(
    settings: Settings,
    sheets: SheetTexts<'_>,
    page: Page<'_>,
    row: usize,
    compiled: &mut [u8],
    compile_stores: &mut Stores<'_>,
    rows: &mut [u32],
    state: &mut [u8],
    run_stores: &mut Stores<'_>,
    out: &mut [u32],
    style_stores: &mut Stores<'_>,
) -> CallAnswers
    ensures compile_after { compiling.leaving (compiling.numbers_of result.run.compiling) compiled.new compile_stores.new
        ≡ compile_with (sheets_in sheets.entry) (compile_lent compiled.old compile_stores.old) }
    ensures run_after { run.left_in (run.numbers_of result.run.running) rows.new state.new run_stores.new
        ≡ run_with (take (compiling.numbers_of result.run.compiling).bytes compiled.new) settings (page_in page.entry) (run_lent rows.old state.old run_stores.old) }
    ensures style_after { left_in (numbers_of result.styling) out.new style_stores.new
        ≡ style_with settings (sheets_in sheets.entry) (page_in page.entry) row (style_lent out.old style_stores.old) }
    ensures agreed { Agreed (compiling.leaving (compiling.numbers_of result.run.compiling) compiled.new compile_stores.new) (run.left_in (run.numbers_of result.run.running) rows.new state.new run_stores.new) (left_in (numbers_of result.styling) out.new style_stores.new) row }
    ensures compile_same { SameStores compile_stores.old compile_stores.new }
    ensures run_same { SameStores run_stores.old run_stores.new }
    ensures style_same { SameStores style_stores.old style_stores.new }
{
    let run = compile_and_run(
        settings,
        sheets,
        page,
        compiled,
        compile_stores,
        rows,
        state,
        run_stores,
    );
    let styling = style(settings, sheets, page, row, out, style_stores);
    CallAnswers { run, styling }
}
