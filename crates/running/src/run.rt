// `run`: the style rows of all elements of a page. Refusals are looked for in the order of document 01; nothing is written before all of them are ruled out.
// (Rows, state and stores are lent one by one: see rows.rt.)
ghost use Rattle.std.specs.Prelude.{◌≡◌, Ok};
ghost use Rattle.combinators.specs.Lent.{SameStores};
ghost use Rattle.running.specs.Ready.{LengthsOf, RunReadyOf};
ghost use Rattle.running.specs.RunAnswer.{numbers_of, left_in, run_refusal, ran_of, run_call_of};

use crate::input::RunInput;
use crate::rows::run_rows;
use crate::suffices::lent_suffices;
use cascade::rows::STYLE_ROW_WIDTH;
use combinators::lent::Stores;
use combinators::refusals::{Refusal, SHORT_STORE, TOO_LONG, refused};
use compiled::bytes::SheetBytes;
use compiled::places::Fault;
use compiled::sheets::COMPILED_LIMIT;
use page::check::{PageError, check_page};
use page::rows::node_count;

// Why a page is not styled: compiled bytes over the limit, a lent buffer that is too short, a page that is not accepted, or bytes that are no sheet. It is the
// error of a `Result`: no variant stands for a page that is styled.
#[derive(Clone, Copy, Debug, PartialEq, Eq)]
pub enum RunError {
    TooLong,
    ShortStore,
    BadPage(PageError),
    BadBytes(Fault),
}

impl From<PageError> for RunError {
    ghost use Rattle.running.specs.declared.run.RunError.{RunError};

    ghost from_gives = { λ page error. error ≡ RunError.BadPage page };

    fn from(page: PageError) -> RunError {
        RunError::BadPage(page)
    }
}

impl From<Fault> for RunError {
    ghost use Rattle.running.specs.declared.run.RunError.{RunError};

    ghost from_gives = { λ fault error. error ≡ RunError.BadBytes fault };

    fn from(fault: Fault) -> RunError {
        RunError::BadBytes(fault)
    }
}

impl From<RunError> for Refusal {
    ghost from_gives = { λ error refusal. refusal ≡ run_refusal error };

    #[tactic(auto, unfolding(crate::specs::RunAnswer::run_refusal))]
    fn from(error: RunError) -> Refusal {
        match error {
            RunError::TooLong => refused(TOO_LONG),
            RunError::ShortStore => refused(SHORT_STORE),
            RunError::BadPage(page) => Refusal::from(page),
            RunError::BadBytes(fault) => Refusal::from(fault),
        }
    }
}

// Runs a compiled sheet down a page, where nothing is refused.
fn run_page(
    input: RunInput<'_>,
    rows: &mut [u32],
    state: &mut [u8],
    stores: &mut Stores<'_>,
) -> usize
    requires { RunReadyOf input rows.old state.old stores.old }
    ensures left { left_in (numbers_of (Ok result)) rows.new state.new stores.new
        ≡ ran_of input.entry rows.old state.old stores.old }
    ensures same { SameStores stores.old stores.new }
{
    let fill = run_rows(input, rows, state, stores);
    let styled = node_count(input.page.nodes) * STYLE_ROW_WIDTH;
    rows[styled..].fill(0);
    stores.texts[fill..].fill(0);
    stores.clear_work();
    state.fill(0);
    fill
}

// Runs a compiled sheet down a page, where the buffers are long enough: the page is looked at first.
fn run_checked(
    input: RunInput<'_>,
    rows: &mut [u32],
    state: &mut [u8],
    stores: &mut Stores<'_>,
) -> Result<usize, RunError>
    requires { LengthsOf input rows.old state.old stores.old }
    ensures left { left_in (numbers_of result) rows.new state.new stores.new
        ≡ run_call_of input.entry rows.old state.old stores.old }
    ensures same { SameStores stores.old stores.new }
{
    check_page(input.page)?;
    let sheet = SheetBytes {
        bytes: input.compiled,
    };
    sheet.check_sheet()?;
    Ok(run_page(input, rows, state, stores))
}

// Runs a compiled sheet down a page: the style row of each node to `rows`, the contents of `style` attributes to `texts`; the others are work stores.
pub fn run(
    input: RunInput<'_>,
    rows: &mut [u32],
    state: &mut [u8],
    stores: &mut Stores<'_>,
) -> Result<usize, RunError>
    ensures left { left_in (numbers_of result) rows.new state.new stores.new
        ≡ run_call_of input.entry rows.old state.old stores.old }
    ensures same { SameStores stores.old stores.new }
{
    if input.compiled.len() > COMPILED_LIMIT {
        return Err(RunError::TooLong);
    }
    if !lent_suffices(input, rows, state, stores) {
        return Err(RunError::ShortStore);
    }
    run_checked(input, rows, state, stores)
}
