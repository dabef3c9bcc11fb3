// `hicsolmab_run`: the style rows of all elements of a page.
ghost use Rattle.std.specs.Prelude.{◌≡◌};
ghost use Rattle.running.specs.RunAnswer.{numbers_of, run_call};
ghost use Rattle.engine.specs.Style.{settings_from};
ghost use Rattle.engine.specs.Run.{answer_in};

use crate::style::settings_from;
use combinators::lent::Stores;
use combinators::refusals::{Refusal, no_refusal};
use page::lent::Page;
use running::input::RunInput;
use running::run::{RunError, run};

// The refusal's number and place; of a page that was styled the bytes of its texts. What does not apply is 0.
// Numbers, for C has no `Result`.
#[repr(C)]
#[derive(Clone, Copy)]
pub struct RunResult {
    pub refusal: u32,
    pub place: usize,
    pub texts: usize,
}

impl From<Result<usize, RunError>> for RunResult {
    ghost from_gives = { λ answer told. answer_in told ≡ numbers_of answer };

    // (The `match` is that of `StyleResult`: a function for both would be generic in the error, and so its contract in what the error tells.)
    fn from(answer: Result<usize, RunError>) -> RunResult {
        let (refusal, texts) = match answer {
            Ok(texts) => (no_refusal(), texts),
            Err(error) => (Refusal::from(error), 0),
        };
        RunResult {
            refusal: refusal.number,
            place: refusal.place,
            texts,
        }
    }
}

// Runs a compiled sheet down a page, as `run` does: the style row of each node to `rows`, the contents of `style` attributes to `texts`; the others are work
// stores. All of them come one by one, as C lends them.
#[unsafe(no_mangle)]
pub extern "C" fn hicsolmab_run(
    compiled: &[u8],
    nodes: &[u32],
    attributes: &[u32],
    text: &[u8],
    document_styles: u32,
    rows: &mut [u32],
    texts: &mut [u8],
    state: &mut [u8],
    rules: &mut [u32],
    tokens: &mut [u32],
    brackets: &mut [u8],
) -> RunResult
    ensures { record { answer = answer_in result; rows = rows.new; texts = texts.new; state = state.new; rules = rules.new; tokens = tokens.new; brackets = brackets.new }
        ≡ run_call rows.old texts.old state.old rules.old tokens.old brackets.old compiled.now (settings_from document_styles) (record { nodes = nodes.now; attributes = attributes.now; text = text.now }) }
{
    let mut stores = Stores {
        rules,
        tokens,
        brackets,
        texts,
    };
    let input = RunInput {
        settings: settings_from(document_styles),
        compiled,
        page: Page {
            nodes,
            attributes,
            text,
        },
    };
    run(input, rows, state, &mut stores).into()
}
