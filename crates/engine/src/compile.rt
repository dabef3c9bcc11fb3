// `hicsolmab_compile`: three sheets into the bytes of a compiled sheet.
ghost use Rattle.std.specs.Prelude.{◌≡◌};
ghost use Rattle.compiler.specs.CompileAnswer.{numbers_of, compile_of};
ghost use Rattle.engine.specs.Compile.{numbers_in};

use combinators::lent::{SheetTexts, Stores};
use compiler::answers::CompileNumbers;
use compiler::compile::{CompileError, Compiled, compile};

// The refusal's number, text and place; of sheets that were compiled how many bytes they take, and those of the texts that their rules name. What does
// not apply is 0. Numbers, for C has no `Result`.
#[repr(C)]
#[derive(Clone, Copy)]
pub struct CompileResult {
    pub refusal: u32,
    pub text: usize,
    pub place: usize,
    pub bytes: usize,
    pub texts: usize,
}

impl From<Result<Compiled, CompileError>> for CompileResult {
    ghost from_gives = { λ answer told. numbers_in told ≡ numbers_of answer };

    #[tactic(auto, unfolding(crate::specs::Compile::numbers_in))]
    fn from(answer: Result<Compiled, CompileError>) -> CompileResult {
        let CompileNumbers {
            refusal,
            bytes,
            texts,
        } = CompileNumbers::from(answer);
        CompileResult {
            refusal: refusal.number,
            text: refusal.text,
            place: refusal.place,
            bytes,
            texts,
        }
    }
}

// Compiles three sheets, as `compile` does: the bytes to `compiled`, the texts that their rules name to `texts`; the others are work stores.
// Sheets and stores come one by one, as C lends them.
#[unsafe(no_mangle)]
pub extern "C" fn hicsolmab_compile(
    agent: &[u8],
    user: &[u8],
    author: &[u8],
    compiled: &mut [u8],
    texts: &mut [u8],
    rules: &mut [u32],
    tokens: &mut [u32],
    brackets: &mut [u8],
) -> CompileResult
    ensures { record { answer = numbers_in result; compiled = compiled.new; texts = texts.new; rules = rules.new; tokens = tokens.new; brackets = brackets.new }
        ≡ compile_of agent.now user.now author.now compiled.old texts.old rules.old tokens.old brackets.old }
{
    let sheets = SheetTexts {
        agent,
        user,
        author,
    };
    let mut stores = Stores {
        rules,
        tokens,
        brackets,
        texts,
    };
    compile(sheets, compiled, &mut stores).into()
}
