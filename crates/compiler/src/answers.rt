// What `compile` answers, in document 01's numbers.
ghost use Rattle.std.specs.Prelude.{◌≡◌};
ghost use Rattle.compiler.specs.CompileAnswer.{refusal_of, refused_compile, numbers_of};

use crate::compile::{CompileError, Compiled};
use combinators::refusals::{
    NO_ROOM, NOT_UTF8, PANIC, Refusal, SHORT_STORE, TOO_LONG, no_refusal, refused, refused_in,
};

// The refusal; of sheets that were compiled how many bytes they take, and those of the texts that their rules name. What does not apply is 0, as C has it.
// C's struct is in a crate above: this one is what the contracts of compiling say an answer in.
#[derive(Clone, Copy)]
pub struct CompileNumbers {
    pub refusal: Refusal,
    pub bytes: usize,
    pub texts: usize,
}

impl From<CompileError> for Refusal {
    ghost from_gives = { λ error refusal. refusal ≡ refusal_of error };

    #[tactic(auto, unfolding(crate::specs::CompileAnswer::refusal_of))]
    fn from(error: CompileError) -> Refusal {
        match error {
            CompileError::TooLong => refused(TOO_LONG),
            CompileError::ShortStore => refused(SHORT_STORE),
            CompileError::NotUtf8 => refused(NOT_UTF8),
            CompileError::Panic(panic) => refused_in(PANIC, panic.text, panic.place),
            CompileError::NoRoom => refused(NO_ROOM),
        }
    }
}

// The fields are this struct's own: others with zeros in them share that shape alone.
fn refused_compile(refusal: Refusal) -> CompileNumbers
    ensures { result ≡ refused_compile refusal }
{
    CompileNumbers {
        refusal,
        bytes: 0,
        texts: 0,
    }
}

// What an answer stands for.
impl From<Result<Compiled, CompileError>> for CompileNumbers {
    ghost from_gives = { λ answer numbers. numbers ≡ numbers_of answer };

    #[tactic(auto, unfolding(crate::specs::CompileAnswer::numbers_of))]
    fn from(answer: Result<Compiled, CompileError>) -> CompileNumbers {
        match answer {
            Ok(compiled) => CompileNumbers {
                refusal: no_refusal(),
                bytes: compiled.bytes,
                texts: compiled.texts,
            },
            Err(error) => refused_compile(Refusal::from(error)),
        }
    }
}
