// `hicsolmab_compile`: three sheets into the bytes of a compiled sheet.
ghost use Rattle.std.specs.Prelude.{◌≡◌};
ghost use Rattle.compiler.specs.CompileAnswer.{compile_of};
ghost use Rattle.engine.specs.Compile.{numbers_in};

use engine::compile::CompileResult;

// Compiles three sheets, as `compile` does: the bytes to `compiled`, the texts that their rules name to `texts`; the others are work stores.
#[unsafe(no_mangle)]
pub extern "C" fn hicsolmab_compile(
    agent: &[u8],
    user: &[u8],
    author: &[u8],
    compiled: &mut [u8],
    texts: &mut [u8],
    rules: &mut [u32],
    tokens: &mut [u32],
    brackets: &mut [u8],
) -> CompileResult
    ensures { record { answer = numbers_in result; compiled = compiled.new; texts = texts.new; rules = rules.new; tokens = tokens.new; brackets = brackets.new }
        ≡ compile_of agent.now user.now author.now compiled.old texts.old rules.old tokens.old brackets.old }
{
    engine::compile::hicsolmab_compile(
        agent, user, author, compiled, texts, rules, tokens, brackets,
    )
}
