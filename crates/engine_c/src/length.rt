// `hicsolmab_height_length`: the length that a height's value is.
ghost use Rattle.std.specs.Prelude.{◌≡◌};
ghost use Rattle.lengths.specs.HeightLength.{height_length};
ghost use Rattle.engine.specs.Length.{numbers_in};

use engine::length::LengthResult;

// Reads a height's value, as `height_length` does; all four are work stores.
#[unsafe(no_mangle)]
pub extern "C" fn hicsolmab_height_length(
    value: &[u8],
    rules: &mut [u32],
    tokens: &mut [u32],
    brackets: &mut [u8],
    texts: &mut [u8],
) -> LengthResult
    ensures { record { answer = numbers_in result; rules = rules.new; tokens = tokens.new; brackets = brackets.new; texts = texts.new } ≡ height_length value.now rules.old tokens.old brackets.old texts.old }
{
    engine::length::hicsolmab_height_length(value, rules, tokens, brackets, texts)
}
