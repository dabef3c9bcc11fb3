// `comparison_style_attribute` and `comparison_color_attribute`: what a `style` attribute says, and the colour of a `color` or `bgcolor` attribute.
ghost use Rattle.std.specs.Prelude.{◌≡◌};
ghost use Rattle.comparison.specs.Attributes.{style_called, colour_called};

use comparison::values_read::{ColourResult, StylesResult};

// Reads a `style` attribute: the rows of its styles to `tokens`, their texts to `texts`, each from 0 on. A value that a page cannot have, being
// longer than all of a page's texts, is refused.
#[unsafe(no_mangle)]
pub extern "C" fn comparison_style_attribute(
    value: &[u8],
    rules: &mut [u32],
    tokens: &mut [u32],
    brackets: &mut [u8],
    texts: &mut [u8],
) -> StylesResult
    ensures { record { result = result; rules = rules.new; tokens = tokens.new; brackets = brackets.new; texts = texts.new } ≡ style_called value.now rules.old tokens.old brackets.old texts.old }
{
    comparison::values_read::comparison_style_attribute(value, rules, tokens, brackets, texts)
}

// Reads a `color` or `bgcolor` attribute; all stores are work stores. There are no rules, so `tokens` is tested in their place too.
#[unsafe(no_mangle)]
pub extern "C" fn comparison_color_attribute(
    value: &[u8],
    tokens: &mut [u32],
    brackets: &mut [u8],
    texts: &mut [u8],
) -> ColourResult
    ensures { record { result = result; tokens = tokens.new; brackets = brackets.new; texts = texts.new } ≡ colour_called value.now tokens.old brackets.old texts.old }
{
    comparison::values_read::comparison_color_attribute(value, tokens, brackets, texts)
}
