// `comparison_matches`: whether a selector, in component rows, matches an element of a page, and how specific it is.
ghost use Rattle.std.specs.Prelude.{◌≡◌};
ghost use Rattle.comparison.specs.Matches.{match_called};

use comparison::matches::MatchResult;

// Whether the first `count` components, with their texts in `texts`, match a row of the page: `do_matches` and `specificity` of a selector whose
// components lie in reading order. Every component must be there; one of a kind above 8, which no selector has, is read as an attribute selector.
// C may lend more components than the selector has, so `count` comes beside them.
#[unsafe(no_mangle)]
pub extern "C" fn comparison_matches(
    components: &[u32],
    count: usize,
    texts: &[u8],
    nodes: &[u32],
    attributes: &[u32],
    text: &[u8],
    row: usize,
) -> MatchResult
    ensures { result ≡ match_called components.now count texts.now nodes.now attributes.now text.now row }
{
    comparison::matches::comparison_matches(components, count, texts, nodes, attributes, text, row)
}
