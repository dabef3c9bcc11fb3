// `comparison_matches`: whether a selector, in component rows, matches an element of a page, and how specific it is.
ghost use Rattle.std.specs.Prelude.{◌≡◌, ◌≤◌};
ghost use Rattle.combinators.specs.Refusal.{no_refusal};
ghost use Rattle.page.specs.Accepted.{page_refusal};
ghost use Rattle.comparison.specs.Matches.{component_limit, match_refusal, match_result, row_match, match_called};

use cascade::specificity::Specificity;
use combinators::refusals::{NO_ELEMENT, NO_REFUSAL, Refusal, SHORT_STORE, TOO_LONG, refused};
use matching::components::{Selector, specificity};
use matching::elements::Element;
use matching::matcher::do_matches;
use page::check::{PageError, check_page};
use page::lent::Page;
use sheets::sheet::SHEET_LIMIT;
use styling::style::is_element;
use syntax::rows::{COMPONENT_WIDTH, flag_of};

// Whether a selector matches an element, and how specific it is.
#[derive(Clone, Copy)]
pub struct Match {
    pub matches: bool,
    pub specificity: Specificity,
}

// Why a row is not asked: a selector with too many components, or of which some are not there, the page, or a row that is no element. It is the error of a
// `Result`, so it has refusals only.
#[derive(Clone, Copy, Debug, PartialEq, Eq)]
pub enum MatchError {
    TooLong,
    ShortStore,
    BadPage(PageError),
    NoElement,
}

impl From<PageError> for MatchError {
    ghost use Rattle.comparison.specs.declared.matches.MatchError.{MatchError};

    ghost from_gives = { λ page error. error ≡ MatchError.BadPage page };

    fn from(page: PageError) -> MatchError {
        MatchError::BadPage(page)
    }
}

impl From<MatchError> for Refusal {
    ghost from_gives = { λ error refusal. refusal ≡ match_refusal error };

    #[tactic(auto, unfolding(crate::specs::Matches::match_refusal))]
    fn from(error: MatchError) -> Refusal {
        match error {
            MatchError::TooLong => refused(TOO_LONG),
            MatchError::ShortStore => refused(SHORT_STORE),
            MatchError::BadPage(page) => Refusal::from(page),
            MatchError::NoElement => refused(NO_ELEMENT),
        }
    }
}

// The refusal's number and place; 1 where the selector matches; how many ids, classes (with attributes and nth-child) and types it names. Numbers,
// for C has no `Result`.
#[repr(C)]
#[derive(Clone, Copy)]
pub struct MatchResult {
    pub refusal: u32,
    pub place: usize,
    pub matches: u32,
    pub ids: u32,
    pub classes: u32,
    pub types: u32,
}

impl From<Result<Match, MatchError>> for MatchResult {
    ghost from_gives = { λ answer told. told ≡ match_result answer };

    #[tactic(auto, unfolding(crate::specs::Matches::match_result, crate::specs::Matches::answered_match))]
    fn from(answer: Result<Match, MatchError>) -> MatchResult {
        match answer {
            Ok(
                Match {
                    matches,
                    specificity,
                },
            ) => MatchResult {
                refusal: NO_REFUSAL,
                place: 0,
                matches: flag_of(matches),
                ids: specificity.id,
                classes: specificity.class,
                types: specificity.typ,
            },
            Err(error) => {
                let refusal = Refusal::from(error);
                MatchResult {
                    refusal: refusal.number,
                    place: refusal.place,
                    matches: 0,
                    ids: 0,
                    classes: 0,
                    types: 0,
                }
            }
        }
    }
}

// Asks for a row of an accepted page.
fn match_row(selector: Selector<'_>, page: Page<'_>, row: usize) -> Result<Match, MatchError>
    requires left_le_component_limit { selector.left ≤ component_limit }
    requires accepted { page_refusal page.nodes.now page.attributes.now page.text.now ≡ no_refusal }
    ensures { match_result result ≡ row_match selector.entry.components.now selector.entry.left selector.entry.store.now page.entry.nodes.now page.entry.attributes.now page.entry.text.now row }
{
    if !is_element(page.nodes, row) {
        return Err(MatchError::NoElement);
    }
    Ok(Match {
        matches: do_matches(selector, Element { page, row }),
        specificity: specificity(selector.components, selector.left as u32),
    })
}

// Asks for a row of a page that is accepted or not, by components that are there or not. Every component must be there, and each takes a byte of its sheet, so
// that no selector of an accepted sheet has more of them than a sheet may have bytes.
fn match_lent(selector: Selector<'_>, page: Page<'_>, row: usize) -> Result<Match, MatchError>
    ensures { match_result result ≡ match_called selector.entry.components.now selector.entry.left selector.entry.store.now page.entry.nodes.now page.entry.attributes.now page.entry.text.now row }
{
    if selector.left > SHEET_LIMIT {
        return Err(MatchError::TooLong);
    }
    if selector.components.len() < COMPONENT_WIDTH * selector.left {
        return Err(MatchError::ShortStore);
    }
    check_page(page)?;
    match_row(selector, page, row)
}

// Whether the first `count` components, with their texts in `texts`, match a row of the page: `do_matches` and `specificity` of a selector whose
// components lie in reading order. A component whose kind is none of document 01's, above 8, is read as an attribute selector.
// crates/comparison_c exports it: C lends each list by itself, and may lend more components than the selector has, so `count` comes beside them.
#[unsafe(no_mangle)]
pub extern "C" fn comparison_matches(
    components: &[u32],
    count: usize,
    texts: &[u8],
    nodes: &[u32],
    attributes: &[u32],
    text: &[u8],
    row: usize,
) -> MatchResult
    ensures { result ≡ match_called components.now count texts.now nodes.now attributes.now text.now row }
{
    let selector = Selector {
        components,
        store: texts,
        left: count,
    };
    let page = Page {
        nodes,
        attributes,
        text,
    };
    match_lent(selector, page, row).into()
}
