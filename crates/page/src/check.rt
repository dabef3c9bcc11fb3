// Which pages are accepted (document 01, "The page"; refusals 5, 6 and 7). Nothing is written.
ghost use Rattle.std.specs.Prelude.{◌≡◌};
ghost use Rattle.page.specs.Accepted.{within_limits, error_refusal, refusal_of, page_refusal};

use crate::lent::Page;
use crate::rows::{ATTRIBUTE_WIDTH, NODE_WIDTH, attribute_rows, node_count};
use crate::rules::first_bad_row;
use crate::texts::first_bad_text;
use combinators::refusals::{BAD_ROW, BAD_TEXT, Refusal, TOO_LARGE, refused, refused_at};

pub const NODE_LIMIT: usize = 4096;

pub const ATTRIBUTE_LIMIT: usize = 16384;

pub const TEXT_LIMIT: usize = 65536;

// Why a page is not accepted: over a limit, or a list that is no whole count of rows (refusal 5); a first row that is against the rules (6);
// or a first row one of whose texts lies outside the byte text or is not UTF-8 (7). It is the error of a `Result`: no variant stands for an accepted page.
#[derive(Clone, Copy, Debug, PartialEq, Eq)]
pub enum PageError {
    TooLarge,
    BadRow(usize),
    BadText(usize),
}

impl From<PageError> for Refusal {
    ghost from_gives = { λ e r. r ≡ error_refusal e };

    fn from(error: PageError) -> Refusal {
        match error {
            PageError::TooLarge => refused(TOO_LARGE),
            PageError::BadRow(row) => refused_at(BAD_ROW, row),
            PageError::BadText(row) => refused_at(BAD_TEXT, row),
        }
    }
}

// Whether a page is within the limits, and its lists are whole counts of rows.
#[tactic(auto, unfolding(crate::specs::Accepted::within_limits, combinators::specs::Choice::and, combinators::specs::Choice::is))]
fn within_limits(page: Page<'_>) -> bool
    ensures { result ≡ within_limits page.entry.nodes.now page.entry.attributes.now page.entry.text.now }
{
    node_count(page.nodes) <= NODE_LIMIT
        && attribute_rows(page.attributes) <= ATTRIBUTE_LIMIT
        && page.text.len() <= TEXT_LIMIT
        && page.nodes.len() % NODE_WIDTH == 0
        && page.attributes.len() % ATTRIBUTE_WIDTH == 0
}

// Whether a page is accepted, and why it is not.
pub fn check_page(page: Page<'_>) -> Result<(), PageError>
    ensures { refusal_of result ≡ page_refusal page.entry.nodes.now page.entry.attributes.now page.entry.text.now }
{
    if !within_limits(page) {
        return Err(PageError::TooLarge);
    }
    if node_count(page.nodes) == 0 {
        return Err(PageError::BadRow(0));
    }
    if let Some(row) = first_bad_row(page) {
        return Err(PageError::BadRow(row));
    }
    if let Some(row) = first_bad_text(page) {
        return Err(PageError::BadText(row));
    }
    Ok(())
}
