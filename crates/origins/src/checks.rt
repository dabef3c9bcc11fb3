// What a call with three sheets asks of them before anything is written.
ghost use Rattle.std.specs.Prelude.{◌≡◌};
ghost use Rattle.origins.specs.Checks.{any_too_long, all_valid};

use characters::utf8::is_valid;
use combinators::lent::SheetTexts;
use sheets::sheet::SHEET_LIMIT;

// Whether a sheet has more bytes than a sheet may have. It is told lengths, and no texts, since nothing else is read of them.
#[tactic(auto, unfolding(crate::specs::Checks::any_too_long, combinators::specs::Choice::or))]
pub fn any_too_long(agent: usize, user: usize, author: usize) -> bool
    ensures { result ≡ any_too_long agent user author }
{
    agent > SHEET_LIMIT || user > SHEET_LIMIT || author > SHEET_LIMIT
}

// Whether all sheets are UTF-8.
#[tactic(auto, unfolding(crate::specs::Checks::all_valid, combinators::specs::Choice::and))]
pub fn all_valid(sheets: SheetTexts<'_>) -> bool
    ensures { result ≡ all_valid sheets.entry.agent.now sheets.entry.user.now sheets.entry.author.now }
{
    is_valid(sheets.agent) && is_valid(sheets.user) && is_valid(sheets.author)
}
