// `hicsolmab_check_page`: which pages are accepted.
ghost use Rattle.std.specs.Prelude.{◌≡◌};
ghost use Rattle.page.specs.Accepted.{refusal_of, page_refusal};
ghost use Rattle.engine.specs.Page.{refusal_in};

use combinators::refusals::refusal_of;
use page::check::{PageError, check_page};
use page::lent::Page;

// The refusal's number, and the first row that is refused. Numbers, for C has no `Result`. `BytesResult` of comparison has the same two: each header declares
// structs of its own.
#[repr(C)]
#[derive(Clone, Copy)]
pub struct PageResult {
    pub refusal: u32,
    pub place: usize,
}

impl From<Result<(), PageError>> for PageResult {
    ghost from_gives = { λ answer told. refusal_in told ≡ refusal_of answer };

    fn from(answer: Result<(), PageError>) -> PageResult {
        let refusal = refusal_of(answer);
        PageResult {
            refusal: refusal.number,
            place: refusal.place,
        }
    }
}

// Whether a page is accepted, as `check_page` answers. Its lists come one by one, as C lends them.
#[unsafe(no_mangle)]
pub extern "C" fn hicsolmab_check_page(nodes: &[u32], attributes: &[u32], text: &[u8]) -> PageResult
    ensures { refusal_in result ≡ page_refusal nodes.now attributes.now text.now }
{
    let page = Page {
        nodes,
        attributes,
        text,
    };
    check_page(page).into()
}
