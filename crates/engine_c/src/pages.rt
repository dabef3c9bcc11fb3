// `hicsolmab_check_page`: which pages are accepted.
ghost use Rattle.std.specs.Prelude.{◌≡◌};
ghost use Rattle.page.specs.Accepted.{page_refusal};
ghost use Rattle.engine.specs.Page.{refusal_in};

use engine::pages::PageResult;

// Whether a page is accepted, as `check_page` answers.
#[unsafe(no_mangle)]
pub extern "C" fn hicsolmab_check_page(nodes: &[u32], attributes: &[u32], text: &[u8]) -> PageResult
    ensures { refusal_in result ≡ page_refusal nodes.now attributes.now text.now }
{
    engine::pages::hicsolmab_check_page(nodes, attributes, text)
}
