// Lists of selectors, parted by ','. Rows go to the stores' rules from `place` on, texts to their texts from `fill` on; both are zero there, and stay so where
// nothing is read. The room is asked for by the text that is read, and `place` and `fill` stand beside the stores: they go on from selector to selector.
ghost use Rattle.std.specs.Prelude.{◌≡◌, length};
ghost use Rattle.std.proofs.lemmas.List.Edits.{sets};
ghost use Rattle.combinators.specs.Lent.{SameStores, SameWork};
ghost use Rattle.syntax.specs.RuleLayout.{selector_head, selector_rows, selector_texts};
ghost use Rattle.selectors.specs.SelectorList.{selectors_of};
ghost use Rattle.selectors.specs.Reading.{many_reading, written, TextRoom, RowRoom};

use crate::readings::{Panic, Read, take_back};
use crate::selectors::parse_selector;
use combinators::bytes::byte_is;
use combinators::lent::Stores;
use lexer::whitespace::skip_from;

// Reads selectors, parted by ',' and white space or none; there may be none. It stops before a ',' that no selector follows.
pub fn parse_selectors(
    s: &[u8],
    stores: &mut Stores<'_>,
    place: usize,
    fill: usize,
) -> Result<Read, Panic>
    requires row_room { RowRoom selector_head s.now stores.old.rules.now place }
    requires text_room { TextRoom 4 s.now stores.old.texts.now fill }
    ensures same { SameStores stores.old stores.new }
    ensures work_unchanged { SameWork stores.old stores.new }
    ensures value { result ≡ many_reading length (selector_rows fill) selector_texts (selectors_of s.now) }
    ensures rules_after { stores.new.rules.now ≡ sets stores.old.rules.now place (written (selector_rows fill) (selectors_of s.now)) }
    ensures texts_after { stores.new.texts.now ≡ sets stores.old.texts.now fill (written selector_texts (selectors_of s.now)) }
{
    let mut read = Read::NOTHING;
    let mut next = 0;
    // no `?`: what was written before is taken back
    loop {
        match parse_selector(&s[next..], stores, place + read.numbers, fill + read.text) {
            Ok(None) => break,
            Err(panic) => {
                take_back(stores, place, read.numbers, fill, read.text);
                return Err(panic.behind(next));
            }
            Ok(Some(selector)) => {
                read.taken = next + selector.taken;
                read.count += 1;
                read.numbers += selector.numbers;
                read.text += selector.text;
                if !byte_is(s, read.taken, b',') {
                    break;
                }
                next = skip_from(s, read.taken + 1);
            }
        }
    }
    Ok(read)
}
