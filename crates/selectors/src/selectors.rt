// Selectors: components as long as they read, and `parse_selector`. Rows go to the stores' rules from `place` on, texts to their texts from `fill` on; both
// are zero there, and stay so where nothing is read. The room is asked of each reader, by its own text,
// and `place` and `fill` stand beside the stores: they go on from what was read to what is read next.
ghost use Rattle.std.specs.Prelude.{◌≡◌, ◌+◌, ◌-◌, ◌*◌, ◌^◌, ◌<◌, length};
ghost use Rattle.std.proofs.lemmas.List.Edits.{sets};
ghost use Rattle.combinators.specs.Choice.{pick, is};
ghost use Rattle.combinators.specs.Lent.{SameStores, SameWork};
ghost use Rattle.combinators.specs.Store.{wiped};
ghost use Rattle.syntax.specs.RuleLayout.{component_width, component_text, component_rows, component_texts, selector_head, selector_row, selector_text, pseudo_number};
ghost use Rattle.selectors.specs.Selector.{selector_of, pseudo_of, pseudo_taken};
ghost use Rattle.selectors.specs.ComponentAnswer.{component_answer};
ghost use Rattle.selectors.specs.Components.{has_row, pseudo_meant, next_of, started_of, blank_last};
ghost use Rattle.selectors.specs.Stores.{Clean};
ghost use Rattle.selectors.specs.Reading.{reading, written, TextRoom, RowRoom};

use crate::components::{Component, parse_element, parse_simple_selector_component};
use crate::readings::{Panic, Read, take_back};
use combinators::bytes::starts_with;
use combinators::columns::Columns;
use combinators::lent::Stores;
use combinators::stores::{fill_part, number_at};
use combinators::taken::Taken;
use syntax::rows::{
    COMPONENT_KIND, COMPONENT_WIDTH, DESCENDANT, PSEUDO_AFTER, PSEUDO_BEFORE, PSEUDO_NONE,
    SELECTOR_HEAD,
};
use syntax::writers::{put_component, put_selector_head};

// The pseudo elements, as they are written.
const BEFORE: [u8; 8] = *b"::before";

const AFTER: [u8; 7] = *b"::after";

#[derive(Clone, Copy, Debug, PartialEq, Eq)]
pub enum PseudoElement {
    Before,
    After,
}

// The next component: at the start of a selector a type selector if there is one, or else any. No or_else: its closure would take the store along, of
// which nothing would be known behind it.
fn parse_next(
    s: &[u8],
    at_start: bool,
    store: &mut [u8],
    fill: usize,
) -> Result<Option<Taken<Component>>, Panic>
    requires { Clean (length s.now) fill store.old }
    ensures value { result ≡ component_answer (next_of at_start s.now) }
    ensures store_after { store.new ≡ sets store.old fill (written component_text (next_of at_start s.now)) }
{
    if !at_start {
        return parse_simple_selector_component(s, store, fill);
    }
    if let Some(element) = parse_element(s, store, fill) {
        return Ok(Some(element));
    }
    parse_simple_selector_component(s, store, fill)
}

// Whether a component has a row: at the start of a selector a blank is dropped.
#[tactic(auto, unfolding(crate::specs::Components::has_row, crate::specs::ComponentAnswer::columns_of, combinators::specs::Choice::pick, combinators::specs::Choice::is))]
fn is_kept(at_start: bool, component: Component) -> bool
    ensures { result ≡ has_row at_start component }
{
    !at_start || !matches!(component, Component::Descendant)
}

// Reads the components of a selector as long as they read, `parse_selector_with_element` or else `parse_selector_without_element`, without a blank
// at the start; their rows stand in reading order.
fn parse_body(
    s: &[u8],
    stores: &mut Stores<'_>,
    place: usize,
    fill: usize,
) -> Result<Option<Read>, Panic>
    requires row_room { RowRoom 0 s.now stores.old.rules.now place }
    requires text_room { TextRoom 4 s.now stores.old.texts.now fill }
    ensures same { SameStores stores.old stores.new }
    ensures work_unchanged { SameWork stores.old stores.new }
    ensures value { result ≡ reading length (component_rows fill) component_texts (started_of s.now) }
    ensures rules_after { stores.new.rules.now ≡ sets stores.old.rules.now place (written (component_rows fill) (started_of s.now)) }
    ensures texts_after { stores.new.texts.now ≡ sets stores.old.texts.now fill (written component_texts (started_of s.now)) }
{
    let mut body = Read::NOTHING;
    // no `?`: what was written before is taken back
    loop {
        let at = fill + body.text;
        let at_start = body.taken == 0;
        match parse_next(&s[body.taken..], at_start, stores.texts, at) {
            Ok(Some(read)) => {
                body.taken += read.taken;
                body.text += read.value.text_length();
                if is_kept(at_start, read.value) {
                    let row = Columns::from(read.value);
                    put_component(row, at, stores.rules, place + body.numbers);
                    body.count += 1;
                    body.numbers += COMPONENT_WIDTH;
                }
            }
            Ok(None) => break,
            Err(panic) => {
                take_back(stores, place, body.numbers, fill, body.text);
                return Err(panic.behind(body.taken));
            }
        }
    }
    Ok((body.taken > 0).then_some(body))
}

// The count of components, whose rows lie in a lent store from `place` on, without a blank at the end, whose row is wiped. The rows are no slice of arrays: of
// chunks (`as_chunks_mut`) nothing is promised of what the store ends as.
fn drop_blank(rules: &mut [u32], place: usize, count: usize) -> usize
    requires { place + component_width * count < 2 ^ 64 }
    ensures value { result ≡ pick (blank_last rules.old place count) (count - 1) count }
    ensures rules_after { rules.new ≡ pick (blank_last rules.old place count) (wiped (place + component_width * (count - 1)) component_width rules.old) rules.old }
{
    if count == 0 {
        return 0;
    }
    let last = place + COMPONENT_WIDTH * (count - 1);
    if number_at(rules, last, COMPONENT_KIND) != DESCENDANT {
        return count;
    }
    fill_part(rules, last, COMPONENT_WIDTH, 0);
    count - 1
}

// Reads a pseudo element or none. None is no failure and takes no bytes, so the `Option` stands within the `Taken`.
fn parse_pseudo_element(s: &[u8]) -> Taken<Option<PseudoElement>>
    ensures { (result.taken ≡ pseudo_taken (pseudo_of s.now)) × (pseudo_meant result.value ≡ pseudo_of s.now) }
{
    if starts_with(s, &BEFORE) {
        return Taken {
            taken: BEFORE.len(),
            value: Some(PseudoElement::Before),
        };
    }
    if starts_with(s, &AFTER) {
        return Taken {
            taken: AFTER.len(),
            value: Some(PseudoElement::After),
        };
    }
    Taken {
        taken: 0,
        value: None,
    }
}

// The number of a pseudo element or none in the row of a selector.
#[tactic(auto, unfolding(syntax::specs::RuleLayout::pseudo_number, crate::specs::Components::pseudo_meant))]
fn pseudo_number(pseudo: Option<PseudoElement>) -> u32
    ensures { result ≡ pseudo_number (pseudo_meant pseudo) }
{
    match pseudo {
        None => PSEUDO_NONE,
        Some(PseudoElement::Before) => PSEUDO_BEFORE,
        Some(PseudoElement::After) => PSEUDO_AFTER,
    }
}

// Reads a selector; a blank at either end is dropped.
pub fn parse_selector(
    s: &[u8],
    stores: &mut Stores<'_>,
    place: usize,
    fill: usize,
) -> Result<Option<Read>, Panic>
    requires row_room { RowRoom selector_head s.now stores.old.rules.now place }
    requires text_room { TextRoom 4 s.now stores.old.texts.now fill }
    ensures same { SameStores stores.old stores.new }
    ensures work_unchanged { SameWork stores.old stores.new }
    ensures value { result ≡ reading (λ x. 1) (selector_row fill) selector_text (selector_of s.now) }
    ensures rules_after { stores.new.rules.now ≡ sets stores.old.rules.now place (written (selector_row fill) (selector_of s.now)) }
    ensures texts_after { stores.new.texts.now ≡ sets stores.old.texts.now fill (written selector_text (selector_of s.now)) }
{
    let Some(body) = parse_body(s, stores, place + SELECTOR_HEAD, fill)? else {
        return Ok(None);
    };
    let kept = drop_blank(stores.rules, place + SELECTOR_HEAD, body.count);
    let pseudo = parse_pseudo_element(&s[body.taken..]);
    put_selector_head(kept, pseudo_number(pseudo.value), stores.rules, place);
    Ok(Some(Read {
        taken: body.taken + pseudo.taken,
        count: 1,
        numbers: SELECTOR_HEAD + COMPONENT_WIDTH * kept,
        text: body.text,
    }))
}
