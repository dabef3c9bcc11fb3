// Simple components of selectors. A component's text goes to the store from a fill on; what an alternative wrote that then fails is
// wiped. So no writer is lent: the next alternative writes from the same fill. That the store is clean is asked of those that may wipe (attr.rt).
ghost use Rattle.std.specs.Prelude.{◌≡◌, ◌≤◌, ◌<◌, ◌^◌, Ok, length};
ghost use Rattle.std.proofs.lemmas.List.Edits.{sets};
ghost use Rattle.lexer.specs.Name.{ident_of};
ghost use Rattle.syntax.specs.Selector.{element};
ghost use Rattle.selectors.specs.Outcome.{parsed};
ghost use Rattle.selectors.specs.Selector.{class_of, hash_of, pseudo_class_of, component_of};
ghost use Rattle.selectors.specs.Reading.{written};
ghost use Rattle.syntax.specs.RuleLayout.{component_text};
ghost use Rattle.selectors.specs.ComponentAnswer.{columns_of, component_answer, mark_of, named_of, mark_taken, nth_child_name};
ghost use Rattle.selectors.specs.Components.{text_length};
ghost use Rattle.selectors.specs.Stores.{Clean};

use crate::attr::parse_attr;
use crate::nth::parse_nth_child_args;
use crate::readings::{Panic, moved};
use combinators::bytes::byte_is;
use combinators::columns::Columns;
use combinators::stores::fill_part;
use combinators::taken::Taken;
use combinators::texts::part_of;
use lexer::names::{parse_ident, parse_identstring};
use lexer::whitespace::{skip_from, skip_optional_whitespace};
use syntax::rows::{
    ATTRIBUTE, ATTRIBUTE_EQUAL, CHILD, CLASS, DESCENDANT, ELEMENT, HASH, NTH, STAR,
};

// A component, with the lengths of its texts, which lie in the store one behind the other, or the two numbers of `nth-child`.
#[derive(Clone, Copy, Debug, PartialEq, Eq)]
pub enum Component {
    Star,
    Class(usize),
    Element(usize),
    Hash(usize),
    Child,
    Descendant,
    Nth(u32, u32),
    Attribute(usize),
    AttributeEqual(usize, usize),
}

impl Component {
    // The bytes of its texts.
    #[tactic(auto, unfolding(crate::specs::Components::text_length))]
    pub fn text_length(self) -> usize
        requires { text_length self < 2 ^ 64 }
        ensures { result ≡ text_length self }
    {
        match self {
            Component::Class(n)
            | Component::Element(n)
            | Component::Hash(n)
            | Component::Attribute(n) => n,
            Component::AttributeEqual(n, m) => n + m,
            Component::Star | Component::Child | Component::Descendant | Component::Nth(_, _) => 0,
        }
    }
}

// A component's kind, and its two numbers: the lengths of its texts, or the numbers of `nth-child`.
impl From<Component> for Columns {
    ghost from_gives = { λ component row. row ≡ columns_of component };

    #[tactic(auto, unfolding(crate::specs::ComponentAnswer::columns_of))]
    fn from(component: Component) -> Columns {
        let (kind, first, second) = match component {
            Component::Star => (STAR, 0, 0),
            Component::Class(n) => (CLASS, n, 0),
            Component::Element(n) => (ELEMENT, n, 0),
            Component::Hash(n) => (HASH, n, 0),
            Component::Child => (CHILD, 0, 0),
            Component::Descendant => (DESCENDANT, 0, 0),
            Component::Nth(a, b) => (NTH, a as usize, b as usize),
            Component::Attribute(n) => (ATTRIBUTE, n, 0),
            Component::AttributeEqual(n, m) => (ATTRIBUTE_EQUAL, n, m),
        };
        Columns::new(kind, first, second)
    }
}

// The bytes of `mark` with the white space on both sides, if it is there.
fn mark_taken(s: &[u8], mark: u8) -> Option<usize>
    requires { 1 ≤ mark }
    ensures { result ≡ mark_taken s.now mark }
{
    let w = skip_optional_whitespace(s);
    byte_is(s, w, mark).then(|| skip_from(s, w + 1))
}

// `>`, `*` or white space.
fn parse_mark(s: &[u8]) -> Option<Taken<Component>>
    ensures { Ok result ≡ component_answer (mark_of s.now) }
{
    if let Some(taken) = mark_taken(s, b'>') {
        return Some(Taken {
            taken,
            value: Component::Child,
        });
    }
    if let Some(taken) = mark_taken(s, b'*') {
        return Some(Taken {
            taken,
            value: Component::Star,
        });
    }
    let taken = skip_optional_whitespace(s);
    (taken > 0).then_some(Taken {
        taken,
        value: Component::Descendant,
    })
}

// '.' and a name.
pub fn parse_class(s: &[u8], store: &mut [u8], fill: usize) -> Option<Taken<Component>>
    ensures value { Ok result ≡ component_answer (class_of s.now) }
    ensures store_after { store.new ≡ sets store.old fill (written component_text (class_of s.now)) }
{
    let name = parse_ident(s.strip_prefix(b".")?, store, fill)?;
    Some(Taken {
        taken: 1 + name.taken,
        value: Component::Class(name.length),
    })
}

// '#' and characters of names. It has its own function, as parse_class: a reader that is handed in would bring its clauses along.
pub fn parse_hash(s: &[u8], store: &mut [u8], fill: usize) -> Option<Taken<Component>>
    ensures value { Ok result ≡ component_answer (hash_of s.now) }
    ensures store_after { store.new ≡ sets store.old fill (written component_text (hash_of s.now)) }
{
    let name = parse_identstring(s.strip_prefix(b"#")?, store, fill)?;
    Some(Taken {
        taken: 1 + name.taken,
        value: Component::Hash(name.length),
    })
}

// A name.
pub fn parse_element(s: &[u8], store: &mut [u8], fill: usize) -> Option<Taken<Component>>
    ensures value { Ok result ≡ component_answer (parsed 0 (ident_of s.now) element) }
    ensures store_after { store.new ≡ sets store.old fill (written component_text (parsed 0 (ident_of s.now) element)) }
{
    let name = parse_ident(s, store, fill)?;
    Some(Taken {
        taken: name.taken,
        value: Component::Element(name.length),
    })
}

// The bytes of the name `nth-child`, if it is there. The name is read to the store and wiped.
fn nth_child_name(s: &[u8], store: &mut [u8], fill: usize) -> Option<usize>
    requires { Clean (length s.now) fill store.old }
    ensures value { result ≡ nth_child_name s.now }
    ensures store_unchanged { store.new ≡ store.old }
{
    let name = parse_ident(s, store, fill)?;
    let known = part_of(store, fill, name.length) == b"nth-child".as_slice();
    fill_part(store, fill, name.length, 0);
    known.then_some(name.taken)
}

// ':' and `nth-child` with its arguments. The ':' is passed by a place and not stripped: a panic's place counts from the start of `s`.
pub fn parse_pseudo_class(
    s: &[u8],
    store: &mut [u8],
    fill: usize,
) -> Result<Option<Taken<Component>>, Panic>
    requires { Clean (length s.now) fill store.old }
    ensures value { result ≡ component_answer (pseudo_class_of s.now) }
    ensures store_unchanged { store.new ≡ store.old }
{
    if !byte_is(s, 0, b':') {
        return Ok(None);
    }
    let Some(n) = nth_child_name(&s[1..], store, fill) else {
        return Ok(None);
    };
    let Some(nth) = moved(parse_nth_child_args(&s[1 + n..]), 1 + n)? else {
        return Ok(None);
    };
    Ok(Some(Taken {
        taken: 1 + n + nth.taken,
        ..nth
    }))
}

// A class, an attribute, a hash, an element or a pseudo-class, in the crate's order. No or_else here and below: its closure would take the store along, of
// which nothing would be known behind it.
fn parse_named(s: &[u8], store: &mut [u8], fill: usize) -> Result<Option<Taken<Component>>, Panic>
    requires { Clean (length s.now) fill store.old }
    ensures value { result ≡ component_answer (named_of s.now) }
    ensures store_after { store.new ≡ sets store.old fill (written component_text (named_of s.now)) }
{
    if let Some(class) = parse_class(s, store, fill) {
        return Ok(Some(class));
    }
    if let Some(attribute) = parse_attr(s, store, fill) {
        return Ok(Some(attribute));
    }
    if let Some(hash) = parse_hash(s, store, fill) {
        return Ok(Some(hash));
    }
    if let Some(element) = parse_element(s, store, fill) {
        return Ok(Some(element));
    }
    parse_pseudo_class(s, store, fill)
}

// A component of a selector, or a combinator.
pub fn parse_simple_selector_component(
    s: &[u8],
    store: &mut [u8],
    fill: usize,
) -> Result<Option<Taken<Component>>, Panic>
    requires { Clean (length s.now) fill store.old }
    ensures value { result ≡ component_answer (component_of s.now) }
    ensures store_after { store.new ≡ sets store.old fill (written component_text (component_of s.now)) }
{
    if let Some(mark) = parse_mark(s) {
        return Ok(Some(mark));
    }
    parse_named(s, store, fill)
}
