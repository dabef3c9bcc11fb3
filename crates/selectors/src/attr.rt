// Attributes in square brackets, with a value or without. What an alternative wrote that then fails is wiped. That the store is clean is asked of
// each reader, and kept by no type: it is so from a fill on, which goes on from reader to reader.
ghost use Rattle.std.specs.Prelude.{◌≡◌, ◌≤◌, ◌<◌, ◌+◌, ◌-◌, Ok, length, drop};
ghost use Rattle.std.proofs.lemmas.List.Edits.{sets};
ghost use Rattle.lexer.specs.Name.{ident_of, name_answer, name_text};
ghost use Rattle.selectors.specs.Selector.{quoted_of, attr_of};
ghost use Rattle.selectors.specs.Reading.{written};
ghost use Rattle.syntax.specs.RuleLayout.{component_text};
ghost use Rattle.selectors.specs.ComponentAnswer.{component_answer, closed_answer, closed_store, closed_by, attr_value_of, equal_answer, equal_store};
ghost use Rattle.selectors.specs.Stores.{Clean};

use crate::components::Component;
use combinators::bytes::byte_is;
use combinators::stores::fill_part;
use combinators::taken::Taken;
use lexer::Written;
use lexer::names::parse_ident;
use lexer::tokens::{Token, parse_string_token};

// A quoted string that is no bad one.
fn parse_quoted_string(s: &[u8], store: &mut [u8], fill: usize) -> Option<Written>
    requires { Clean (length s.now) fill store.old }
    ensures value { result ≡ name_answer (quoted_of s.now) }
    ensures store_after { store.new ≡ sets store.old fill (name_text (quoted_of s.now)) }
{
    let read = parse_string_token(s, store, fill)?;
    let Token::String(length) = read.value else {
        fill_part(store, fill, read.taken, 0);
        return None;
    };
    Some(Written {
        taken: read.taken,
        length,
    })
}

// A text that was read, with `]` behind it; it is wiped where there is none.
fn closed(s: &[u8], text: Written, store: &mut [u8], fill: usize) -> Option<Written>
    requires { text.taken ≤ length s.now }
    ensures value { result ≡ closed_answer s.now text.taken text.length }
    ensures store_after { store.new ≡ closed_store s.now text.taken text.length fill store.old }
{
    if byte_is(s, text.taken, b']') {
        return Some(Written {
            taken: text.taken + 1,
            length: text.length,
        });
    }
    fill_part(store, fill, text.length, 0);
    None
}

// A quoted string and `]`.
fn parse_quoted_value(s: &[u8], store: &mut [u8], fill: usize) -> Option<Written>
    requires { Clean (length s.now) fill store.old }
    ensures value { result ≡ name_answer (closed_by s.now (quoted_of s.now)) }
    ensures store_after { store.new ≡ sets store.old fill (name_text (closed_by s.now (quoted_of s.now))) }
{
    let text = parse_quoted_string(s, store, fill)?;
    closed(s, text, store, fill)
}

// A name and `]`. It has its own function, as parse_quoted_value: a reader that is handed in would bring its clauses along.
fn parse_ident_value(s: &[u8], store: &mut [u8], fill: usize) -> Option<Written>
    requires { Clean (length s.now) fill store.old }
    ensures value { result ≡ name_answer (closed_by s.now (ident_of s.now)) }
    ensures store_after { store.new ≡ sets store.old fill (name_text (closed_by s.now (ident_of s.now))) }
{
    let name = parse_ident(s, store, fill)?;
    closed(s, name, store, fill)
}

// A value up to its `]`: a quoted string, or else a name. No or_else: its closure would take the store along, of which nothing would be known behind it.
fn parse_attr_value(s: &[u8], store: &mut [u8], fill: usize) -> Option<Written>
    requires { Clean (length s.now) fill store.old }
    ensures value { result ≡ name_answer (attr_value_of s.now) }
    ensures store_after { store.new ≡ sets store.old fill (name_text (attr_value_of s.now)) }
{
    if let Some(text) = parse_quoted_value(s, store, fill) {
        return Some(text);
    }
    parse_ident_value(s, store, fill)
}

// What stands behind the `=` at `at`. The name before it has `name` bytes, which lie in the store from `fill` on.
fn parse_attr_equal(
    s: &[u8],
    at: usize,
    name: usize,
    store: &mut [u8],
    fill: usize,
) -> Option<Taken<Component>>
    requires at_in_bounds { at < length s.now }
    requires clean { Clean (length s.now - (at + 1)) (fill + name) store.old }
    ensures value { result ≡ equal_answer (attr_value_of (drop (at + 1) s.now)) at name }
    ensures store_after { store.new ≡ equal_store (attr_value_of (drop (at + 1) s.now)) name fill store.old }
{
    let Some(value) = parse_attr_value(&s[at + 1..], store, fill + name) else {
        fill_part(store, fill, name, 0);
        return None;
    };
    Some(Taken {
        taken: at + 1 + value.taken,
        value: Component::AttributeEqual(name, value.length),
    })
}

// A name in square brackets, with a value or without. The `[` is passed by a place and not stripped: what stands behind the name is asked for by places in `s`.
pub fn parse_attr(s: &[u8], store: &mut [u8], fill: usize) -> Option<Taken<Component>>
    requires { Clean (length s.now) fill store.old }
    ensures value { Ok result ≡ component_answer (attr_of s.now) }
    ensures store_after { store.new ≡ sets store.old fill (written component_text (attr_of s.now)) }
{
    if !byte_is(s, 0, b'[') {
        return None;
    }
    let name = parse_ident(&s[1..], store, fill)?;
    let at = 1 + name.taken;
    if byte_is(s, at, b']') {
        return Some(Taken {
            taken: at + 1,
            value: Component::Attribute(name.length),
        });
    }
    if byte_is(s, at, b'=') {
        return parse_attr_equal(s, at, name.length, store, fill);
    }
    fill_part(store, fill, name.length, 0);
    None
}
