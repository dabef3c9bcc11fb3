// Declarations: `parse_declaration` and `parse_rules`. Each writes the rows of what it read to the stores' rules from `place` on and its texts to
// their texts from `fill` on; tokens, brackets and the rest of what was used of the texts are zero again.
// `place` and `fill` stand beside the stores, and the room from them on is asked of each reader: each hands on other ones. `names`, whether the
// names of unknown declarations are kept, goes through all of them unchanged: a struct around this one word would be no plainer. `s` starts at the
// byte `at` of the text: both go on together, and each reader hands on another part. Who writes texts alone is lent the texts.
ghost use Rattle.std.specs.Prelude.{◌≡◌, ◌+◌, ◌*◌, ◌^◌, ◌<◌, length};
ghost use Rattle.std.proofs.lemmas.List.Edits.{sets};
ghost use Rattle.combinators.specs.Lent.{SameStores, SameWork, of_stores, OfStores};
ghost use Rattle.combinators.specs.Store.{wiped};
ghost use Rattle.lexer.specs.Name.{ident_of, name_text};
ghost use Rattle.lexer.specs.TokenRow.{token_width};
ghost use Rattle.values.specs.Layout.{unmarked};
ghost use Rattle.declarations.specs.Leaving.{property_answer, PutRoom, Put, PropertyRead, RulesRoom, MoreRoom, MoreRead, leaving, declaration_left, more_left, rules_left};

use crate::rows::{keep_text, named_numbers, put_declaration};
use combinators::bytes::byte_is;
use combinators::lent::Stores;
use combinators::stores::fill_part;
use combinators::texts::part_of;
use lexer::names::parse_ident;
use lexer::rows::TOKEN_WIDTH;
use lexer::whitespace::{skip_from, skip_optional_whitespace};
use syntax::rows::DECLARATION_WIDTH;
use values::properties::{DeclNumbers, decl_of};
use values::statements::{Statement, Unbalanced, Value, parse_value};

// Where the value of a property starts, and the length of its name.
#[derive(Clone, Copy)]
pub struct PropertyHead {
    pub value: usize,
    pub name: usize,
}

// The length of a name that no ':' follows.
#[derive(Clone, Copy)]
pub struct NoProperty {
    pub name: usize,
}

// The bytes that a declaration takes, and the bytes of text that it keeps: what `RulesRead` says, of one, and in its words, so that it is no `Written` of the
// lexer.
#[derive(Clone, Copy)]
pub struct DeclarationRead {
    pub taken: usize,
    pub text: usize,
}

// The first byte not read, the count of declarations, and the bytes of text that they keep. A statement's fields again: here declarations are
// counted, there tokens.
#[derive(Clone, Copy)]
pub struct RulesRead {
    pub taken: usize,
    pub count: usize,
    pub text: usize,
}

// Reads a property's name and all up to its value; the name goes to the store from `fill` on.
fn parse_property(s: &[u8], store: &mut [u8], fill: usize) -> Result<PropertyHead, NoProperty>
    ensures value { result ≡ property_answer s.now }
    ensures store_after { store.new ≡ sets store.old fill (name_text (ident_of s.now)) }
{
    let name = parse_ident(s, store, fill).ok_or(NoProperty { name: 0 })?;
    let colon = skip_from(s, name.taken);
    if byte_is(s, colon, b':') {
        Ok(PropertyHead {
            value: skip_from(s, colon + 1),
            name: name.length,
        })
    } else {
        Err(NoProperty { name: name.length })
    }
}

// Zeros over the rows of `count` tokens, which lie at the start of their store, and over as many brackets.
fn wipe_work(stores: &mut Stores<'_>, count: usize)
    requires { token_width * count < 2 ^ 64 }
    ensures same { SameStores stores.old stores.new }
    ensures rules_unchanged { stores.new.rules.now ≡ stores.old.rules.now }
    ensures tokens_after { stores.new.tokens.now ≡ wiped 0 (token_width * count) stores.old.tokens.now }
    ensures brackets_after { stores.new.brackets.now ≡ wiped 0 count stores.old.brackets.now }
    ensures texts_unchanged { stores.new.texts.now ≡ stores.old.texts.now }
{
    fill_part(stores.tokens, 0, TOKEN_WIDTH * count, 0);
    fill_part(stores.brackets, 0, count, 0);
}

// Zeros over all that a statement was read into: its rows and brackets, and its texts from `fill` on.
pub fn wipe_statement(stores: &mut Stores<'_>, statement: Statement, fill: usize)
    requires { token_width * statement.count < 2 ^ 64 }
    ensures same { SameStores stores.old stores.new }
    ensures rules_unchanged { stores.new.rules.now ≡ stores.old.rules.now }
    ensures tokens_after { stores.new.tokens.now ≡ wiped 0 (token_width * statement.count) stores.old.tokens.now }
    ensures brackets_after { stores.new.brackets.now ≡ wiped 0 statement.count stores.old.brackets.now }
    ensures texts_after { stores.new.texts.now ≡ wiped fill statement.text stores.old.texts.now }
{
    wipe_work(stores, statement.count);
    fill_part(stores.texts, fill, statement.text, 0);
}

// Puts down the declaration whose name of `length` bytes lies at `fill`, before the texts of the tokens of its value; the bytes of text that it
// keeps.
fn put_declared(
    value: Value,
    names: bool,
    start: usize,
    stores: &mut Stores<'_>,
    place: usize,
    fill: usize,
    length: usize,
) -> usize
    requires { PutRoom start stores.old.tokens.now (unmarked value) stores.old.texts.now fill length value.statement.text }
    ensures same { SameStores stores.old stores.new }
    ensures put { Put names value.important start stores.old.tokens.now (unmarked value) stores.old.rules.now place stores.old.texts.now fill length value.statement.text result stores.new.rules.now stores.new.texts.now }
    ensures work_unchanged { SameWork stores.old stores.new }
{
    // taken into variables first: no loan of one field is covered where another is read
    let tokens = &mut *stores.tokens;
    let texts = &mut *stores.texts;
    let read = decl_of(part_of(texts, fill, length), value.tokens(tokens, texts));
    let decl = named_numbers(DeclNumbers::from(read), names);
    keep_text(decl, texts, fill, length, value.statement.text);
    put_declaration(decl, value.important, start, fill, stores.rules, place);
    decl.text
}

// Reads the value of the property that `s` begins with, and whose name lies at `fill`. All of `s` is lent, since the declaration starts at its
// first byte that is no white space.
fn parse_declared(
    s: &[u8],
    property: PropertyHead,
    names: bool,
    at: usize,
    stores: &mut Stores<'_>,
    place: usize,
    fill: usize,
) -> Option<DeclarationRead>
    requires rules_room { OfStores (RulesRoom s.now at) stores.old place fill }
    requires property_read { PropertyRead s.now property.value property.name stores.old.texts.now fill }
    ensures same { SameStores stores.old stores.new }
    ensures stores_after { leaving result stores.new ≡ of_stores (declaration_left names at s.now) stores.old place fill }
{
    match parse_value(&s[property.value..], stores, fill + property.name) {
        Err(Unbalanced(Statement { count, text, .. })) => {
            wipe_work(stores, count);
            fill_part(stores.texts, fill, property.name + text, 0);
            None
        }
        Ok(value) => {
            let start = at + skip_optional_whitespace(s);
            let text = put_declared(value, names, start, stores, place, fill, property.name);
            wipe_work(stores, value.statement.count);
            Some(DeclarationRead {
                taken: property.value + value.statement.taken,
                text,
            })
        }
    }
}

// Reads one declaration.
pub fn parse_declaration(
    s: &[u8],
    names: bool,
    at: usize,
    stores: &mut Stores<'_>,
    place: usize,
    fill: usize,
) -> Option<DeclarationRead>
    requires { OfStores (RulesRoom s.now at) stores.old place fill }
    ensures same { SameStores stores.old stores.new }
    ensures stores_after { leaving result stores.new ≡ of_stores (declaration_left names at s.now) stores.old place fill }
{
    match parse_property(s, stores.texts, fill) {
        Ok(property) => parse_declared(s, property, names, at, stores, place, fill),
        Err(NoProperty { name }) => {
            fill_part(stores.texts, fill, name, 0);
            None
        }
    }
}

// Reads declarations behind a first one, each behind a ';', from the byte `from` of `s` on.
fn more_rules(
    s: &[u8],
    from: usize,
    names: bool,
    at: usize,
    stores: &mut Stores<'_>,
    place: usize,
    fill: usize,
) -> RulesRead
    requires { OfStores (MoreRoom s.now from at) stores.old place fill }
    ensures same { SameStores stores.old stores.new }
    ensures stores_after { leaving result stores.new ≡ of_stores (more_left names at s.now from) stores.old place fill }
    ensures more_read { MoreRead s.now from result }
{
    let mut taken = from;
    let mut count = 0;
    let mut text = 0;
    // each turn goes on behind the declaration that was read
    while byte_is(s, taken, b';') {
        let w = skip_from(s, taken + 1);
        let row = place + DECLARATION_WIDTH * count;
        let Some(read) = parse_declaration(&s[w..], names, at + w, stores, row, fill + text) else {
            break;
        };
        taken = w + read.taken;
        count += 1;
        text += read.text;
    }
    RulesRead { taken, count, text }
}

// Reads declarations, parted by ';' and white space or none.
pub fn parse_rules(
    s: &[u8],
    names: bool,
    at: usize,
    stores: &mut Stores<'_>,
    place: usize,
    fill: usize,
) -> RulesRead
    requires { OfStores (RulesRoom s.now at) stores.old place fill }
    ensures same { SameStores stores.old stores.new }
    ensures stores_after { leaving result stores.new ≡ of_stores (rules_left names at s.now) stores.old place fill }
{
    let Some(read) = parse_declaration(s, names, at, stores, place, fill) else {
        return RulesRead {
            taken: 0,
            count: 0,
            text: 0,
        };
    };
    let more = more_rules(
        s,
        read.taken,
        names,
        at,
        stores,
        place + DECLARATION_WIDTH,
        fill + read.text,
    );
    RulesRead {
        taken: more.taken,
        count: more.count + 1,
        text: more.text + read.text,
    }
}
