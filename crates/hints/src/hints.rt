// What is told of an element once, before its selectors are gone over: what the texts may begin with that it has of each kind, its name, its classes, its ids and
// the names of its attributes.
ghost use Rattle.std.specs.Prelude.{◌≡◌, ℕ, ◌*◌, ◌<◌, true, replicate};
ghost use Rattle.page.specs.PathOf.{attributes_from};
ghost use Rattle.syntax.specs.RuleLayout.{class_kind, hash_kind};
ghost use Rattle.matching.specs.Matches.{is_class, is_id};
ghost use Rattle.matching.specs.Rows.{attribute_of};
ghost use Rattle.matching.specs.Texts.{has_word};
ghost use Rattle.sweeps.specs.Met.{handed_element};
ghost use Rattle.hints.specs.Hints.{kinds, starts, start_of, place_of, marked, nameless, Covers, Keeps, Open, AttributesFit, Fits, NameFails};

use combinators::bytes::peek;
use combinators::stores::fill_part;
use matching::elements::Attributes;
use matching::texts::split_word;
use page::rows::{ATTRIBUTE_WIDTH, attribute_name, attribute_value};
use sweeps::elements::Handed;
use syntax::rows::{ATTRIBUTE, CLASS, ELEMENT, HASH};

// From so many selectors on it pays to look at the attributes.
const SELECTORS: u32 = 8;

// The kinds with a row in the table: those up to the last one of one text.
const KINDS: usize = ATTRIBUTE as usize + 1;

// The starts of texts that are told apart: names begin with letters, whose last six bits differ.
const STARTS: usize = 64;

// What a byte more in length adds to a start: an odd number, by which lengths up to `STARTS` differ. By this one the common elements of HTML fall together only
// where length and first byte are the same.
const SPREAD: usize = 23;

// What is told of an element: for each kind a row, with a flag for each start that a text may have.
#[derive(Drop)]
pub struct Hint {
    may: [bool; KINDS * STARTS],
}

// The start of a text, told by its length and its first byte.
fn start_of(size: usize, byte: u8) -> usize
    ensures value { result ≡ start_of size byte }
    ensures below { result < starts }
{
    (usize::from(byte) + SPREAD * (size % STARTS)) % STARTS
}

// The place of its flag, by the kind.
#[tactic(auto, unfolding(crate::specs::Hints::place_of))]
fn place_of(kind: u32, size: usize, byte: u8) -> usize
    requires { kind < kinds }
    ensures value { result ≡ place_of kind size byte }
    ensures below { result < kinds * starts }
{
    kind as usize * STARTS + start_of(size, byte)
}

impl Hint {
    // A hint that tells nothing.
    pub fn new() -> Hint
        ensures { result.may ≡ replicate (kinds * starts) true }
    {
        Hint {
            may: [true; KINDS * STARTS],
        }
    }

    // Marks nothing, or all texts of attributes.
    fn clear(&mut self, any: bool)
        ensures { self.new.may ≡ nameless any }
    {
        self.may = [true; KINDS * STARTS];
        fill_part(&mut self.may, CLASS as usize * STARTS, STARTS, any);
        fill_part(&mut self.may, ELEMENT as usize * STARTS, STARTS, false);
        fill_part(&mut self.may, HASH as usize * STARTS, STARTS, any);
        fill_part(&mut self.may, ATTRIBUTE as usize * STARTS, STARTS, any);
    }

    // Marks a text of a kind.
    #[tactic(auto, unfolding(crate::specs::Hints::marked))]
    fn mark(&mut self, kind: u32, text: &[u8])
        requires { kind < kinds }
        ensures { self.new.may ≡ marked self.old.may kind text.now }
    {
        self.may[place_of(kind, text.len(), peek(text, 0))] = true;
    }

    // Marks the words of a text as classes. (A `while`: a step leaves what stands behind a word.)
    fn mark_words(&mut self, s: &[u8])
        ensures keeps { Keeps self.old self.new }
        ensures words { Covers self.new class_kind (λ w. has_word w s.now) }
    {
        let mut left = s;
        while let Some((word, rest)) = split_word(left) {
            self.mark(CLASS, word);
            left = rest;
        }
    }

    // Marks the classes of an attribute.
    fn mark_classes(&mut self, attributes: Attributes<'_>, row: usize)
        ensures keeps { Keeps self.old self.new }
        ensures classes { Covers self.new class_kind (λ c. is_class c (attribute_of attributes.entry.rows.now attributes.entry.text.now row)) }
    {
        if attributes.is_named(row, b"class") {
            self.mark_words(attribute_value(attributes.rows, attributes.text, row));
        }
    }

    // Marks the value of an attribute, if it is an `id`.
    fn mark_id(&mut self, attributes: Attributes<'_>, row: usize)
        ensures keeps { Keeps self.old self.new }
        ensures ids { Covers self.new hash_kind (λ i. is_id i (attribute_of attributes.entry.rows.now attributes.entry.text.now row)) }
    {
        if attributes.is_named(row, b"id") {
            self.mark(HASH, attribute_value(attributes.rows, attributes.text, row));
        }
    }

    // Marks what attributes have.
    fn mark_attributes(&mut self, attributes: Attributes<'_>)
        ensures keeps { Keeps self.old self.new }
        ensures fit { AttributesFit self.new (attributes_from attributes.entry.rows.now attributes.entry.text.now attributes.entry.count 0) }
    {
        for row in 0..attributes.count {
            self.mark(
                ATTRIBUTE,
                attribute_name(attributes.rows, attributes.text, row),
            );
            self.mark_classes(attributes, row);
            self.mark_id(attributes, row);
        }
    }

    // Clears, and marks what the attributes of an element have at which so many selectors are gone over: for a few, attributes are not looked at.
    fn tell_attributes(&mut self, element: &Handed<'_>, selectors: u32)
        ensures others { Open self.new }
        ensures fit { (place : ℕ) → AttributesFit self.new (handed_element element.now.name.now element.now.attributes.now element.now.text.now place).attributes }
    {
        if selectors < SELECTORS {
            self.clear(element.attributes.len() >= ATTRIBUTE_WIDTH);
            return;
        }
        self.clear(false);
        self.mark_attributes(element.attributes());
    }

    // What is told of an element at which so many selectors are gone over, in place of what was told before. (A hint is no result of this: that would be copied.)
    pub fn tell(&mut self, element: &Handed<'_>, selectors: u32)
        ensures { (place : ℕ) → Fits self.new (handed_element element.now.name.now element.now.attributes.now element.now.text.now place) }
    {
        self.tell_attributes(element, selectors);
        self.mark(ELEMENT, element.name);
    }

    // Whether a component of one text surely fails at the element, by its kind, the length of the text and its first byte. A kind is a number of the bytes, which
    // may be any.
    pub(crate) fn name_fails(&self, kind: u32, size: usize, byte: u8) -> bool
        ensures { result ≡ true → NameFails self.now kind size byte }
    {
        (kind as usize) < KINDS && !self.may[place_of(kind, size, byte)]
    }
}
