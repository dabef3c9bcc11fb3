// The characters of a quoted string, written to a store from a fill that the callers keep, so that no writer is lent.
ghost use Rattle.std.specs.Prelude.{◌≡◌, length};
ghost use Rattle.std.proofs.lemmas.List.Edits.{sets};
ghost use Rattle.combinators.specs.Store.{emits};
ghost use Rattle.combinators.specs.Writer.{written, SameStore};
ghost use Rattle.lexer.specs.Quoted.{escaped_byte, quoted_answer, quoted_of, quoted_text, string_end, string_text};

use crate::Written;
use combinators::bytes::peek;
use combinators::taken::Taken;
use combinators::writer::Writer;

// What stands behind the backslash that `s` begins with: a byte of the string's text, or bytes that stand for nothing.
#[tactic(auto, unfolding(crate::specs::Quoted::escaped_byte, combinators::specs::Choice::pick, combinators::specs::Choice::is))]
fn escaped_byte(s: &[u8]) -> Taken<Option<u8>>
    ensures { result ≡ escaped_byte s.now }
{
    if s.len() == 1 {
        return Taken {
            taken: 1,
            value: None,
        };
    }
    let b = peek(s, 1);
    Taken {
        taken: 2,
        value: (b != b'\n').then_some(b),
    }
}

// What `s` begins with, likewise, unless the string ends there.
#[tactic(auto, unfolding(crate::specs::Quoted::quoted_of, combinators::specs::Choice::pick, combinators::specs::Choice::is))]
fn quoted_byte(s: &[u8], quote: u8) -> Option<Taken<Option<u8>>>
    ensures { result ≡ quoted_of quote s.now }
{
    match *s.first()? {
        b if b == quote => None,
        b'\n' => None,
        b'\\' => Some(escaped_byte(s)),
        b => Some(Taken {
            taken: 1,
            value: Some(b),
        }),
    }
}

// What `s` begins with, written.
fn emit_quoted(s: &[u8], quote: u8, writer: &mut Writer<'_>) -> Option<Written>
    ensures same_store { SameStore writer.old writer.new }
    ensures value { result ≡ quoted_answer (quoted_of quote s.now) }
    ensures written { written writer.new ≡ emits (written writer.old) (quoted_text quote s.now) }
{
    let Taken { taken, value } = quoted_byte(s, quote)?;
    match value {
        Some(b) => {
            writer.emit(b);
            Some(Written { taken, length: 1 })
        }
        None => Some(Written { taken, length: 0 }),
    }
}

// The characters of the string, written from `fill` on; `s` begins behind the quote. A step is what a turn takes, so this is no range.
pub fn emit_string(s: &[u8], quote: u8, store: &mut [u8], fill: usize) -> Written
    ensures taken_value { (result.taken ≡ string_end quote s.now) × (result.length ≡ length (string_text quote s.now)) }
    ensures store_after { store.new ≡ sets store.old fill (string_text quote s.now) }
{
    let mut writer = Writer { store, fill };
    let mut i = 0;
    let mut n = 0;
    while let Some(r) = emit_quoted(&s[i..], quote, &mut writer) {
        i += r.taken;
        n += r.length;
    }
    Written {
        taken: i,
        length: n,
    }
}
