// Declarations written to lent rows, and their texts kept. Who writes to one store alone is lent that one.
ghost use Rattle.std.specs.Prelude.{◌≡◌, ◌+◌, ◌^◌, ◌<◌};
ghost use Rattle.std.proofs.lemmas.List.Edits.{sets};
ghost use Rattle.combinators.specs.Store.{wiped};
ghost use Rattle.syntax.specs.Layout.{flag};
ghost use Rattle.declarations.specs.DeclRow.{named_by, named_numbers_by, shift, kept_text, Keeping, row_value, row_by, Narrow};

use crate::texts::move_down;
use combinators::stores::{emit_all, fill_part};
use syntax::rows::{CONTENT, UNKNOWN, flag_of};
use values::properties::{Decl, DeclNumbers};

// The numbers of a declaration, without its name where it is unknown and names are not kept.
#[tactic(auto, unfolding(crate::specs::DeclRow::named_numbers_by, combinators::specs::Choice::pick, combinators::specs::Choice::is))]
pub fn named_numbers(decl: DeclNumbers, names: bool) -> DeclNumbers
    ensures { result ≡ named_numbers_by names decl }
{
    if decl.kind == UNKNOWN && !names {
        DeclNumbers { text: 0, ..decl }
    } else {
        decl
    }
}

// The same of a `Decl`, which stays one: of its numbers only the length of a name may change.
#[tactic(auto, unfolding(crate::specs::DeclRow::named_by, crate::specs::DeclRow::named_numbers_by, values::specs::DeclAnswer::numbers_of, values::specs::DeclAnswer::kind_of, values::specs::DeclAnswer::text_length, combinators::specs::Choice::pick, combinators::specs::Choice::is))]
pub fn named(decl: Decl, names: bool) -> Decl
    ensures { result ≡ named_by names decl }
{
    match decl {
        Decl::Unknown(_) => Decl::Unknown(named_numbers(DeclNumbers::from(decl), names).text),
        _ => decl,
    }
}

// How far behind the start of the name a text lies.
#[tactic(auto, unfolding(crate::specs::DeclRow::shift, combinators::specs::Choice::pick, combinators::specs::Choice::is))]
fn shift_of(decl: DeclNumbers, length: usize) -> usize
    ensures { result ≡ shift decl length }
{
    if decl.kind == CONTENT { length } else { 0 }
}

// Keeps, of the name of `length` bytes at `fill` and the `text` bytes behind it, the text of the declaration alone: it then starts at
// `fill`, and zeros follow.
// `length` and `text` measure what lies side by side in a lent store.
pub fn keep_text(decl: DeclNumbers, store: &mut [u8], fill: usize, length: usize, text: usize)
    requires { Keeping decl store.old fill length text }
    ensures { store.new ≡ sets (wiped fill (length + text) store.old) fill (kept_text decl store.old fill length) }
{
    let n = decl.text;
    let from = fill + shift_of(decl, length);
    move_down(store, from, fill, n);
    fill_part(store, fill + n, length + text - n, 0);
}

// The number in a row where a text starts, or the declaration's own.
#[tactic(auto, unfolding(crate::specs::DeclRow::row_value, combinators::specs::Choice::pick, combinators::specs::Choice::or, combinators::specs::Choice::is))]
fn value_of(decl: DeclNumbers, fill: usize) -> u32
    requires { fill < 2 ^ 32 }
    ensures { result ≡ row_value fill decl }
{
    if decl.kind == CONTENT || decl.kind == UNKNOWN {
        fill as u32
    } else {
        decl.value
    }
}

// Writes the row of a declaration that starts at the byte `start` of the text and whose text starts at `fill` in the text store.
pub fn put_declaration(
    decl: DeclNumbers,
    important: bool,
    start: usize,
    fill: usize,
    rules: &mut [u32],
    place: usize,
)
    requires { Narrow decl start fill }
    ensures { rules.new ≡ sets rules.old place (row_by (flag important) start fill decl) }
{
    emit_all(
        &[
            decl.kind,
            flag_of(important),
            start as u32,
            value_of(decl, fill),
            decl.text as u32,
        ],
        rules,
        place,
    );
}
