// Style rows: three records in lent numbers, each a presence flag and its slots. One slot at a time is taken out by value, updated and put back.
ghost use Rattle.std.specs.Prelude.{◌≡◌, ◌+◌, ◌*◌, ◌<◌, set, take, drop};
ghost use Rattle.std.proofs.lemmas.List.Edits.{sets};
ghost use mathlib.Core.List.{foldl};
ghost use Rattle.cascade.specs.Slot.{slot_by, fill_update};
ghost use Rattle.cascade.specs.Record.{record_count, slot_count, handed_slot};
ghost use Rattle.cascade.specs.Row.{slot_at, slot_numbers, record_place, slot_place, present_flag, style_row_width, merge_row_by, handed_says, handed_at, filled_row, filled_pseudo, RowRoom, TwoRooms, Merged, Inherited, Finished, Emptied};

use crate::slots::{Candidate, Cascade, Slot, Weight};
use crate::specificity::Specificity;
use syntax::rows::{
    COLOUR_SLOT, FLAG_TRUE, PSEUDO_AFTER, PSEUDO_BEFORE, PSEUDO_NONE, VISIBILITY_SLOT,
    WHITE_SPACE_SLOT, flag_of,
};
use syntax::styles::{StyleNumbers, Value};

// The numbers of a slot.
pub const SLOT_FILLED: usize = 0;

pub const SLOT_ORIGIN: usize = 1;

pub const SLOT_INLINE: usize = 2;

pub const SLOT_ID: usize = 3;

pub const SLOT_CLASS: usize = 4;

pub const SLOT_TYPE: usize = 5;

pub const SLOT_IMPORTANT: usize = 6;

// The numbers of its value begin here.
pub const SLOT_NUMBER: usize = 7;

pub const SLOT_SECOND: usize = 8;

pub const SLOT_START: usize = 9;

pub const SLOT_WIDTH: usize = 10;

// A record: a presence flag, and a slot for each slot number of the compiled sheet.
pub const SLOT_COUNT: usize = 6;

pub const PRESENCE_WIDTH: usize = 1;

pub const RECORD_WIDTH: usize = PRESENCE_WIDTH + SLOT_COUNT * SLOT_WIDTH;

// A style: the records of the element, of `::before` and of `::after`, by the pseudo numbers of the compiled sheet. They are numbers, since rules and compiled
// bytes are lent with any number for a pseudo element.
pub const RECORD_COUNT: usize = 3;

pub const MAIN: usize = PSEUDO_NONE as usize;

pub const BEFORE: usize = PSEUDO_BEFORE as usize;

pub const AFTER: usize = PSEUDO_AFTER as usize;

pub const STYLE_ROW_WIDTH: usize = RECORD_COUNT * RECORD_WIDTH;

// An array of just these numbers. What is in this file takes a row of any slice that begins with them, and leaves what stands behind.
pub type StyleRow = [u32; STYLE_ROW_WIDTH];

// What an element hands on in the book order to its children and to its own pseudo elements, from its main record.
#[derive(Clone, Copy)]
pub struct Handed {
    pub color: Slot,
    pub white_space: Slot,
    pub visibility: Slot,
}

// Which slot of which record: `merge_computed_style` tests once that there is such a one, and the type keeps it.
#[derive(Clone, Copy)]
struct SlotPlace {
    pseudo: usize,
    slot: usize,
    ghost within: { (pseudo < record_count) × (slot < slot_count) },
}

impl SlotPlace {
    // Where the slot begins in a row.
    fn start(self) -> usize
        ensures { result ≡ slot_place self.pseudo self.slot }
    {
        self.pseudo * RECORD_WIDTH + PRESENCE_WIDTH + self.slot * SLOT_WIDTH
    }

    // The slot that stands there.
    fn read(self, row: &[u32]) -> Slot
        requires { RowRoom row.now }
        ensures { slot_by result ≡ slot_at row.now (slot_place self.pseudo self.slot) }
    {
        let at = self.start();
        if row[at + SLOT_FILLED] != FLAG_TRUE {
            return Slot::EMPTY;
        }
        let spec = Specificity {
            inline: row[at + SLOT_INLINE] == FLAG_TRUE,
            id: row[at + SLOT_ID],
            class: row[at + SLOT_CLASS],
            typ: row[at + SLOT_TYPE],
        };
        let weight = Weight {
            important: row[at + SLOT_IMPORTANT] == FLAG_TRUE,
            origin: row[at + SLOT_ORIGIN],
            spec,
        };
        let value = Value {
            number: row[at + SLOT_NUMBER],
            second: row[at + SLOT_SECOND],
            start: row[at + SLOT_START],
        };
        Slot::new(Candidate { weight, value })
    }

    // The slot is put back there, and its record is present.
    fn put_back(self, row: &mut [u32], updated: Slot)
        requires { RowRoom row.old }
        ensures { row.new ≡ set (sets row.old (slot_place self.pseudo self.slot) (slot_numbers (slot_by updated))) (record_place self.pseudo) present_flag }
    {
        let at = self.start();
        row[at..at + SLOT_WIDTH].copy_from_slice(&numbers_of(updated));
        row[self.pseudo * RECORD_WIDTH] = FLAG_TRUE;
    }

    // The slot there filled from one that is handed on. Two lines are all that this and `merge_computed_style` share, by another update each, of which a
    // function for both would owe what its closure ensures.
    fn fill(self, row: &mut [u32], from: Slot)
        requires { RowRoom row.old }
        ensures { row.new ≡ foldl (merge_row_by fill_update) row.old (handed_slot self.pseudo self.slot (slot_by from)) }
    {
        if let Some(handed) = from.held {
            let old = self.read(row);
            self.put_back(row, old.fill(handed));
        }
    }
}

// The numbers of a slot: one that holds nothing is zeros. A function, since its one caller would name the type of the array for a `From`.
fn numbers_of(slot: Slot) -> [u32; SLOT_WIDTH]
    ensures { result ≡ slot_numbers (slot_by slot) }
{
    match slot.held {
        Some(held) => [
            FLAG_TRUE,
            held.weight.origin,
            flag_of(held.weight.spec.inline),
            held.weight.spec.id,
            held.weight.spec.class,
            held.weight.spec.typ,
            flag_of(held.weight.important),
            held.value.number,
            held.value.second,
            held.value.start,
        ],
        None => [0; SLOT_WIDTH],
    }
}

// One style of an origin and a specificity, as the cascade merges it. One for a record or a slot that there is not changes nothing.
pub fn merge_computed_style(
    row: &mut [u32],
    cascade: Cascade,
    pseudo: usize,
    origin: u32,
    spec: Specificity,
    style: StyleNumbers,
)
    requires { RowRoom row.old }
    ensures { Merged cascade row.old row.new (record { pseudo = pseudo; slot = style.slot; candidate = record { weight = record { important = style.important; origin = origin; spec = spec }; value = style.value } }) }
{
    let slot = style.slot as usize;
    if pseudo >= RECORD_COUNT || slot >= SLOT_COUNT {
        return;
    }
    let weight = Weight {
        important: style.important,
        origin,
        spec,
    };
    let new = Candidate {
        weight,
        value: style.value,
    };
    let place = SlotPlace { pseudo, slot };
    let old = place.read(row);
    place.put_back(row, old.update(cascade, new));
}

// A style over another that stands behind it in the same store, by the library's method, which is shorter than two parts by `split_at_mut` and a copy. The
// store stays a slice of numbers: of its chunks (`as_chunks_mut`) nothing is promised of what it ends as.
pub fn copy_within(rows: &mut [u32], parent: usize, child: usize)
    requires { TwoRooms rows.old parent child }
    ensures { rows.new ≡ sets rows.old child (take style_row_width (drop parent rows.old)) }
{
    rows.copy_within(parent..parent + STYLE_ROW_WIDTH, child);
}

// The row that a child begins with, in place of its parent's: in the crate's cascade all of it, in the book order nothing. A `match`, here and in `finish`: the
// definitions go by the same two cases, and nothing else is to be handed on as a function.
pub fn inherit(row: &mut [u32], cascade: Cascade)
    requires { RowRoom row.old }
    ensures { Inherited cascade row.old row.new }
{
    match cascade {
        Cascade::Crate => {}
        Cascade::Book => row[..STYLE_ROW_WIDTH].fill(0), // all three records
    }
    row[MAIN * RECORD_WIDTH] = FLAG_TRUE;
}

// What the element of a row hands on in the book order.
pub fn handed_on(row: &[u32]) -> Handed
    requires { RowRoom row.now }
    ensures { handed_says result ≡ handed_at row.now }
{
    let color = SlotPlace {
        pseudo: MAIN,
        slot: COLOUR_SLOT as usize,
    };
    let white_space = SlotPlace {
        pseudo: MAIN,
        slot: WHITE_SPACE_SLOT as usize,
    };
    let visibility = SlotPlace {
        pseudo: MAIN,
        slot: VISIBILITY_SLOT as usize,
    };
    Handed {
        color: color.read(row),
        white_space: white_space.read(row),
        visibility: visibility.read(row),
    }
}

// The slots of a record that inherit.
fn fill_record(row: &mut [u32], pseudo: usize, from: Handed)
    requires { RowRoom row.old × (pseudo < record_count) }
    ensures { row.new ≡ filled_row pseudo (handed_says from) row.old }
{
    let color = SlotPlace {
        pseudo,
        slot: COLOUR_SLOT as usize,
    };
    let white_space = SlotPlace {
        pseudo,
        slot: WHITE_SPACE_SLOT as usize,
    };
    let visibility = SlotPlace {
        pseudo,
        slot: VISIBILITY_SLOT as usize,
    };
    color.fill(row, from.color);
    white_space.fill(row, from.white_space);
    visibility.fill(row, from.visibility);
}

// Those of a pseudo record, from the element's own main record, if a rule has made it present.
fn fill_pseudo(row: &mut [u32], pseudo: usize)
    requires { RowRoom row.old × (pseudo < record_count) }
    ensures { row.new ≡ filled_pseudo pseudo row.old }
{
    if row[pseudo * RECORD_WIDTH] == FLAG_TRUE {
        let own = handed_on(row);
        fill_record(row, pseudo, own);
    }
}

// What an element inherits where nothing is declared, behind all that is declared: in the crate's cascade it began with it.
pub fn finish(row: &mut [u32], cascade: Cascade, parent: Handed)
    requires { RowRoom row.old }
    ensures { Finished cascade (handed_says parent) row.old row.new }
{
    match cascade {
        Cascade::Crate => {}
        Cascade::Book => {
            fill_record(row, MAIN, parent);
            fill_pseudo(row, BEFORE);
            fill_pseudo(row, AFTER);
        }
    }
}

// The row in which nothing is declared.
pub fn clear_row(row: &mut [u32])
    requires { RowRoom row.old }
    ensures { Emptied row.old row.new }
{
    row[..STYLE_ROW_WIDTH].fill(0);
}
