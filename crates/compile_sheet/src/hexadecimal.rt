// Bytes as a line of text.
ghost use Rattle.std.specs.Prelude.{◌≡◌, ◌<◌, ◌≤◌, length, take, Some};
ghost use Rattle.std.specs.Fmt.{WritesOnOk};
ghost use Rattle.combinators.specs.Part.{part};
ghost use Rattle.combinators.specs.Store.{emits};
ghost use Rattle.combinators.specs.Writer.{written, SameStore};
ghost use Rattle.compile_sheet.specs.Hexadecimal.{base, piece_length, hex_digit, hex_pair, next_pair, ended_pairs, hex_line, RoomFor};

use combinators::texts::part_of;
use combinators::writer::Writer;
use std::fmt;

// How many digits there are, and how many of them are decimal.
const BASE: u8 = 16;

const DECIMAL_BASE: u8 = 10;

// What a byte takes of a line: its pair, and the space or the line feed behind it.
const PAIR_WIDTH: usize = 3;

// How many bytes are written at once: no compiled sheet has more, so that its line is one write.
const PIECE_LENGTH: usize = 65536;

const PIECE_WIDTH: usize = PAIR_WIDTH * PIECE_LENGTH;

// How many have a store of their own, since to clear the other one costs more than their line.
const SHORT_LENGTH: usize = 1024;

const SHORT_WIDTH: usize = PAIR_WIDTH * SHORT_LENGTH;

// The digit of a number below the base.
#[tactic(auto, unfolding(crate::specs::Hexadecimal::hex_digit, combinators::specs::Choice::pick))]
fn digit(n: u8) -> u8
    requires { n < base }
    ensures { result ≡ hex_digit n }
{
    if n < DECIMAL_BASE {
        b'0' + n
    } else {
        b'a' + (n - DECIMAL_BASE)
    }
}

// A byte as a pair of lower-case hexadecimal digits.
#[tactic(auto, unfolding(crate::specs::Hexadecimal::hex_pair))]
fn emit_pair(b: u8, writer: &mut Writer<'_>)
    ensures same_store { SameStore writer.old writer.new }
    ensures written { written writer.new ≡ emits (written writer.old) (hex_pair b) }
{
    writer.emit_all(&[digit(b / BASE), digit(b % BASE)]);
}

// A byte behind others: a space and its pair.
#[tactic(auto, unfolding(crate::specs::Hexadecimal::hex_pair))]
fn emit_next_pair(b: u8, writer: &mut Writer<'_>)
    ensures same_store { SameStore writer.old writer.new }
    ensures written { written writer.new ≡ emits (written writer.old) (next_pair b) }
{
    writer.emit_all(&[b' ', digit(b / BASE), digit(b % BASE)]);
}

// Bytes as their pairs, parted by spaces, and a byte that ends them.
fn emit_ended_pairs(bytes: &[u8], end: u8, writer: &mut Writer<'_>)
    ensures same_store { SameStore writer.old writer.new }
    ensures written { written writer.new ≡ emits (written writer.old) (ended_pairs bytes.now end) }
{
    let [first, rest @ ..] = bytes else {
        return writer.emit(end);
    };
    emit_pair(*first, writer);
    for byte in rest {
        emit_next_pair(*byte, writer);
    }
    writer.emit(end);
}

// The same from the start of a store on, as far as it goes; the fill behind it.
fn put_ended_pairs(bytes: &[u8], end: u8, store: &mut [u8]) -> usize
    ensures { part store.new 0 result ≡ take (length store.old) (ended_pairs bytes.now end) }
{
    let mut writer = Writer { store, fill: 0 };
    emit_ended_pairs(bytes, end, &mut writer);
    writer.fill
}

// Writes them as one text, since each text is a call of the writer. The store has room for it.
fn write_stored<W: fmt::Write>(
    f: &mut fmt::Formatter<W>,
    bytes: &[u8],
    end: u8,
    store: &mut [u8],
) -> fmt::Result
    requires { RoomFor (length bytes.now) (length store.old) }
    ensures { WritesOnOk W.write_str_gives f.old result (ended_pairs bytes.now end) f.new }
{
    let fill = put_ended_pairs(bytes, end, store);
    match str::from_utf8(part_of(store, 0, fill)) {
        Ok(text) => f.write_str(text),
        Err(_) => Err(fmt::Error),
    }
}

// Writes a piece of a line.
fn write_piece<W: fmt::Write>(f: &mut fmt::Formatter<W>, piece: &[u8], end: u8) -> fmt::Result
    requires { length piece.now ≤ piece_length }
    ensures { WritesOnOk W.write_str_gives f.old result (ended_pairs piece.now end) f.new }
{
    if piece.len() <= SHORT_LENGTH {
        let mut store = [0u8; SHORT_WIDTH];
        write_stored(f, piece, end, &mut store)
    } else {
        let mut store = [0u8; PIECE_WIDTH];
        write_stored(f, piece, end, &mut store)
    }
}

/// Bytes as a line: their pairs, parted by spaces, and a line feed at the end.
#[derive(Clone, Copy)]
pub struct HexLine<'a>(pub &'a [u8]);

impl fmt::Display for HexLine<'_> {
    ghost output = { λ line. Some (hex_line line.0.now) };

    fn fmt<W: fmt::Write>(&self, f: &mut fmt::Formatter<W>) -> fmt::Result {
        let mut rest = self.0;
        // a step is a piece, so this is no range
        while rest.len() > PIECE_LENGTH {
            let (piece, behind) = rest.split_at(PIECE_LENGTH);
            write_piece(f, piece, b' ')?;
            rest = behind;
        }
        write_piece(f, rest, b'\n')
    }
}
