//! Text in pieces, which is written without memory.

ghost use Rattle.std.specs.Prelude.{◌≡◌, ◌≤◌, [], ◌∷◌, map, take, OnErr, OnOk, length};
ghost use Rattle.std.specs.List.{concat, flat_map};
ghost use Rattle.definitions.specs.Decimal.{numeral, line_end};
ghost use Rattle.definitions.specs.Causes.{Rose};
ghost use Rattle.desk_io.specs.Told.{Appends};
ghost use Rattle.desk.specs.PlacedText.{shown, shown_byte};
ghost use Rattle.desk.specs.Pieces.{piece_text};
ghost use Rattle.desk.specs.Printing.{Prints};

use arrayvec::ArrayVec;
use desk_io::{Failed, Sink, write_all};
use itoa::Buffer;

/// A piece of a text.
#[derive(Clone, Copy, Drop)]
pub enum Piece<'a> {
    Text(&'a str),
    Number(u128),
    /// A path, an id or a field, as fault texts show it: printable, at most 60 bytes, `-` where it is empty.
    Shown(&'a [u8]),
}

/// Writes the pieces one after the other, and stops where the sink fails.
pub fn write_pieces<S: Sink>(sink: &mut S, pieces: &[Piece<'_>]) -> Result<(), Failed>
    ensures ok { OnOk result (Appends (S.written sink.old) (S.written sink.new) (flat_map piece_text pieces.now)) }
    ensures write_cause { OnErr result (Rose (S.count sink.old) (S.count sink.new)) }
    ensures prints { Prints (S.count sink.old) (S.count sink.new) (S.written sink.old) (S.written sink.new) (flat_map piece_text pieces.now) }
{
    for piece in pieces {
        write_piece(sink, piece)?;
    }
    Ok(())
}

/// Writes words, a number and the end of the line.
pub fn write_numbered<S: Sink>(sink: &mut S, words: &str, number: u128) -> Result<(), Failed>
    ensures prints { Prints (S.count sink.old) (S.count sink.new) (S.written sink.old) (S.written sink.new)
        (concat (words.now ∷ numeral number ∷ line_end ∷ [])) }
{
    write_pieces(
        sink,
        &[Piece::Text(words), Piece::Number(number), Piece::Text("\n")],
    )
}

// Writes one piece.
fn write_piece<S: Sink>(sink: &mut S, piece: &Piece<'_>) -> Result<(), Failed>
    ensures ok { OnOk result (Appends (S.written sink.old) (S.written sink.new) (piece_text piece.now)) }
    ensures write_cause { OnErr result (Rose (S.count sink.old) (S.count sink.new)) }
    ensures prints { Prints (S.count sink.old) (S.count sink.new) (S.written sink.old) (S.written sink.new) (piece_text piece.now) }
{
    match piece {
        Piece::Text(text) => write_bytes(sink, text.as_bytes()),
        Piece::Number(number) => {
            let mut digits = Buffer::new();
            write_bytes(sink, digits.format(*number).as_bytes())
        }
        Piece::Shown(bytes) => write_shown(sink, bytes),
    }
}

// Writes bytes as fault texts show them.
fn write_shown<S: Sink>(sink: &mut S, bytes: &[u8]) -> Result<(), Failed>
    ensures ok { OnOk result (Appends (S.written sink.old) (S.written sink.new) (shown bytes.now)) }
    ensures write_cause { OnErr result (Rose (S.count sink.old) (S.count sink.new)) }
    ensures prints { Prints (S.count sink.old) (S.count sink.new) (S.written sink.old) (S.written sink.new) (shown bytes.now) }
{
    if bytes.is_empty() {
        return write_bytes(sink, b"-");
    }
    let shown = shown_bytes(bytes);
    write_bytes(sink, shown.as_slice())
}

// The first 60 bytes, as they are shown.
fn shown_bytes(bytes: &[u8]) -> ArrayVec<u8, 60>
    ensures bytes { result.items ≡ map shown_byte (take 60 bytes.now) }
{
    let mut shown = ArrayVec::new();
    for byte in first_bytes(bytes, 60) {
        shown.push(shown_byte(*byte));
    }
    shown
}

// The first bytes, at most so many.
fn first_bytes(bytes: &[u8], most: usize) -> &[u8]
    ensures first { result.now ≡ take most bytes.now }
    ensures within { length result.now ≤ most }
{
    if bytes.len() <= most {
        bytes
    } else {
        &bytes[..most]
    }
}

// A byte as it is shown.
fn shown_byte(byte: u8) -> u8
    ensures byte { result ≡ shown_byte byte }
{
    if (32..=126).contains(&byte) {
        byte
    } else {
        b'?'
    }
}

// Writes all bytes.
fn write_bytes<S: Sink>(sink: &mut S, bytes: &[u8]) -> Result<(), Failed>
    ensures ok { OnOk result (Appends (S.written sink.old) (S.written sink.new) bytes.now) }
    ensures write_cause { OnErr result (Rose (S.count sink.old) (S.count sink.new)) }
    ensures prints { Prints (S.count sink.old) (S.count sink.new) (S.written sink.old) (S.written sink.new) bytes.now }
{
    match write_all(sink, bytes) {
        Ok(()) => Ok(()),
        Err(_) => Err(Failed),
    }
}
