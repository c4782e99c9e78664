//! The fault texts of what is wrong at a place.

ghost use Rattle.std.specs.Prelude.{[], ◌∷◌, codes};
ghost use Rattle.std.specs.List.{concat};
ghost use Rattle.definitions.specs.Decimal.{numeral, line_end};
ghost use Rattle.gtfs_rows.specs.Faults.{file_place};
ghost use Rattle.desk.specs.PlacedText.{memory_text, placed_text, row_text, shown};
ghost use Rattle.desk.specs.Printing.{Prints};

use crate::pieces::{Piece, write_pieces};
use desk_io::{Failed, Sink};
use gtfs_rows::{Place, RowFault};

/// Writes the fault text of what is wrong at a place, behind how it begins.
pub fn write_placed<E: Sink>(
    err: &mut E,
    head: &str,
    what: &str,
    place: &Place,
) -> Result<(), Failed>
    ensures prints { Prints (E.count err.old) (E.count err.new) (E.written err.old) (E.written err.new) (concat (placed_text head.now what.now place.now)) }
{
    let file = place.file.as_str().as_bytes();
    let column = place.column.as_str().as_bytes();
    let field = place.field.as_slice();
    write_parts(err, head, what, file, place.row, column, field)
}

/// Writes the fault text of what is wrong with a file as a whole.
pub fn write_placed_file<E: Sink>(
    err: &mut E,
    head: &str,
    what: &str,
    name: &str,
) -> Result<(), Failed>
    ensures prints { Prints (E.count err.old) (E.count err.new) (E.written err.old) (E.written err.new) (concat (placed_text head.now what.now (file_place name.now))) }
{
    write_parts(err, head, what, name.as_bytes(), 0, b"", b"")
}

/// Writes the fault text of a sheet or a field of it.
pub fn write_row<E: Sink>(err: &mut E, head: &str, fault: &RowFault) -> Result<(), Failed>
    ensures prints { Prints (E.count err.old) (E.count err.new) (E.written err.old) (E.written err.new) (concat (row_text head.now fault.now)) }
{
    match fault {
        RowFault::NotUtf8(place) => write_placed(err, head, "not-utf8", place),
        RowFault::NoHeader(place) => write_placed(err, head, "no-header", place),
        RowFault::MissingColumn(place) => write_placed(err, head, "missing-column", place),
        RowFault::DoubleColumn(place) => write_placed(err, head, "double-column", place),
        RowFault::RowWidth(place) => write_placed(err, head, "row-width", place),
        RowFault::BadField(place) => write_placed(err, head, "bad-field", place),
        RowFault::NoMemory => write_no_memory(err, head),
    }
}

/// Writes the fault text of want of memory.
pub fn write_no_memory<E: Sink>(err: &mut E, head: &str) -> Result<(), Failed>
    ensures prints { Prints (E.count err.old) (E.count err.new) (E.written err.old) (E.written err.new) (concat (memory_text head.now)) }
{
    write_pieces(
        err,
        &[
            Piece::Text(head),
            Piece::Text("no memory"),
            Piece::Text("\n"),
        ],
    )
}

// Writes the fault text of what is wrong at a place of these parts.
fn write_parts<'a, E: Sink>(
    err: &mut E,
    head: &'a str,
    what: &'a str,
    file: &'a [u8],
    row: u64,
    column: &'a [u8],
    field: &'a [u8],
) -> Result<(), Failed>
    ensures prints { Prints (E.count err.old) (E.count err.new) (E.written err.old) (E.written err.new)
        (concat (placed_text head.now what.now (record { file = file.now; row = row; column = column.now; field = field.now }))) }
{
    write_pieces(
        err,
        &[
            Piece::Text(head),
            Piece::Text(what),
            Piece::Text(" file "),
            Piece::Shown(file),
            Piece::Text(" row "),
            Piece::Number(row as u128),
            Piece::Text(" column "),
            Piece::Shown(column),
            Piece::Text(" field "),
            Piece::Shown(field),
            Piece::Text("\n"),
        ],
    )
}
