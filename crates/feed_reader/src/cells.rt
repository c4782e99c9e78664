//! The fields of a row of a sheet, and where one stands that is at fault.

ghost use Rattle.std.specs.Prelude.{◌≡◌, ◌+◌, ◌<◌, ◌^◌, ⊤, IfOk, length};
ghost use Rattle.feed_reader.specs.Faults.{field, place_in, row_at, whole_or};

use gtfs_rows::{NoMemory, Place, Sheet, whole};
use std::alloc::Global;
use std::str::from_utf8;

/// The text of the field of a row in a wanted column.
pub(crate) fn text_at(sheet: &Sheet, row: u64, column: usize) -> &str
    requires row { row < length sheet.now.rows }
    requires column { column < sheet.now.width }
    ensures value { result.now ≡ field (row_at sheet.now.rows row) column }
{
    match from_utf8(sheet.field(row, column)) {
        Ok(text) => text,
        Err(_) => "",
    }
}

/// The place of a field in the row of this number, counted from 0 behind the header.
pub(crate) fn place_in(
    alloc: Global,
    file: &str,
    number: u64,
    column: &str,
    field: &[u8],
) -> Result<Place, NoMemory>
    requires number { number + 2 < 2 ^ 64 }
    ensures value { IfOk result (λ place. place ≡ place_in file.now number column.now field.now) }
{
    Place::new(alloc, file, number + 2, column, field)
}

/// The number that a field writes, and this one where it is empty.
pub(crate) fn whole_or(missing: u64, field: &[u8]) -> Option<u64>
    ensures value { result ≡ whole_or missing field.now }
{
    if field.is_empty() {
        Some(missing)
    } else {
        whole(field)
    }
}
