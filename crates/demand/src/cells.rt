//! The text of a field, and where one stands that is at fault.

ghost use Rattle.std.specs.Prelude.{◌≡◌, ◌<◌, ◌+◌, ◌^◌, IfOk, length};
ghost use Rattle.feed_reader.specs.Faults.{field, place_in, row_at};
ghost use Rattle.demand.specs.Faults.{bad_field};

use crate::fault::DemandFault;
use gtfs_rows::{NoMemory, Place, RowFault, Sheet};
use std::alloc::Global;
use std::str::from_utf8;

/// The text of the field of a row in a wanted column.
pub fn text_at(sheet: &Sheet, row: u64, column: usize) -> &str
    requires row { row < length sheet.now.rows }
    requires column { column < sheet.now.width }
    ensures value { result.now ≡ field (row_at sheet.now.rows row) column }
{
    match from_utf8(sheet.field(row, column)) {
        Ok(text) => text,
        // No field of a sheet is this.
        Err(_) => "",
    }
}

/// The place of a field of the row of this number, counted from 0 behind the header.
pub fn place_in(
    alloc: Global,
    file: &str,
    number: u64,
    column: &str,
    field: &str,
) -> Result<Place, NoMemory>
    requires number { number + 2 < 2 ^ 64 }
    ensures value { IfOk result (λ place. place ≡ place_in file.now number column.now field.now) }
{
    Place::new(alloc, file, number + 2, column, field.as_bytes())
}

/// The fault of a field that its reader refuses, in the row of this number.
pub fn bad_field(
    alloc: Global,
    file: &str,
    number: u64,
    column: &str,
    field: &str,
) -> Result<DemandFault, NoMemory>
    requires number { number + 2 < 2 ^ 64 }
    ensures value { IfOk result
        (λ found. found ≡ bad_field (place_in file.now number column.now field.now)) }
{
    let place = place_in(alloc, file, number, column, field)?;
    Ok(DemandFault::Row(RowFault::BadField(place)))
}
