//! The rows of a sheet below its header.

ghost use Rattle.std.specs.Prelude.{◌≡◌, ◌++◌, ◌+◌, ◌<◌, ◌^◌, [], IfOk, IfErr, OnOk, map, length};
ghost use Rattle.csv.specs.Records.{fields_of};
ghost use Rattle.gtfs_rows.specs.Cursor.{AllTexts, IsReading, left_of};
ghost use Rattle.gtfs_rows.specs.Records.{trimmed};
ghost use Rattle.gtfs_rows.specs.Sheets.{field_in};
ghost use Rattle.gtfs_rows.specs.Faults.{IsFirstFault, width_faults};

use crate::field_list::FieldList;
use crate::memory::NoMemory;
use crate::place::Place;
use crate::records::{field_in, next_record};
use crate::row_fault::RowFault;
use crate::sheet::Sheet;
use csv::{ByteRecord, Reader};
use std::alloc::Global;

/// The sheet of the records that are left, with the fields at these places, where each record has
/// the width of the header; else the first fault of them.
pub fn read_rows(
    alloc: Global,
    file: &str,
    reader: &mut Reader<&[u8]>,
    width: usize,
    places: &[Option<usize>],
) -> Result<Sheet, RowFault>
    requires reading { IsReading reader.old }
    requires text { AllTexts (left_of reader.old) }
    requires few { length (left_of reader.old) + 2 < 2 ^ 64 }
    ensures sheet { IfOk result (λ sheet. sheet ≡ record {
      width = length places.now;
      rows = map (λ fields. map (field_in fields) places.now) (map (map trimmed) (left_of reader.old));
    }) }
    ensures faultless { OnOk result
        (width_faults file.now width 2 (map (map trimmed) (left_of reader.old)) ≡ []) }
    ensures refused { IfErr result
        (IsFirstFault (width_faults file.now width 2 (map (map trimmed) (left_of reader.old)))) }
{
    let mut row = ByteRecord::new(alloc);
    let mut fields = FieldList::new(alloc);
    let mut count: u64 = 0;
    while next_record(reader, &mut row)? {
        if row.len() != width {
            return Err(RowFault::RowWidth(Place::new(alloc, file, count + 2, "", b"")?));
        }
        push_row(&mut fields, &row, places)?;
        count += 1;
    }
    Ok(Sheet::of_rows(places.len(), count, fields))
}

// Appends the trimmed fields of a record at these places.
fn push_row(
    fields: &mut FieldList,
    row: &ByteRecord,
    places: &[Option<usize>],
) -> Result<(), NoMemory>
    ensures ok { OnOk result
        (fields.new ≡ fields.old ++ map (field_in (map trimmed (fields_of row.now))) places.now) }
{
    for place in places {
        fields.push(field_in(row, *place))?;
    }
    Ok(())
}
