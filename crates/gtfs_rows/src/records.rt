//! The records of a text, one at a time.

ghost use Rattle.std.specs.Prelude.{◌≡◌, ◌∷◌, [], IfOk, map, if◌then◌else◌, true};
ghost use Rattle.csv.specs.Records.{fields_of};
ghost use Rattle.csv.specs.Reading.{default_config, records, strip_bom};
ghost use Rattle.gtfs_rows.specs.Cursor.{IsReading, left_of};
ghost use Rattle.gtfs_rows.specs.Records.{trimmed};
ghost use Rattle.gtfs_rows.specs.Sheets.{field_in};

use crate::memory::NoMemory;
use crate::trimming::trimmed;
use csv::{ByteRecord, Reader, ReaderBuilder};
use std::alloc::Global;

/// A reader at the first record of a text. It removes one byte order mark.
pub fn open(alloc: Global, bytes: &[u8]) -> Reader<&[u8]>
    ensures reading { IsReading result }
    ensures left { left_of result ≡ records default_config (strip_bom bytes.now) }
{
    ReaderBuilder::new()
        .has_headers(false)
        .flexible(true)
        .from_reader(alloc, bytes)
}

/// Reads the next record into `row`, if there is one.
pub fn next_record(reader: &mut Reader<&[u8]>, row: &mut ByteRecord) -> Result<bool, NoMemory>
    requires reading { IsReading reader.old }
    ensures reading { IfOk result (λ found. found ≡ true → IsReading reader.new) }
    ensures next { IfOk result (λ found. left_of reader.old
        ≡ (if found then fields_of row.new ∷ left_of reader.new else [])) }
{
    // Over memory nothing but want of memory fails, but no clause of csv excludes the rest.
    let Ok(found) = reader.read_byte_record(row) else {
        return Err(NoMemory);
    };
    Ok(found)
}

/// The trimmed field of a record at a place, empty where there is none.
pub fn field_in(row: &ByteRecord, place: Option<usize>) -> &[u8]
    ensures value { result.now ≡ field_in (map trimmed (fields_of row.now)) place }
{
    match place {
        None => b"",
        Some(i) => match row.get(i) {
            None => b"",
            Some(field) => trimmed(field),
        },
    }
}
