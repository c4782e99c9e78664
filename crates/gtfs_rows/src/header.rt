//! The first record of a sheet, and the places of the wanted columns in it.

ghost use Rattle.std.specs.Prelude.{◌≡◌, ◌≤◌, [], IfOk, IfErr, OnOk, flat_map, map, length};
ghost use Rattle.csv.specs.Records.{fields_of};
ghost use Rattle.gtfs_rows.specs.Records.{trimmed};
ghost use Rattle.gtfs_rows.specs.Sheets.{place_of};
ghost use Rattle.gtfs_rows.specs.Faults.{IsFirstFault, column_faults, times};

use crate::field_list::FieldList;
use crate::memory::NoMemory;
use crate::place::Place;
use crate::records::field_in;
use crate::row_fault::RowFault;
use crate::wanted::Column;
use csv::ByteRecord;
use std::alloc::Global;

/// The fields of a record, trimmed.
pub fn trimmed_fields(alloc: Global, row: &ByteRecord) -> Result<FieldList, NoMemory>
    ensures value { IfOk result (λ fields. fields ≡ map trimmed (fields_of row.now)) }
{
    let mut fields = FieldList::new(alloc);
    for place in 0..row.len() {
        fields.push(field_in(row, Some(place)))?;
    }
    Ok(fields)
}

/// The places of the wanted columns in a header, or the first fault of them.
pub fn places_of(
    alloc: Global,
    file: &str,
    header: &FieldList,
    wanted: &[Column],
) -> Result<Vec<Option<usize>>, RowFault>
    ensures places { IfOk result
        (λ places. places.items ≡ map (λ column. place_of header.now column.name) wanted.now) }
    ensures faultless { OnOk result (flat_map (column_faults file.now header.now) wanted.now ≡ []) }
    ensures refused { IfErr result
        (IsFirstFault (flat_map (column_faults file.now header.now) wanted.now)) }
{
    let mut places = Vec::new(alloc);
    for column in wanted {
        judge(alloc, file, header, column)?;
        places.push(place_of(header, column.name.as_str().as_bytes()))?;
    }
    Ok(places)
}

// Whether a column has a fault in a header: a double name first.
fn judge(alloc: Global, file: &str, header: &FieldList, column: &Column) -> Result<(), RowFault>
    ensures faultless { OnOk result (column_faults file.now header.now column.now ≡ []) }
    ensures refused { IfErr result (IsFirstFault (column_faults file.now header.now column.now)) }
{
    let name = column.name.as_str();
    let times = times(header, name.as_bytes());
    if times > 1 {
        return Err(RowFault::DoubleColumn(Place::new(alloc, file, 1, name, b"")?));
    }
    if column.required && times == 0 {
        return Err(RowFault::MissingColumn(Place::new(alloc, file, 1, name, b"")?));
    }
    Ok(())
}

// How often a name stands in a header.
fn times(header: &FieldList, name: &[u8]) -> usize
    ensures value { result ≡ times name.now header.now }
{
    let mut times = 0;
    for place in 0..header.len() {
        if name == header.get(place) {
            times += 1;
        }
    }
    times
}

// The first place of a name in a header.
fn place_of(header: &FieldList, name: &[u8]) -> Option<usize>
    ensures value { result ≡ place_of header.now name.now }
{
    for place in 0..header.len() {
        if name == header.get(place) {
            return Some(place);
        }
    }
    None
}
