//! A sheet: the wanted fields of a file's records.

ghost use Rattle.std.specs.Prelude.{◌≡◌, ◌≢◌, ◌+◌, ◌*◌, ◌<◌, ◌≤◌, ◌^◌, [], Err, IfOk, IfErr, OnOk, length, slice_index_or, map, IsUtf8};
ghost use Rattle.std.specs.Str.{is_utf8};
ghost use Rattle.gtfs_rows.specs.Cursor.{AllTexts, IsReading, left_of};
ghost use Rattle.gtfs_rows.specs.Records.{has_mark, trimmed, unmarked};
ghost use Rattle.gtfs_rows.specs.Shape.{HasShape, rows_of};
ghost use Rattle.gtfs_rows.specs.Sheets.{cell, sheet_of, sheet_of_records};
ghost use Rattle.gtfs_rows.specs.Faults.{IsFirstFault, record_faults, sheet_faults};
ghost use Rattle.gtfs_rows.specs.Refusals.{HasDoubleColumn, HasMissingColumn, HasNoRecord, HasUnevenRow, IsNotText};
ghost use Rattle.gtfs_rows.specs.declared.place.Place.{Place};
ghost use Rattle.gtfs_rows.specs.declared.row_fault.RowFault.TheVariants as fault;

use crate::field_list::FieldList;
use crate::header::{places_of, trimmed_fields};
use crate::place::Place;
use crate::records::{next_record, open};
use crate::row_fault::RowFault;
use crate::rows::read_rows;
use crate::wanted::{Column, Wanted};
use csv::{ByteRecord, Reader};
use std::alloc::Global;
use std::marker::Model;
use std::str::from_utf8;

/// The wanted fields of the records of a file after its first. A row is numbered from 0, and a
/// column by its place among the wanted ones.
#[derive(Drop)]
pub struct Sheet {
    width: usize,
    count: u64,
    fields: FieldList,
}

impl Model for Sheet {
    ghost use Rattle.gtfs_rows.specs.Shape.{HasShape, rows_of};
    ghost use Rattle.gtfs_rows.specs.Sheets.{SheetData};

    ghost Value = { SheetData };

    ghost view = { λ s. record { width = s.width; rows = rows_of s.width s.count s.fields } };

    ghost invariant = { λ s. HasShape s.width s.count s.fields };
}

impl Sheet {
    /// The sheet of the bytes of a file, in time linear in them. docs/FORMATS.md has its rules.
    ///
    /// # Refusals
    ///
    /// The first that applies, in this order, each at a place in `file`.
    /// - `NotUtf8` and `NoHeader`, row 0.
    /// - Then for each wanted column in turn `DoubleColumn` and `MissingColumn`, row 1.
    /// - `RowWidth` of the first record that has another number of fields than the header.
    /// - `NoMemory` may come in place of any of these.
    pub fn read(alloc: Global, file: &str, bytes: &[u8], wanted: &Wanted) -> Result<Sheet, RowFault>
        ensures sheet { IfOk result (λ sheet. sheet ≡ sheet_of bytes.now wanted.now) }
        ensures few { IfOk result (λ sheet. length sheet.rows ≤ length bytes.now) }

        // Each fault is answered, and no other comes before it.
        ensures faultless { OnOk result (sheet_faults file.now bytes.now wanted.now ≡ []) }
        ensures refused { IfErr result (IsFirstFault (sheet_faults file.now bytes.now wanted.now)) }

        // What each refusal says of the file.
        ensures not_utf8 { (p : Place) → result ≡ Err (fault.NotUtf8 p) → IsNotText file.now bytes.now p }
        ensures no_header { (p : Place) → result ≡ Err (fault.NoHeader p) → HasNoRecord file.now bytes.now p }
        ensures double_column { (p : Place) → result ≡ Err (fault.DoubleColumn p)
            → HasDoubleColumn file.now bytes.now wanted.now p }
        ensures missing_column { (p : Place) → result ≡ Err (fault.MissingColumn p)
            → HasMissingColumn file.now bytes.now wanted.now p }
        ensures row_width { (p : Place) → result ≡ Err (fault.RowWidth p)
            → HasUnevenRow file.now bytes.now wanted.now p }
        ensures no_bad_field { (p : Place) → result ≢ Err (fault.BadField p) }
    {
        read_bytes(alloc, file, bytes, wanted.columns())
    }

    // The sheet of rows of this width, one after the other.
    pub(crate) fn of_rows(width: usize, count: u64, fields: FieldList) -> Sheet
        requires shape { HasShape width count fields }
        ensures value { result ≡ record { width = width; rows = rows_of width count fields } }
    {
        Sheet {
            width,
            count,
            fields,
        }
    }

    /// How many columns are wanted.
    pub fn width(&self) -> usize
        ensures value { result ≡ self.now.width }
    {
        self.width
    }

    /// How many rows follow the header.
    pub fn rows(&self) -> u64
        ensures value { result ≡ length self.now.rows }
        ensures within { result + 2 < 2 ^ 64 }
    {
        self.count
    }

    /// The trimmed field of a row in a wanted column, empty where the file has no such column.
    pub fn field(&self, row: u64, column: usize) -> &[u8]
        requires row { row < length self.now.rows }
        requires column { column < self.now.width }
        ensures value { result.now ≡ cell self.now row column }
        ensures text { IsUtf8 result.now }
    {
        cell(&self.fields, self.width, self.count, row, column)
    }

    /// The number of the record in which a field stands, which faults tell: the header is 1.
    pub fn place(&self, row: u64, column: usize) -> u64
        requires row { row < length self.now.rows }
        requires column { column < self.now.width }
        ensures value { result ≡ row + 2 }
    {
        // The number of a record fits a u64, and each column of a row stands in one record.
        let _rows = self.rows();
        let _column = column;
        row + 2
    }
}

// The bytes behind one byte order mark.
fn unmarked(bytes: &[u8]) -> &[u8]
    ensures value { result.now ≡ unmarked bytes.now }
{
    if has_mark(bytes) { &bytes[3..] } else { bytes }
}

// Whether bytes begin with a byte order mark.
fn has_mark(bytes: &[u8]) -> bool
    ensures value { result ≡ has_mark bytes.now }
{
    bytes.len() >= 3 && bytes[0] == 0xEF && bytes[1] == 0xBB && bytes[2] == 0xBF
}

// Whether bytes are UTF-8.
fn is_text(bytes: &[u8]) -> bool
    ensures value { result ≡ is_utf8 bytes.now }
{
    from_utf8(bytes).is_ok()
}

// The sheet of the bytes of a file.
fn read_bytes(alloc: Global, file: &str, bytes: &[u8], wanted: &[Column]) -> Result<Sheet, RowFault>
    ensures sheet { IfOk result (λ sheet. sheet ≡ sheet_of bytes.now wanted.now) }
    ensures faultless { OnOk result (sheet_faults file.now bytes.now wanted.now ≡ []) }
    ensures refused { IfErr result (IsFirstFault (sheet_faults file.now bytes.now wanted.now)) }
{
    let text = unmarked(bytes);
    if !is_text(text) {
        return Err(RowFault::NotUtf8(Place::new(alloc, file, 0, "", b"")?));
    }
    let mut reader = open(alloc, text);
    read_records(alloc, file, &mut reader, wanted)
}

// The sheet of the records that are left.
fn read_records(
    alloc: Global,
    file: &str,
    reader: &mut Reader<&[u8]>,
    wanted: &[Column],
) -> Result<Sheet, RowFault>
    requires reading { IsReading reader.old }
    requires text { AllTexts (left_of reader.old) }
    requires few { length (left_of reader.old) + 2 < 2 ^ 64 }
    ensures sheet { IfOk result
        (λ sheet. sheet ≡ sheet_of_records wanted.now (map (map trimmed) (left_of reader.old))) }
    ensures faultless { OnOk result
        (record_faults file.now wanted.now (map (map trimmed) (left_of reader.old)) ≡ []) }
    ensures refused { IfErr result
        (IsFirstFault (record_faults file.now wanted.now (map (map trimmed) (left_of reader.old)))) }
{
    let mut row = ByteRecord::new(alloc);
    if !next_record(reader, &mut row)? {
        return Err(RowFault::NoHeader(Place::new(alloc, file, 0, "", b"")?));
    }
    let header = trimmed_fields(alloc, &row)?;
    let places = places_of(alloc, file, &header, wanted)?;
    read_rows(alloc, file, reader, header.len(), &places)
}

// The field of a row and a column, where rows lie one after the other.
fn cell(fields: &FieldList, width: usize, count: u64, row: u64, column: usize) -> &[u8]
    requires shape { HasShape width count fields.now }
    requires row { row < count }
    requires column { column < width }
    ensures value { result.now ≡ slice_index_or fields.now (row * width + column) [] }
    ensures text { IsUtf8 result.now }
{
    let _length = fields.len();
    fields.get(row as usize * width + column)
}

#[cfg(test)]
mod tests;
