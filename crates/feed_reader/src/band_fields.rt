//! The fields of a row of frequencies.txt.

ghost use Rattle.std.specs.Prelude.{◌≡◌, ◌≤◌, ◌<◌, ◌+◌, ◌^◌, ◌∷◌, [], Some, OnOk, IfOk, IfErr, codes, length};
ghost use Rattle.gtfs_rows.specs.Fields.{clock_of};
ghost use Rattle.feed_reader.specs.BandRows.{band_field_faults, band_value_faults, clock_faults, exact_faults, headway_faults};
ghost use Rattle.feed_reader.specs.Faults.{IsFirstFault, field, place_in, row_at};
ghost use Rattle.feed_reader.specs.Frequencies.{HEADWAY_LIMIT, begin_of, end_of, headway_of, is_exact};
ghost use Rattle.feed_reader.specs.declared.fault.FeedFault.TheVariants as fault;

use crate::cells::{place_in, text_at};
use crate::fault::FeedFault;
use crate::refusals::bad_field;
use gtfs_rows::{Sheet, clock, whole};
use std::alloc::Global;

/// The fields of a row behind its trip. Times and the headway are in seconds.
#[derive(Clone, Copy, Debug, Drop)]
pub(crate) struct BandFields {
    pub begins: u32,
    pub ends: u32,
    pub headway: u64,
    pub exact: bool,
}

/// The fields of a row, or the first of them that its reader refuses.
pub(crate) fn fields_at(alloc: Global, sheet: &Sheet, row: u64) -> Result<BandFields, FeedFault>
    requires row { row < length sheet.now.rows }
    requires width { sheet.now.width ≡ 5 }
    ensures begins { IfOk result (λ fields. begin_of (row_at sheet.now.rows row) ≡ fields.begins) }
    ensures ends { IfOk result (λ fields. end_of (row_at sheet.now.rows row) ≡ fields.ends) }
    ensures headway { IfOk result
        (λ fields. headway_of (row_at sheet.now.rows row) ≡ fields.headway) }
    ensures exact { IfOk result (λ fields. is_exact (row_at sheet.now.rows row) ≡ fields.exact) }
    ensures faultless { OnOk result (band_field_faults sheet.now.rows row ≡ []) }
    ensures refused { IfErr result (IsFirstFault (band_field_faults sheet.now.rows row)) }
{
    let begins = clock_at(alloc, sheet, row, "start_time", 1)?;
    let ends = clock_at(alloc, sheet, row, "end_time", 2)?;
    let headway = headway_at(alloc, sheet, row)?;
    let exact = exact_at(alloc, sheet, row)?;
    Ok(BandFields {
        begins,
        ends,
        headway,
        exact,
    })
}

// The seconds of a clock in a column.
fn clock_at(
    alloc: Global,
    sheet: &Sheet,
    row: u64,
    name: &str,
    column: usize,
) -> Result<u32, FeedFault>
    requires row { row < length sheet.now.rows }
    requires column { column < sheet.now.width }
    ensures seconds { IfOk result
        (λ seconds. clock_of (field (row_at sheet.now.rows row) column) ≡ Some seconds) }
    ensures faultless { OnOk result
        (clock_faults row name.now (field (row_at sheet.now.rows row) column) ≡ []) }
    ensures refused { IfErr result (IsFirstFault
        (clock_faults row name.now (field (row_at sheet.now.rows row) column))) }
{
    let _rows = sheet.rows();
    let field = sheet.field(row, column);
    match clock(field) {
        Some(seconds) => Ok(seconds),
        None => Err(bad_field(alloc, "frequencies.txt", row, name, field)),
    }
}

// The headway of a row.
fn headway_at(alloc: Global, sheet: &Sheet, row: u64) -> Result<u64, FeedFault>
    requires row { row < length sheet.now.rows }
    requires width { sheet.now.width ≡ 5 }
    ensures headway { IfOk result (λ headway. headway_of (row_at sheet.now.rows row) ≡ headway) }
    ensures faultless { OnOk result (headway_faults sheet.now.rows row ≡ []) }
    ensures refused { IfErr result (IsFirstFault (headway_faults sheet.now.rows row)) }
{
    let _rows = sheet.rows();
    let field = sheet.field(row, 3);
    match whole(field) {
        Some(headway) => Ok(headway),
        None => Err(bad_field(alloc, "frequencies.txt", row, "headway_secs", field)),
    }
}

// Whether the departures of a row are exact.
fn exact_at(alloc: Global, sheet: &Sheet, row: u64) -> Result<bool, FeedFault>
    requires row { row < length sheet.now.rows }
    requires width { sheet.now.width ≡ 5 }
    ensures exact { IfOk result (λ exact. is_exact (row_at sheet.now.rows row) ≡ exact) }
    ensures faultless { OnOk result (exact_faults sheet.now.rows row ≡ []) }
    ensures refused { IfErr result (IsFirstFault (exact_faults sheet.now.rows row)) }
{
    let _rows = sheet.rows();
    let text = text_at(sheet, row, 4);
    if text == "1" {
        return Ok(true);
    }
    if text.is_empty() {
        return Ok(false);
    }
    if text == "0" {
        return Ok(false);
    }
    Err(bad_field(
        alloc,
        "frequencies.txt",
        row,
        "exact_times",
        text.as_bytes(),
    ))
}

/// The headway of a row whose fields are these, from 1 to its limit.
pub(crate) fn headway_within(
    alloc: Global,
    sheet: &Sheet,
    row: u64,
    fields: BandFields,
) -> Result<u32, FeedFault>
    requires row { row < length sheet.now.rows }
    requires width { sheet.now.width ≡ 5 }
    requires begins { begin_of (row_at sheet.now.rows row) ≡ fields.begins }
    requires ends { end_of (row_at sheet.now.rows row) ≡ fields.ends }
    requires headway { headway_of (row_at sheet.now.rows row) ≡ fields.headway }
    ensures headway { IfOk result (λ headway. headway_of (row_at sheet.now.rows row) ≡ headway) }
    ensures some { IfOk result (λ headway. 1 ≤ headway) }
    ensures most { IfOk result (λ headway. headway ≤ HEADWAY_LIMIT) }
    ensures faultless { OnOk result (band_value_faults sheet.now.rows row ≡ []) }
    ensures refused { IfErr result (IsFirstFault (band_value_faults sheet.now.rows row)) }
{
    let _rows = sheet.rows();
    if fields.headway == 0 || fields.headway > 1_000_000 {
        return Err(bad_headway(alloc, row, "headway_secs", sheet.field(row, 3)));
    }
    if fields.ends < fields.begins {
        return Err(bad_headway(alloc, row, "end_time", sheet.field(row, 2)));
    }
    Ok(fields.headway as u32)
}

// The fault of a headway, or of an end before the beginning.
fn bad_headway(alloc: Global, row: u64, column: &str, field: &[u8]) -> FeedFault
    requires row { row + 2 < 2 ^ 64 }
    ensures value { IsFirstFault
        (fault.BadHeadway (place_in (codes "frequencies.txt") row column.now field.now) ∷ [])
        result }
{
    match place_in(alloc, "frequencies.txt", row, column, field) {
        Ok(place) => FeedFault::BadHeadway(place),
        Err(_) => FeedFault::NoMemory,
    }
}
