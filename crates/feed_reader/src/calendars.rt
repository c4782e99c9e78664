//! The weeks of calendar.txt.

ghost use Rattle.std.specs.Prelude.{◌≡◌, ◌<◌, ◌^◌, [], Some, None, OnOk, IfOk, IfErr, length, map, take, flat_map, slice_index_or, if◌then◌else◌};
ghost use Rattle.std.specs.List.{AllZip, range_with_len};
ghost use Rattle.gtfs_rows.specs.Fields.{date_of, ymd_of};
ghost use Rattle.feed_reader.specs.Calendars.{IsWeekOf, calendar_faults, date_faults, day_faults, day_field, day_names, days_of, is_set, service_id, week_faults};
ghost use Rattle.feed_reader.specs.CalendarParts.{service_faults, week_field_faults};
ghost use Rattle.feed_reader.specs.Faults.{IsFirstFault, field, row_at};
ghost use Rattle.feed_reader.specs.Ids.{number_of};
ghost use Rattle.feed_reader.specs.Numbered.{noted};
ghost use Rattle.feed_reader.specs.ServiceNotes.{all_noted};

use crate::cells::text_at;
use crate::fault::FeedFault;
use crate::ids::Ids;
use crate::refusals::{bad_field, double_id};
use crate::services::note_service;
use gtfs_rows::{Sheet, Week, date};
use jiff::civil::Date;
use std::alloc::Global;

/// The weeks of the rows of calendar.txt. Their services are noted.
///
/// # Refusals
///
/// The first fault of the rows, in their order: of each an empty service, a service that stood
/// before, a day that is neither 0 nor 1, a field that is no date. `NoMemory` may come in its
/// place.
pub(crate) fn read_weeks(
    alloc: Global,
    sheet: &Sheet,
    services: &mut Ids,
) -> Result<Vec<Week>, FeedFault>
    requires width { sheet.now.width ≡ 10 }
    requires new { services.old ≡ [] }
    ensures weeks { IfOk result
        (λ weeks. AllZip (IsWeekOf services.new) sheet.now.rows weeks.items) }
    ensures services { OnOk result
        (services.new ≡ all_noted services.old (map service_id sheet.now.rows)) }
    ensures faultless { OnOk result (calendar_faults sheet.now.rows ≡ []) }
    ensures refused { IfErr result (IsFirstFault (calendar_faults sheet.now.rows)) }
{
    let mut weeks = Vec::new(alloc);
    for row in 0..sheet.rows() {
        weeks.push(week_at(alloc, sheet, row, services)?)?;
    }
    Ok(weeks)
}

// The week of a row, whose service is noted behind those of the rows before it.
fn week_at(alloc: Global, sheet: &Sheet, row: u64, services: &mut Ids) -> Result<Week, FeedFault>
    requires row { row < length sheet.now.rows }
    requires width { sheet.now.width ≡ 10 }
    requires before { services.old ≡ map service_id (take row sheet.now.rows) }
    ensures week { IfOk result (IsWeekOf services.new (row_at sheet.now.rows row)) }
    ensures noted { OnOk result
        (services.new ≡ noted services.old (service_id (row_at sheet.now.rows row))) }
    ensures new { OnOk result
        (number_of services.old (service_id (row_at sheet.now.rows row)) ≡ None) }
    ensures faultless { OnOk result (week_faults sheet.now.rows row ≡ []) }
    ensures refused { IfErr result (IsFirstFault (week_faults sheet.now.rows row)) }
{
    let id = new_service(alloc, sheet, row, services)?;
    let (days, first, last) = days_and_dates(alloc, sheet, row)?;
    let service = note_service(services, id)?;
    Ok(Week {
        service,
        days,
        first,
        last,
    })
}

// The service of a row of calendar.txt, which is not empty and did not stand before.
fn new_service<'a>(
    alloc: Global,
    sheet: &'a Sheet,
    row: u64,
    services: &Ids,
) -> Result<&'a str, FeedFault>
    requires row { row < length sheet.now.rows }
    requires width { sheet.now.width ≡ 10 }
    requires before { services.now ≡ map service_id (take row sheet.now.rows) }
    ensures id { IfOk result (λ id. id.now ≡ service_id (row_at sheet.now.rows row)) }
    ensures new { OnOk result
        (number_of services.now (service_id (row_at sheet.now.rows row)) ≡ None) }
    ensures faultless { OnOk result (service_faults sheet.now.rows row ≡ []) }
    ensures refused { IfErr result (IsFirstFault (service_faults sheet.now.rows row)) }
{
    let _rows = sheet.rows();
    let id = text_at(sheet, row, 0);
    if id.is_empty() {
        return Err(bad_field(alloc, "calendar.txt", row, "service_id", id.as_bytes()));
    }
    if services.find(id).is_some() {
        return Err(double_id(alloc, "calendar.txt", row, "service_id", id));
    }
    Ok(id)
}

// The days of a row of calendar.txt, and its first and last date.
fn days_and_dates(alloc: Global, sheet: &Sheet, row: u64) -> Result<(u8, Date, Date), FeedFault>
    requires row { row < length sheet.now.rows }
    requires width { sheet.now.width ≡ 10 }
    ensures days { IfOk result (λ r. r.0 ≡ days_of (row_at sheet.now.rows row)) }
    ensures first { IfOk result
        (λ r. date_of (field (row_at sheet.now.rows row) 8) ≡ Some (ymd_of r.1)) }
    ensures last { IfOk result
        (λ r. date_of (field (row_at sheet.now.rows row) 9) ≡ Some (ymd_of r.2)) }
    ensures faultless { OnOk result (week_field_faults sheet.now.rows row ≡ []) }
    ensures refused { IfErr result (IsFirstFault (week_field_faults sheet.now.rows row)) }
{
    let days = days_at(alloc, sheet, row)?;
    let first = date_at(alloc, "calendar.txt", sheet, row, "start_date", 8)?;
    let last = date_at(alloc, "calendar.txt", sheet, row, "end_date", 9)?;
    Ok((days, first, last))
}

// The days that a row of calendar.txt sets.
fn days_at(alloc: Global, sheet: &Sheet, row: u64) -> Result<u8, FeedFault>
    requires row { row < length sheet.now.rows }
    requires width { sheet.now.width ≡ 10 }
    ensures days { IfOk result (λ days. days ≡ days_of (row_at sheet.now.rows row)) }
    ensures faultless { OnOk result
        (flat_map (day_faults row (row_at sheet.now.rows row)) (range_with_len 0 7) ≡ []) }
    ensures refused { IfErr result (IsFirstFault
        (flat_map (day_faults row (row_at sheet.now.rows row)) (range_with_len 0 7))) }
{
    let mut days = 0;
    for day in 0..7 {
        days += day_at(alloc, sheet, row, day)?;
    }
    Ok(days)
}

// What a day counts in a row of calendar.txt, 0 where it is not set.
fn day_at(alloc: Global, sheet: &Sheet, row: u64, day: usize) -> Result<u8, FeedFault>
    requires row { row < length sheet.now.rows }
    requires width { sheet.now.width ≡ 10 }
    requires day { day < 7 }
    ensures counts { IfOk result (λ counts. counts
        ≡ (if is_set (day_field (row_at sheet.now.rows row) day) then 2 ^ day else 0)) }
    ensures faultless { OnOk result (day_faults row (row_at sheet.now.rows row) day ≡ []) }
    ensures refused { IfErr result
        (IsFirstFault (day_faults row (row_at sheet.now.rows row) day)) }
{
    let _rows = sheet.rows();
    let text = text_at(sheet, row, 1 + day);
    if text == "1" {
        return Ok(1 << day);
    }
    if text == "0" {
        return Ok(0);
    }
    Err(bad_field(alloc, "calendar.txt", row, day_name(day), text.as_bytes()))
}

// The column of a day.
fn day_name(day: usize) -> &'static str
    requires day { day < 7 }
    ensures name { result.now ≡ slice_index_or day_names day [] }
{
    match day {
        0 => "monday",
        1 => "tuesday",
        2 => "wednesday",
        3 => "thursday",
        4 => "friday",
        5 => "saturday",
        _ => "sunday",
    }
}

/// The date of a row in a column.
pub(crate) fn date_at(
    alloc: Global,
    file: &str,
    sheet: &Sheet,
    row: u64,
    name: &str,
    column: usize,
) -> Result<Date, FeedFault>
    requires row { row < length sheet.now.rows }
    requires column { column < sheet.now.width }
    ensures date { IfOk result
        (λ date. date_of (field (row_at sheet.now.rows row) column) ≡ Some (ymd_of date)) }
    ensures faultless { OnOk result
        (date_faults file.now row name.now (field (row_at sheet.now.rows row) column) ≡ []) }
    ensures refused { IfErr result (IsFirstFault
        (date_faults file.now row name.now (field (row_at sheet.now.rows row) column))) }
{
    let _rows = sheet.rows();
    let field = sheet.field(row, column);
    match date(field) {
        Some(date) => Ok(date),
        None => Err(bad_field(alloc, file, row, name, field)),
    }
}
