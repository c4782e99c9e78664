//! The exceptions of calendar_dates.txt.

ghost use Rattle.std.specs.Prelude.{◌≡◌, ◌<◌, [], OnOk, IfOk, IfErr, length, map};
ghost use Rattle.std.specs.List.{AllZip};
ghost use Rattle.feed_reader.specs.Calendars.{IsExceptionOf, adds, calendar_dates_faults, exception_faults, service_id};
ghost use Rattle.feed_reader.specs.CalendarParts.{exception_type_faults};
ghost use Rattle.feed_reader.specs.Faults.{IsFirstFault, field, row_at};
ghost use Rattle.feed_reader.specs.Numbered.{noted};
ghost use Rattle.feed_reader.specs.ServiceNotes.{all_noted};

use crate::calendars::date_at;
use crate::cells::text_at;
use crate::fault::FeedFault;
use crate::ids::Ids;
use crate::refusals::bad_field;
use crate::services::note_service;
use gtfs_rows::{Exception, Sheet};
use std::alloc::Global;

/// The exceptions of the rows of calendar_dates.txt. Their services are noted.
///
/// # Refusals
///
/// The first fault of the rows, in their order: of each an empty service, a field that is no date,
/// a type that is neither 1 nor 2. `NoMemory` may come in its place.
pub(crate) fn read_exceptions(
    alloc: Global,
    sheet: &Sheet,
    services: &mut Ids,
) -> Result<Vec<Exception>, FeedFault>
    requires width { sheet.now.width ≡ 3 }
    ensures exceptions { IfOk result
        (λ exceptions. AllZip (IsExceptionOf services.new) sheet.now.rows exceptions.items) }
    ensures services { OnOk result
        (services.new ≡ all_noted services.old (map service_id sheet.now.rows)) }
    ensures faultless { OnOk result (calendar_dates_faults sheet.now.rows ≡ []) }
    ensures refused { IfErr result (IsFirstFault (calendar_dates_faults sheet.now.rows)) }
{
    let mut exceptions = Vec::new(alloc);
    for row in 0..sheet.rows() {
        exceptions.push(exception_at(alloc, sheet, row, services)?)?;
    }
    Ok(exceptions)
}

// The exception of a row, whose service is noted.
fn exception_at(
    alloc: Global,
    sheet: &Sheet,
    row: u64,
    services: &mut Ids,
) -> Result<Exception, FeedFault>
    requires row { row < length sheet.now.rows }
    requires width { sheet.now.width ≡ 3 }
    ensures exception { IfOk result (IsExceptionOf services.new (row_at sheet.now.rows row)) }
    ensures noted { OnOk result
        (services.new ≡ noted services.old (service_id (row_at sheet.now.rows row))) }
    ensures faultless { OnOk result (exception_faults sheet.now.rows row ≡ []) }
    ensures refused { IfErr result (IsFirstFault (exception_faults sheet.now.rows row)) }
{
    let _rows = sheet.rows();
    let id = text_at(sheet, row, 0);
    if id.is_empty() {
        let empty = id.as_bytes();
        return Err(bad_field(alloc, "calendar_dates.txt", row, "service_id", empty));
    }
    let date = date_at(alloc, "calendar_dates.txt", sheet, row, "date", 1)?;
    let adds = adds_at(alloc, sheet, row)?;
    let service = note_service(services, id)?;
    Ok(Exception {
        service,
        date,
        adds,
    })
}

// Whether a row of calendar_dates.txt adds its date. Where it does not, it removes it.
fn adds_at(alloc: Global, sheet: &Sheet, row: u64) -> Result<bool, FeedFault>
    requires row { row < length sheet.now.rows }
    requires width { sheet.now.width ≡ 3 }
    ensures adds { IfOk result (λ is. is ≡ adds (field (row_at sheet.now.rows row) 2)) }
    ensures faultless { OnOk result (exception_type_faults sheet.now.rows row ≡ []) }
    ensures refused { IfErr result (IsFirstFault (exception_type_faults sheet.now.rows row)) }
{
    let _rows = sheet.rows();
    let text = text_at(sheet, row, 2);
    if text == "1" {
        return Ok(true);
    }
    if text == "2" {
        return Ok(false);
    }
    let field = text.as_bytes();
    Err(bad_field(alloc, "calendar_dates.txt", row, "exception_type", field))
}
