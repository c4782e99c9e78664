//! The calls of the trips from the bytes of stop_times.txt.

ghost use Rattle.std.specs.Prelude.{◌≡◌, ◌<◌, ◌++◌, ◌∷◌, [], All, OnOk, IfOk, IfErr, map};
ghost use Rattle.std.specs.List.{IsDistinct};
ghost use Rattle.std.specs.Str.{bytes_eq};
ghost use Rattle.gtfs_rows.specs.Faults.{sheet_faults};
ghost use Rattle.gtfs_rows.specs.Sheets.{sheet_of};
ghost use Rattle.feed_reader.specs.CallFaults.{shown_fault};
ghost use Rattle.feed_reader.specs.CallFiles.{call_file_faults, is_kept_id, kept_lists, rows_in};
ghost use Rattle.feed_reader.specs.CallRows.{trip_call_rows};
ghost use Rattle.feed_reader.specs.Columns.{stop_time_columns, stop_times_file};
ghost use Rattle.feed_reader.specs.Faults.{IsFirstFault, field, place_in, row_at};
ghost use Rattle.feed_reader.specs.StopTimes.{calls_faults};
ghost use Rattle.feed_reader.specs.Stops.{stop_id, stop_ids};
ghost use Rattle.feed_reader.specs.TimesRise.{TimesRise};
ghost use Rattle.feed_reader.specs.Calls.{arrival_fall, departure_fall, double_sequence};
ghost use Rattle.feed_reader.specs.declared.fault.FeedFault.TheVariants as fault;

use crate::call_fault::CallFault;
use crate::call_rows::CallRows;
use crate::cells::{place_in, text_at};
use crate::columns::stop_time_columns;
use crate::fault::FeedFault;
use crate::ids::Ids;
use crate::refusals::double_id;
use crate::sheets::read_sheet;
use crate::stop_times::read_rows;
use crate::stops::StopTable;
use crate::trip_calls::{TripCalls, read_trips};
use gtfs_rows::Sheet;
use std::alloc::Global;

/// The calls of these trips from the bytes of stop_times.txt. Its rows are let go before they are
/// put in order.
///
/// # Refusals
///
/// The first fault of the sheet, of its rows in their order, and of the trips in turn. `NoMemory` may
/// come in its place.
pub(crate) fn read_call_bytes(
    alloc: Global,
    bytes: &[u8],
    stops: &StopTable,
    trips: &Ids,
) -> Result<TripCalls, FeedFault>
    requires distinct { IsDistinct bytes_eq trips.now }
    ensures kept { IfOk result
        (λ found. found.kept.items ≡ map (is_kept_id stops.now (rows_in bytes.now)) trips.now) }
    ensures lists { IfOk result
        (λ found. found.lists ≡ kept_lists stops.now (rows_in bytes.now) trips.now) }
    ensures rising { IfOk result (λ found. All TimesRise found.lists) }
    ensures faultless { OnOk result
        (map fault.Row (sheet_faults stop_times_file bytes.now stop_time_columns)
        ++ call_file_faults stops.now trips.now (rows_in bytes.now) ≡ []) }
    ensures refused { IfErr result (IsFirstFault
        (map fault.Row (sheet_faults stop_times_file bytes.now stop_time_columns)
        ++ call_file_faults stops.now trips.now (rows_in bytes.now))) }
{
    let rows = read_row_bytes(alloc, bytes, stops, trips)?;
    match read_trips(alloc, trips.len(), rows) {
        Ok(found) => Ok(found),
        Err(found) => Err(placed_in(alloc, bytes, found)),
    }
}

// The rows as calls, in file order.
fn read_row_bytes(
    alloc: Global,
    bytes: &[u8],
    stops: &StopTable,
    trips: &Ids,
) -> Result<CallRows, FeedFault>
    ensures calls { IfOk result (λ calls. calls
        ≡ trip_call_rows trips.now (stop_ids stops.now) (rows_in bytes.now)) }
    ensures faultless { OnOk result
        (map fault.Row (sheet_faults stop_times_file bytes.now stop_time_columns) ≡ []) }
    ensures rows { OnOk result
        (calls_faults trips.now (map stop_id stops.now) (rows_in bytes.now) ≡ []) }
    ensures refused { IfErr result (IsFirstFault
        (map fault.Row (sheet_faults stop_times_file bytes.now stop_time_columns)
        ++ calls_faults trips.now (map stop_id stops.now) (rows_in bytes.now))) }
{
    let sheet = sheet_in(alloc, bytes)?;
    let calls = read_rows(alloc, &sheet, stops, trips)?;
    Ok(calls)
}

// The sheet of the bytes.
fn sheet_in(alloc: Global, bytes: &[u8]) -> Result<Sheet, FeedFault>
    ensures sheet { IfOk result (λ sheet. sheet ≡ sheet_of bytes.now stop_time_columns) }
    ensures faultless { OnOk result
        (map fault.Row (sheet_faults stop_times_file bytes.now stop_time_columns) ≡ []) }
    ensures refused { IfErr result (IsFirstFault
        (map fault.Row (sheet_faults stop_times_file bytes.now stop_time_columns))) }
{
    let wanted = stop_time_columns(alloc)?;
    read_sheet(alloc, "stop_times.txt", bytes, &wanted)
}

// A fault of calls at its place, for which the bytes are read once more.
fn placed_in(alloc: Global, bytes: &[u8], found: CallFault) -> FeedFault
    ensures value { IsFirstFault (shown_fault (rows_in bytes.now) found ∷ []) result }
{
    match sheet_in(alloc, bytes) {
        Ok(sheet) => placed(alloc, &sheet, found),
        Err(_) => FeedFault::NoMemory,
    }
}

// A fault of calls at its place.
fn placed(alloc: Global, sheet: &Sheet, found: CallFault) -> FeedFault
    requires width { sheet.now.width ≡ 7 }
    ensures value { IsFirstFault (shown_fault sheet.now.rows found ∷ []) result }
{
    match found {
        CallFault::Double(row) => {
            let sequence = text_in(sheet, row, 4);
            double_id(
                alloc,
                "stop_times.txt",
                row as u64,
                "stop_sequence",
                sequence,
            )
        }
        CallFault::ArrivalFalls(row) => arrival_fall(alloc, sheet, row),
        CallFault::DepartureFalls(row) => departure_fall(alloc, sheet, row),
        CallFault::NoMemory => FeedFault::NoMemory,
    }
}

// The fault of an arrival that falls. Where its field is empty its time is that of the departure.
fn arrival_fall(alloc: Global, sheet: &Sheet, row: u32) -> FeedFault
    requires width { sheet.now.width ≡ 7 }
    ensures value { IsFirstFault (arrival_fall sheet.now.rows row ∷ []) result }
{
    let arrival = text_in(sheet, row, 1);
    if arrival.is_empty() {
        return departure_fall(alloc, sheet, row);
    }
    times_fall(alloc, row, "arrival_time", arrival)
}

// The fault of a departure that falls.
fn departure_fall(alloc: Global, sheet: &Sheet, row: u32) -> FeedFault
    requires width { sheet.now.width ≡ 7 }
    ensures value { IsFirstFault (departure_fall sheet.now.rows row ∷ []) result }
{
    times_fall(alloc, row, "departure_time", text_in(sheet, row, 2))
}

// The fault of a time that falls.
fn times_fall(alloc: Global, row: u32, column: &str, time: &str) -> FeedFault
    ensures value { IsFirstFault
        (fault.TimesFall (place_in stop_times_file row column.now time.now) ∷ []) result }
{
    match place_in(alloc, "stop_times.txt", row as u64, column, time.as_bytes()) {
        Ok(place) => FeedFault::TimesFall(place),
        Err(_) => FeedFault::NoMemory,
    }
}

// The text of a field, empty where there is no such row.
fn text_in(sheet: &Sheet, row: u32, column: usize) -> &str
    requires column { column < sheet.now.width }
    ensures value { result.now ≡ field (row_at sheet.now.rows row) column }
{
    if (row as u64) < sheet.rows() {
        text_at(sheet, row as u64, column)
    } else {
        ""
    }
}
