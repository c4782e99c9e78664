//! The rows of stop_times.txt as calls of their trips, in file order.

ghost use Rattle.std.specs.Prelude.{◌≡◌, ◌<◌, ◌+◌, ◌^◌, [], Some, OnOk, IfOk, IfErr, length, map};
ghost use Rattle.gtfs_rows.specs.Fields.{clock_of, whole_of};
ghost use Rattle.feed_reader.specs.CallRows.{kinds_faults, own_faults, sequence_faults, stop_id_faults, times_faults, trip_call, trip_call_rows, trip_id_faults};
ghost use Rattle.feed_reader.specs.Faults.{IsFirstFault, row_at};
ghost use Rattle.feed_reader.specs.Ids.{number_of};
ghost use Rattle.feed_reader.specs.StopTimes.{arrival_field, call_faults, call_trip, calls_faults, departure_field, drop_field, is_available, kind_faults, pickup_field, row_call, time_faults};
ghost use Rattle.feed_reader.specs.Stops.{stop_id, stop_ids};

use crate::call_rows::CallRows;
use crate::cells::{text_at, whole_or};
use crate::fault::FeedFault;
use crate::ids::Ids;
use crate::order::TripCall;
use crate::refusals::{bad_field, unknown_id};
use crate::row_call::RowCall;
use crate::stops::StopTable;
use gtfs_rows::{Sheet, clock, whole};
use std::alloc::Global;

/// The rows as calls, in file order, each with the number of its trip among these.
///
/// # Refusals
///
/// The first fault of the rows, in their order: of each an unknown trip, a time that is none, a stop
/// that is not empty and not known, a sequence that is no number, and the same of pickup and
/// drop-off. `NoMemory` may come in its place.
pub(crate) fn read_rows(
    alloc: Global,
    sheet: &Sheet,
    stops: &StopTable,
    trips: &Ids,
) -> Result<CallRows, FeedFault>
    requires width { sheet.now.width ≡ 7 }
    ensures calls { IfOk result
        (λ calls. calls ≡ trip_call_rows trips.now (stop_ids stops.now) sheet.now.rows) }
    ensures faultless { OnOk result
        (calls_faults trips.now (map stop_id stops.now) sheet.now.rows ≡ []) }
    ensures refused { IfErr result
        (IsFirstFault (calls_faults trips.now (map stop_id stops.now) sheet.now.rows)) }
{
    let count = sheet.rows();
    if count > 4_294_967_295 {
        return Err(FeedFault::NoMemory);
    }
    let mut calls = CallRows::with_capacity(alloc, count as usize)?;
    let mut last = "";
    let mut number = trips.find(last);
    for row in 0..count {
        let call = trip_call_at(alloc, sheet, row, stops, trips, last, number)?;
        calls.push(call)?;
        last = text_at(sheet, row, 0);
        number = Some(call.trip);
    }
    Ok(calls)
}

// A row as a call of its trip, where `number` is that of the trip of this id.
fn trip_call_at(
    alloc: Global,
    sheet: &Sheet,
    row: u64,
    stops: &StopTable,
    trips: &Ids,
    last: &str,
    number: Option<u32>,
) -> Result<TripCall, FeedFault>
    requires row { row < length sheet.now.rows }
    requires width { sheet.now.width ≡ 7 }
    requires few { row < 2 ^ 32 }
    requires last { number ≡ number_of trips.now last.now }
    ensures call { IfOk result (λ call. call
        ≡ trip_call trips.now (stop_ids stops.now) (row, row_at sheet.now.rows row)) }
    ensures trip { IfOk result
        (λ call. number_of trips.now (call_trip (row_at sheet.now.rows row)) ≡ Some call.trip) }
    ensures faultless { OnOk result
        (call_faults trips.now (map stop_id stops.now) sheet.now.rows row ≡ []) }
    ensures refused { IfErr result
        (IsFirstFault (call_faults trips.now (map stop_id stops.now) sheet.now.rows row)) }
{
    let _rows = sheet.rows();
    let trip = trip_of(alloc, row, text_at(sheet, row, 0), trips, last, number)?;
    let call = call_at(alloc, sheet, row, stops)?;
    Ok(TripCall { trip, call })
}

// The number of the trip of a row. Where it is that of the row before, it is not looked up.
fn trip_of(
    alloc: Global,
    row: u64,
    id: &str,
    trips: &Ids,
    last: &str,
    number: Option<u32>,
) -> Result<u32, FeedFault>
    requires row { row + 2 < 2 ^ 64 }
    requires last { number ≡ number_of trips.now last.now }
    ensures trip { IfOk result (λ trip. number_of trips.now id.now ≡ Some trip) }
    ensures faultless { OnOk result (trip_id_faults trips.now row id.now ≡ []) }
    ensures refused { IfErr result (IsFirstFault (trip_id_faults trips.now row id.now)) }
{
    match number_after(id, trips, last, number) {
        Some(trip) => Ok(trip),
        None => Err(unknown_id(alloc, "stop_times.txt", row, "trip_id", id)),
    }
}

// The number of an id among these, where that of the last one is known.
fn number_after(id: &str, ids: &Ids, last: &str, number: Option<u32>) -> Option<u32>
    requires last { number ≡ number_of ids.now last.now }
    ensures value { result ≡ number_of ids.now id.now }
{
    if id == last { number } else { ids.find(id) }
}

// A row as a call.
fn call_at(alloc: Global, sheet: &Sheet, row: u64, stops: &StopTable) -> Result<RowCall, FeedFault>
    requires row { row < length sheet.now.rows }
    requires width { sheet.now.width ≡ 7 }
    requires few { row < 2 ^ 32 }
    ensures call { IfOk result
        (λ call. call ≡ row_call (stop_ids stops.now) (row, row_at sheet.now.rows row)) }
    ensures faultless { OnOk result
        (own_faults (map stop_id stops.now) row (row_at sheet.now.rows row) ≡ []) }
    ensures refused { IfErr result
        (IsFirstFault (own_faults (map stop_id stops.now) row (row_at sheet.now.rows row))) }
{
    let (arrival, departure) = times_at(alloc, sheet, row)?;
    let stop = stop_of(alloc, row, text_at(sheet, row, 3), stops)?;
    let sequence = sequence_of(alloc, row, sheet.field(row, 4))?;
    let (pickup, drop) = kinds_at(alloc, sheet, row)?;
    Ok(RowCall {
        row: row as u32,
        sequence,
        stop,
        arrival,
        departure,
        pickup,
        drop,
    })
}

// The arrival and the departure of a row.
fn times_at(alloc: Global, sheet: &Sheet, row: u64) -> Result<(Option<u32>, Option<u32>), FeedFault>
    requires row { row < length sheet.now.rows }
    requires width { sheet.now.width ≡ 7 }
    ensures arrival { IfOk result
        (λ times. times.0 ≡ clock_of (arrival_field (row_at sheet.now.rows row))) }
    ensures departure { IfOk result
        (λ times. times.1 ≡ clock_of (departure_field (row_at sheet.now.rows row))) }
    ensures faultless { OnOk result (times_faults row (row_at sheet.now.rows row) ≡ []) }
    ensures refused { IfErr result (IsFirstFault (times_faults row (row_at sheet.now.rows row))) }
{
    let _rows = sheet.rows();
    let arrival = time_of(alloc, row, "arrival_time", sheet.field(row, 1))?;
    let departure = time_of(alloc, row, "departure_time", sheet.field(row, 2))?;
    Ok((arrival, departure))
}

// The time that a field writes, None where it is empty.
fn time_of(alloc: Global, row: u64, column: &str, field: &[u8]) -> Result<Option<u32>, FeedFault>
    requires row { row + 2 < 2 ^ 64 }
    ensures time { IfOk result (λ time. time ≡ clock_of field.now) }
    ensures faultless { OnOk result (time_faults row column.now field.now ≡ []) }
    ensures refused { IfErr result (IsFirstFault (time_faults row column.now field.now)) }
{
    let time = clock(field);
    if !field.is_empty() && time.is_none() {
        return Err(bad_field(alloc, "stop_times.txt", row, column, field));
    }
    Ok(time)
}

// The number of the stop of a row, None where the id is empty or that of no stop.
fn stop_of(alloc: Global, row: u64, id: &str, stops: &StopTable) -> Result<Option<u32>, FeedFault>
    requires row { row + 2 < 2 ^ 64 }
    ensures stop { IfOk result (λ stop. stop ≡ number_of (stop_ids stops.now) id.now) }
    ensures faultless { OnOk result (stop_id_faults (map stop_id stops.now) row id.now ≡ []) }
    ensures refused { IfErr result
        (IsFirstFault (stop_id_faults (map stop_id stops.now) row id.now)) }
{
    // Each stop stands in stops.txt, so one look-up is enough for most rows.
    let stop = stops.stop(id);
    if stop.is_some() || id.is_empty() || stops.is_known(id) {
        return Ok(stop);
    }
    Err(unknown_id(alloc, "stop_times.txt", row, "stop_id", id))
}

// The sequence of a row.
fn sequence_of(alloc: Global, row: u64, field: &[u8]) -> Result<u64, FeedFault>
    requires row { row + 2 < 2 ^ 64 }
    ensures sequence { IfOk result (λ sequence. whole_of field.now ≡ Some sequence) }
    ensures faultless { OnOk result (sequence_faults row field.now ≡ []) }
    ensures refused { IfErr result (IsFirstFault (sequence_faults row field.now)) }
{
    match whole(field) {
        Some(sequence) => Ok(sequence),
        None => Err(bad_field(alloc, "stop_times.txt", row, "stop_sequence", field)),
    }
}

// Whether passengers may board at a row, and alight there.
fn kinds_at(alloc: Global, sheet: &Sheet, row: u64) -> Result<(bool, bool), FeedFault>
    requires row { row < length sheet.now.rows }
    requires width { sheet.now.width ≡ 7 }
    ensures pickup { IfOk result
        (λ kinds. kinds.0 ≡ is_available (pickup_field (row_at sheet.now.rows row))) }
    ensures drop { IfOk result
        (λ kinds. kinds.1 ≡ is_available (drop_field (row_at sheet.now.rows row))) }
    ensures faultless { OnOk result (kinds_faults row (row_at sheet.now.rows row) ≡ []) }
    ensures refused { IfErr result (IsFirstFault (kinds_faults row (row_at sheet.now.rows row))) }
{
    let _rows = sheet.rows();
    let pickup = kind_of(alloc, row, "pickup_type", sheet.field(row, 5))?;
    let drop = kind_of(alloc, row, "drop_off_type", sheet.field(row, 6))?;
    Ok((pickup, drop))
}

// Whether a kind of pickup or drop-off says that there is one.
fn kind_of(alloc: Global, row: u64, column: &str, field: &[u8]) -> Result<bool, FeedFault>
    requires row { row + 2 < 2 ^ 64 }
    ensures kind { IfOk result (λ there. there ≡ is_available field.now) }
    ensures faultless { OnOk result (kind_faults row column.now field.now ≡ []) }
    ensures refused { IfErr result (IsFirstFault (kind_faults row column.now field.now)) }
{
    match whole_or(0, field) {
        Some(kind) => Ok(kind != 1),
        None => Err(bad_field(alloc, "stop_times.txt", row, column, field)),
    }
}
