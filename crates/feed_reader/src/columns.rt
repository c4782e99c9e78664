//! The columns that are wanted of each file.

ghost use Rattle.std.specs.Prelude.{◌≡◌, IfOk};
ghost use Rattle.feed_reader.specs.Columns as columns;

use gtfs_rows::{NoMemory, Wanted};
use std::alloc::Global;

/// The columns of stops.txt.
pub(crate) fn stop_columns(alloc: Global) -> Result<Wanted, NoMemory>
    ensures value { IfOk result (λ wanted. wanted ≡ columns.stop_columns) }
{
    let mut wanted = Wanted::new(alloc);
    wanted.add("stop_id", true)?;
    wanted.add("location_type", false)?;
    wanted.add("parent_station", false)?;
    Ok(wanted)
}

/// The columns of routes.txt.
pub(crate) fn route_columns(alloc: Global) -> Result<Wanted, NoMemory>
    ensures value { IfOk result (λ wanted. wanted ≡ columns.route_columns) }
{
    let mut wanted = Wanted::new(alloc);
    wanted.add("route_id", true)?;
    Ok(wanted)
}

/// The columns of calendar.txt.
pub(crate) fn calendar_columns(alloc: Global) -> Result<Wanted, NoMemory>
    ensures value { IfOk result (λ wanted. wanted ≡ columns.calendar_columns) }
{
    let mut wanted = Wanted::new(alloc);
    wanted.add("service_id", true)?;
    wanted.add("monday", true)?;
    wanted.add("tuesday", true)?;
    wanted.add("wednesday", true)?;
    wanted.add("thursday", true)?;
    wanted.add("friday", true)?;
    wanted.add("saturday", true)?;
    wanted.add("sunday", true)?;
    wanted.add("start_date", true)?;
    wanted.add("end_date", true)?;
    Ok(wanted)
}

/// The columns of calendar_dates.txt.
pub(crate) fn calendar_date_columns(alloc: Global) -> Result<Wanted, NoMemory>
    ensures value { IfOk result (λ wanted. wanted ≡ columns.calendar_date_columns) }
{
    let mut wanted = Wanted::new(alloc);
    wanted.add("service_id", true)?;
    wanted.add("date", true)?;
    wanted.add("exception_type", true)?;
    Ok(wanted)
}

/// The columns of trips.txt.
pub(crate) fn trip_columns(alloc: Global) -> Result<Wanted, NoMemory>
    ensures value { IfOk result (λ wanted. wanted ≡ columns.trip_columns) }
{
    let mut wanted = Wanted::new(alloc);
    wanted.add("route_id", true)?;
    wanted.add("service_id", true)?;
    wanted.add("trip_id", true)?;
    Ok(wanted)
}

/// The columns of stop_times.txt.
pub(crate) fn stop_time_columns(alloc: Global) -> Result<Wanted, NoMemory>
    ensures value { IfOk result (λ wanted. wanted ≡ columns.stop_time_columns) }
{
    let mut wanted = Wanted::new(alloc);
    wanted.add("trip_id", true)?;
    wanted.add("arrival_time", true)?;
    wanted.add("departure_time", true)?;
    wanted.add("stop_id", true)?;
    wanted.add("stop_sequence", true)?;
    wanted.add("pickup_type", false)?;
    wanted.add("drop_off_type", false)?;
    Ok(wanted)
}

/// The columns of frequencies.txt.
pub(crate) fn frequency_columns(alloc: Global) -> Result<Wanted, NoMemory>
    ensures value { IfOk result (λ wanted. wanted ≡ columns.frequency_columns) }
{
    let mut wanted = Wanted::new(alloc);
    wanted.add("trip_id", true)?;
    wanted.add("start_time", true)?;
    wanted.add("end_time", true)?;
    wanted.add("headway_secs", true)?;
    wanted.add("exact_times", false)?;
    Ok(wanted)
}

/// The columns of transfers.txt.
pub(crate) fn transfer_columns(alloc: Global) -> Result<Wanted, NoMemory>
    ensures value { IfOk result (λ wanted. wanted ≡ columns.transfer_columns) }
{
    let mut wanted = Wanted::new(alloc);
    wanted.add("from_stop_id", true)?;
    wanted.add("to_stop_id", true)?;
    wanted.add("transfer_type", false)?;
    wanted.add("min_transfer_time", false)?;
    wanted.add("from_route_id", false)?;
    wanted.add("to_route_id", false)?;
    wanted.add("from_trip_id", false)?;
    wanted.add("to_trip_id", false)?;
    Ok(wanted)
}
