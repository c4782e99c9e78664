//! The files of the calendars and of the trips.

ghost use Rattle.std.specs.Prelude.{◌≡◌, [], All, None, OnOk, IfOk, IfErr, length, map};
ghost use Rattle.std.specs.List.{AllZip, IsDistinct};
ghost use Rattle.std.specs.Str.{bytes_eq};
ghost use Rattle.feed_reader.specs.Calendars.{IsExceptionOf, IsWeekOf, calendar_dates_faults, calendar_faults, service_id};
ghost use Rattle.feed_reader.specs.Columns as columns;
ghost use Rattle.feed_reader.specs.Faults.{IsFirstFault};
ghost use Rattle.feed_reader.specs.Feed.{exception_rows, routes_in, services_in, trip_ids, trip_rows, week_rows};
ghost use Rattle.feed_reader.specs.FileFaults.{bytes_faults, of_exceptions, of_services, of_trips, of_weeks, rows_of_bytes};
ghost use Rattle.feed_reader.specs.ServiceNotes.{all_noted};
ghost use Rattle.feed_reader.specs.TripRows.{IsTripWithin};
ghost use Rattle.feed_reader.specs.Trips.{trip_id, trip_of, trip_service, trips_faults};

use crate::calendars::read_weeks;
use crate::columns::{calendar_columns, calendar_date_columns, trip_columns};
use crate::exceptions::read_exceptions;
use crate::fault::FeedFault;
use crate::files::Files;
use crate::ids::Ids;
use crate::sheets::{missing, read_sheet};
use crate::trips::{TripTable, read_trip_rows};
use gtfs_rows::{Exception, Week};
use std::alloc::Global;

/// The weeks and the exceptions of the services, each in file order.
#[derive(Drop)]
pub(crate) struct Calendar {
    pub weeks: Vec<Week>,
    pub exceptions: Vec<Exception>,
}

/// The services of a feed, their calendar, and the trips of all rows of trips.txt.
#[derive(Drop)]
pub(crate) struct Services {
    pub ids: Ids,
    pub calendar: Calendar,
    pub table: TripTable,
}

/// The services of the calendars and of trips.txt, or the first fault of these three files.
pub(crate) fn read_services(
    alloc: Global,
    files: &Files,
    routes: &Ids,
) -> Result<Services, FeedFault>
    requires routes { routes.now ≡ routes_in files.now }
    ensures services { IfOk result (λ found. found.ids ≡ services_in files.now) }
    ensures weeks { IfOk result
        (λ found. AllZip (IsWeekOf (services_in files.now))
        (week_rows files.now) found.calendar.weeks.items) }
    ensures exceptions { IfOk result (λ found. AllZip (IsExceptionOf (services_in files.now))
        (exception_rows files.now) found.calendar.exceptions.items) }
    ensures ids { IfOk result (λ found. found.table.ids ≡ trip_ids files.now) }
    ensures distinct { IfOk result (λ found. IsDistinct bytes_eq found.table.ids) }
    ensures trips { IfOk result (λ found. found.table.trips.items
        ≡ map (trip_of (routes_in files.now) (services_in files.now)) (trip_rows files.now)) }
    ensures numbers { IfOk result
        (λ found. All (IsTripWithin (length (routes_in files.now)) (length (services_in files.now)))
        found.table.trips.items) }
    ensures faultless { OnOk result (of_services files.now ≡ []) }
    ensures refused { IfErr result (IsFirstFault (of_services files.now)) }
{
    let mut ids = Ids::new(alloc);
    let weeks = read_week_file(alloc, files, &mut ids)?;
    let exceptions = read_exception_file(alloc, files, &mut ids)?;
    let table = read_trip_file(alloc, files, routes, &mut ids)?;
    Ok(Services {
        ids,
        calendar: Calendar { weeks, exceptions },
        table,
    })
}

// The weeks of calendar.txt, or the first fault of the file.
fn read_week_file(alloc: Global, files: &Files, services: &mut Ids) -> Result<Vec<Week>, FeedFault>
    requires new { services.old ≡ [] }
    ensures weeks { IfOk result
        (λ weeks. AllZip (IsWeekOf services.new) (week_rows files.now) weeks.items) }
    ensures services { OnOk result
        (services.new ≡ all_noted services.old (map service_id (week_rows files.now))) }
    ensures faultless { OnOk result (of_weeks files.now ≡ []) }
    ensures refused { IfErr result (IsFirstFault (of_weeks files.now)) }
{
    match files.calendar() {
        Some(bytes) => read_week_bytes(alloc, bytes, services),
        None => no_weeks(alloc, files),
    }
}

// No weeks, or the fault that neither calendar is there.
fn no_weeks(alloc: Global, files: &Files) -> Result<Vec<Week>, FeedFault>
    requires none { files.now.calendar ≡ None }
    ensures weeks { IfOk result (λ weeks. weeks.items ≡ []) }
    ensures faultless { OnOk result (of_weeks files.now ≡ []) }
    ensures refused { IfErr result (IsFirstFault (of_weeks files.now)) }
{
    match files.calendar_dates() {
        Some(_) => Ok(Vec::new(alloc)),
        None => Err(missing(alloc, "calendar.txt")),
    }
}

// The weeks of the bytes of calendar.txt.
fn read_week_bytes(alloc: Global, bytes: &[u8], services: &mut Ids) -> Result<Vec<Week>, FeedFault>
    requires new { services.old ≡ [] }
    ensures weeks { IfOk result (λ weeks. AllZip (IsWeekOf services.new)
        (rows_of_bytes bytes.now columns.calendar_columns) weeks.items) }
    ensures services { OnOk result (services.new ≡ all_noted services.old
        (map service_id (rows_of_bytes bytes.now columns.calendar_columns))) }
    ensures faultless { OnOk result (
        bytes_faults columns.calendar_file bytes.now columns.calendar_columns
        (calendar_faults (rows_of_bytes bytes.now columns.calendar_columns)) ≡ []) }
    ensures refused { IfErr result (IsFirstFault
        (bytes_faults columns.calendar_file bytes.now columns.calendar_columns
        (calendar_faults (rows_of_bytes bytes.now columns.calendar_columns)))) }
{
    let wanted = calendar_columns(alloc)?;
    let sheet = read_sheet(alloc, "calendar.txt", bytes, &wanted)?;
    read_weeks(alloc, &sheet, services)
}

// The exceptions of calendar_dates.txt, or the first fault of the file.
fn read_exception_file(
    alloc: Global,
    files: &Files,
    services: &mut Ids,
) -> Result<Vec<Exception>, FeedFault>
    ensures exceptions { IfOk result (λ exceptions. AllZip (IsExceptionOf services.new)
        (exception_rows files.now) exceptions.items) }
    ensures services { OnOk result
        (services.new ≡ all_noted services.old (map service_id (exception_rows files.now))) }
    ensures faultless { OnOk result (of_exceptions files.now ≡ []) }
    ensures refused { IfErr result (IsFirstFault (of_exceptions files.now)) }
{
    match files.calendar_dates() {
        Some(bytes) => read_exception_bytes(alloc, bytes, services),
        None => Ok(Vec::new(alloc)),
    }
}

// The exceptions of the bytes of calendar_dates.txt.
fn read_exception_bytes(
    alloc: Global,
    bytes: &[u8],
    services: &mut Ids,
) -> Result<Vec<Exception>, FeedFault>
    ensures exceptions { IfOk result (λ exceptions. AllZip (IsExceptionOf services.new)
        (rows_of_bytes bytes.now columns.calendar_date_columns) exceptions.items) }
    ensures services { OnOk result (services.new ≡ all_noted services.old
        (map service_id (rows_of_bytes bytes.now columns.calendar_date_columns))) }
    ensures faultless { OnOk result (
        bytes_faults columns.calendar_dates_file bytes.now columns.calendar_date_columns
        (calendar_dates_faults (rows_of_bytes bytes.now columns.calendar_date_columns)) ≡ []) }
    ensures refused { IfErr result (IsFirstFault
        (bytes_faults columns.calendar_dates_file bytes.now columns.calendar_date_columns
        (calendar_dates_faults (rows_of_bytes bytes.now columns.calendar_date_columns)))) }
{
    let wanted = calendar_date_columns(alloc)?;
    let sheet = read_sheet(alloc, "calendar_dates.txt", bytes, &wanted)?;
    read_exceptions(alloc, &sheet, services)
}

// The trips of all rows of trips.txt, or the first fault of the file.
fn read_trip_file(
    alloc: Global,
    files: &Files,
    routes: &Ids,
    services: &mut Ids,
) -> Result<TripTable, FeedFault>
    requires routes { routes.now ≡ routes_in files.now }
    ensures ids { IfOk result (λ table. table.ids ≡ trip_ids files.now) }
    ensures distinct { IfOk result (λ table. IsDistinct bytes_eq table.ids) }
    ensures trips { IfOk result (λ table. table.trips.items
        ≡ map (trip_of routes.now services.new) (trip_rows files.now)) }
    ensures numbers { IfOk result (λ table.
        All (IsTripWithin (length routes.now) (length services.new)) table.trips.items) }
    ensures services { OnOk result
        (services.new ≡ all_noted services.old (map trip_service (trip_rows files.now))) }
    ensures faultless { OnOk result (of_trips files.now ≡ []) }
    ensures refused { IfErr result (IsFirstFault (of_trips files.now)) }
{
    match files.trips() {
        Some(bytes) => read_trip_bytes(alloc, bytes, routes, services),
        None => Err(missing(alloc, "trips.txt")),
    }
}

// The trips of the bytes of trips.txt.
fn read_trip_bytes(
    alloc: Global,
    bytes: &[u8],
    routes: &Ids,
    services: &mut Ids,
) -> Result<TripTable, FeedFault>
    ensures ids { IfOk result
        (λ table. table.ids ≡ map trip_id (rows_of_bytes bytes.now columns.trip_columns)) }
    ensures distinct { IfOk result (λ table. IsDistinct bytes_eq table.ids) }
    ensures trips { IfOk result (λ table. table.trips.items
        ≡ map (trip_of routes.now services.new) (rows_of_bytes bytes.now columns.trip_columns)) }
    ensures numbers { IfOk result (λ table.
        All (IsTripWithin (length routes.now) (length services.new)) table.trips.items) }
    ensures services { OnOk result (services.new ≡ all_noted services.old
        (map trip_service (rows_of_bytes bytes.now columns.trip_columns))) }
    ensures faultless { OnOk result (
        bytes_faults columns.trips_file bytes.now columns.trip_columns
        (trips_faults routes.now (rows_of_bytes bytes.now columns.trip_columns)) ≡ []) }
    ensures refused { IfErr result (IsFirstFault
        (bytes_faults columns.trips_file bytes.now columns.trip_columns
        (trips_faults routes.now (rows_of_bytes bytes.now columns.trip_columns)))) }
{
    let wanted = trip_columns(alloc)?;
    let sheet = read_sheet(alloc, "trips.txt", bytes, &wanted)?;
    read_trip_rows(alloc, &sheet, routes, services)
}
