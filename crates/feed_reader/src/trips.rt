//! The trips of trips.txt.

ghost use Rattle.std.specs.Prelude.{◌≡◌, ◌<◌, ◌++◌, ◌∷◌, [], All, Some, None, OnOk, IfOk, IfErr, length, map, take, if◌then◌else◌};
ghost use Rattle.std.specs.List.{IsDistinct};
ghost use Rattle.std.specs.Str.{bytes_eq};
ghost use Rattle.feed_reader.specs.Faults.{IsFirstFault, row_at};
ghost use Rattle.feed_reader.specs.Ids.{number_of};
ghost use Rattle.feed_reader.specs.Kept.{kept_of};
ghost use Rattle.feed_reader.specs.Numbered.{noted};
ghost use Rattle.feed_reader.specs.ServiceNotes.{all_noted};
ghost use Rattle.feed_reader.specs.TripRows.{IsTripOfRow, IsTripWithin};
ghost use Rattle.feed_reader.specs.Trips.{trip_faults, trip_id, trip_of, trip_route, trip_service, trips_faults};

use crate::cells::text_at;
use crate::fault::FeedFault;
use crate::ids::Ids;
use crate::refusals::{bad_field, double_id, unknown_id};
use crate::services::note_service;
use crate::timetable::Trip;
use gtfs_rows::{Name, NoMemory, Sheet};
use std::alloc::Global;

/// The ids of all rows of trips.txt, and their trips, in file order.
#[derive(Drop)]
pub(crate) struct TripTable {
    pub ids: Ids,
    pub trips: Vec<Trip>,
}

/// The trips of all rows. Their services are noted behind those of the calendars.
///
/// # Refusals
///
/// The first fault of the rows, in their order: of each an unknown route, an empty service, an
/// empty id, an id that stood before. `NoMemory` may come in its place.
pub(crate) fn read_trip_rows(
    alloc: Global,
    sheet: &Sheet,
    routes: &Ids,
    services: &mut Ids,
) -> Result<TripTable, FeedFault>
    requires width { sheet.now.width ≡ 3 }
    ensures ids { IfOk result (λ table. table.ids ≡ map trip_id sheet.now.rows) }
    ensures distinct { IfOk result (λ table. IsDistinct bytes_eq table.ids) }
    ensures trips { IfOk result (λ table. table.trips.items
        ≡ map (trip_of routes.now services.new) sheet.now.rows) }
    ensures numbers { IfOk result (λ table.
        All (IsTripWithin (length routes.now) (length services.new)) table.trips.items) }
    ensures services { OnOk result
        (services.new ≡ all_noted services.old (map trip_service sheet.now.rows)) }
    ensures faultless { OnOk result (trips_faults routes.now sheet.now.rows ≡ []) }
    ensures refused { IfErr result (IsFirstFault (trips_faults routes.now sheet.now.rows)) }
{
    let mut ids = Ids::new(alloc);
    let mut trips = Vec::new(alloc);
    for row in 0..sheet.rows() {
        trips.push(trip_at(alloc, sheet, row, routes, &mut ids, services)?)?;
    }
    Ok(TripTable { ids, trips })
}

// The trip of a row, whose id and service are noted.
fn trip_at(
    alloc: Global,
    sheet: &Sheet,
    row: u64,
    routes: &Ids,
    ids: &mut Ids,
    services: &mut Ids,
) -> Result<Trip, FeedFault>
    requires row { row < length sheet.now.rows }
    requires width { sheet.now.width ≡ 3 }
    requires before { ids.old ≡ map trip_id (take row sheet.now.rows) }
    ensures trip { IfOk result
        (IsTripOfRow routes.now services.new (row_at sheet.now.rows row)) }
    ensures new { OnOk result
        (number_of ids.old (trip_id (row_at sheet.now.rows row)) ≡ None) }
    ensures id { OnOk result (ids.new ≡ ids.old ++ trip_id (row_at sheet.now.rows row) ∷ []) }
    ensures noted { OnOk result
        (services.new ≡ noted services.old (trip_service (row_at sheet.now.rows row))) }
    ensures faultless { OnOk result (trip_faults routes.now sheet.now.rows row ≡ []) }
    ensures refused { IfErr result (IsFirstFault (trip_faults routes.now sheet.now.rows row)) }
{
    let route = route_at(alloc, sheet, row, routes, ids)?;
    let service = note_service(services, text_at(sheet, row, 1))?;
    let id = text_at(sheet, row, 2);
    let name = String::from_str(alloc, id)?;
    ids.push(id)?;
    Ok(Trip {
        id: Name::new(name),
        route,
        service,
    })
}

// The route of a row without a fault, or the first fault of the row.
fn route_at(
    alloc: Global,
    sheet: &Sheet,
    row: u64,
    routes: &Ids,
    ids: &Ids,
) -> Result<u32, FeedFault>
    requires row { row < length sheet.now.rows }
    requires width { sheet.now.width ≡ 3 }
    requires before { ids.now ≡ map trip_id (take row sheet.now.rows) }
    ensures route { IfOk result
        (λ route. number_of routes.now (trip_route (row_at sheet.now.rows row)) ≡ Some route) }
    ensures new { OnOk result
        (number_of ids.now (trip_id (row_at sheet.now.rows row)) ≡ None) }
    ensures faultless { OnOk result (trip_faults routes.now sheet.now.rows row ≡ []) }
    ensures refused { IfErr result (IsFirstFault (trip_faults routes.now sheet.now.rows row)) }
{
    let _rows = sheet.rows();
    let route = text_at(sheet, row, 0);
    let Some(number) = routes.find(route) else {
        return Err(unknown_id(alloc, "trips.txt", row, "route_id", route));
    };
    let service = text_at(sheet, row, 1);
    if service.is_empty() {
        return Err(bad_field(alloc, "trips.txt", row, "service_id", service.as_bytes()));
    }
    let id = text_at(sheet, row, 2);
    if id.is_empty() {
        return Err(bad_field(alloc, "trips.txt", row, "trip_id", id.as_bytes()));
    }
    if ids.find(id).is_some() {
        return Err(double_id(alloc, "trips.txt", row, "trip_id", id));
    }
    Ok(number)
}

/// The trips whose flag is true, in order.
pub(crate) fn kept_trips(
    alloc: Global,
    trips: Vec<Trip>,
    kept: &[bool],
) -> Result<Vec<Trip>, NoMemory>
    requires one_each { length kept.now ≡ length trips.items }
    ensures value { IfOk result (λ left. left.items ≡ kept_of trips.items kept.now) }
{
    let mut left = Vec::new(alloc);
    let mut number = 0;
    for trip in trips {
        push_kept(&mut left, trip, kept[number])?;
        number += 1;
    }
    Ok(left)
}

// Appends a trip where it is kept.
fn push_kept(left: &mut Vec<Trip>, trip: Trip, keep: bool) -> Result<(), NoMemory>
    ensures value { OnOk result
        (left.new.items ≡ left.old.items ++ (if keep then trip ∷ [] else [])) }
{
    if keep {
        left.push(trip)?;
    }
    Ok(())
}
