//! Feeds of small folders. What they give was worked out by hand, by docs/FORMATS.md.

mod calls;
mod city;
mod cuts;
mod export;
mod rows;
mod sheets;
mod transfers;

use super::*;
use crate::fault::FeedFault;
use crate::files::Files;
use crate::timetable::Side;
use gtfs_rows::{Blob, Place, RowFault};
use std::alloc::Global;
use std::str::from_utf8;
use std::test::Fail;

// The files of a small city, each with its place. It has no calendar_dates.txt and no transfers.txt.
const CITY: [(u32, &str); 6] = [
    (0, "stop_id,stop_name\nA,Ash Street\nB,Bay Road\n"),
    (1, "route_id\nR1\nR2\n"),
    (2, WEEK),
    (4, "route_id,service_id,trip_id\nR1,WK,t1\nR2,WK,t2\n"),
    (5, CALLS),
    (6, BANDS),
];

const WEEK: &str = "\
service_id,monday,tuesday,wednesday,thursday,friday,saturday,sunday,start_date,end_date
WK,1,1,1,1,1,0,0,20250101,20251231
";

const CALLS: &str = "\
trip_id,arrival_time,departure_time,stop_id,stop_sequence
t1,06:00:00,06:00:00,A,1
t1,06:10:00,06:10:00,B,2
t2,06:00:00,06:00:00,A,1
t2,06:14:00,06:14:00,B,2
";

const BANDS: &str = "\
trip_id,start_time,end_time,headway_secs
t1,06:00:00,22:00:00,600
t2,06:00:00,22:00:00,900
";

// Puts a file at a place below 8.
fn put(alloc: Global, files: &mut Files, place: u32, text: &str) -> Result<(), Fail> {
    let bytes = text.as_bytes().to_vec(alloc)?;
    if bytes.as_slice().len() > 1_000_000 || place > 7 {
        return Err("a short file at a place".into());
    }
    files.set(place, Blob::new(bytes));
    Ok(())
}

// The files of a folder, each with its place.
fn files_of(alloc: Global, folder: &[(u32, &str)]) -> Result<Files, Fail> {
    let mut files = Files::none();
    for (place, text) in folder {
        put(alloc, &mut files, *place, text)?;
    }
    Ok(files)
}

// The files of the small city, with this one in place of its own.
fn city_with(alloc: Global, place: u32, text: &str) -> Result<Files, Fail> {
    let mut files = files_of(alloc, &CITY)?;
    put(alloc, &mut files, place, text)?;
    Ok(files)
}

// The feed of files without a fault.
fn feed_of(alloc: Global, files: &Files) -> Result<Feed, Fail> {
    Feed::read(alloc, files).map_err(|_| "a feed".into())
}

// The fault of files that have one.
fn fault_of(alloc: Global, files: &Files) -> Result<FeedFault, Fail> {
    match Feed::read(alloc, files) {
        Ok(_) => Err("a fault".into()),
        Err(fault) => Ok(fault),
    }
}

// The name of a file.
fn file_name(place: u32) -> &'static str {
    match place {
        0 => "stops.txt",
        1 => "routes.txt",
        2 => "calendar.txt",
        3 => "calendar_dates.txt",
        4 => "trips.txt",
        5 => "stop_times.txt",
        6 => "frequencies.txt",
        _ => "transfers.txt",
    }
}

// Whether the small city with this file in place of its own has a fault of a kind there, at a row,
// a column and a field.
fn has_fault(
    alloc: Global,
    place: u32,
    text: &str,
    kind: Kind,
    want: (u64, &str, &str),
) -> Result<bool, Fail> {
    let files = city_with(alloc, place, text)?;
    let fault = fault_of(alloc, &files)?;
    let is = kind_of(&fault) == kind && is_at(&fault, file_name(place), want);
    Ok(is)
}

// What a fault is, apart from its place.
#[derive(Clone, Copy, Debug, PartialEq, Eq)]
enum Kind {
    MissingFile,
    MissingColumn,
    BadField,
    DoubleId,
    UnknownId,
    TimesFall,
    BadHeadway,
    Other,
}

fn kind_of(fault: &FeedFault) -> Kind {
    match fault {
        FeedFault::MissingFile(_) => Kind::MissingFile,
        FeedFault::Row(RowFault::MissingColumn(_)) => Kind::MissingColumn,
        FeedFault::Row(RowFault::BadField(_)) => Kind::BadField,
        FeedFault::Row(_) => Kind::Other,
        FeedFault::DoubleId(_) => Kind::DoubleId,
        FeedFault::UnknownId(_) => Kind::UnknownId,
        FeedFault::TimesFall(_) => Kind::TimesFall,
        FeedFault::BadHeadway(_) => Kind::BadHeadway,
        FeedFault::NoMemory => Kind::Other,
    }
}

// The place of a fault, None where it has none.
fn place_of(fault: &FeedFault) -> Option<&Place> {
    match fault {
        FeedFault::Row(fault) => row_place(fault),
        FeedFault::DoubleId(place) => Some(place),
        FeedFault::UnknownId(place) => Some(place),
        FeedFault::TimesFall(place) => Some(place),
        FeedFault::BadHeadway(place) => Some(place),
        FeedFault::MissingFile(_) | FeedFault::NoMemory => None,
    }
}

fn row_place(fault: &RowFault) -> Option<&Place> {
    match fault {
        RowFault::NotUtf8(place) => Some(place),
        RowFault::NoHeader(place) => Some(place),
        RowFault::MissingColumn(place) => Some(place),
        RowFault::DoubleColumn(place) => Some(place),
        RowFault::RowWidth(place) => Some(place),
        RowFault::BadField(place) => Some(place),
        RowFault::NoMemory => None,
    }
}

// The file, the row, the column and the field of a place.
fn parts_of(place: &Place) -> (&str, u64, &str, &str) {
    let field = from_utf8(place.field.as_slice()).unwrap_or("?");
    (place.file.as_str(), place.row, place.column.as_str(), field)
}

// Whether a fault stands in a file, at a row, a column and a field.
fn is_at(fault: &FeedFault, file: &str, want: (u64, &str, &str)) -> bool {
    let (row, column, field) = want;
    place_of(fault).map(parts_of) == Some((file, row, column, field))
}

// How many calls a trip has.
fn calls_of(feed: &Feed, trip: u32) -> usize {
    if trip as usize >= feed.trips().len() {
        return 0;
    }
    feed.calls(trip).len()
}

// The call of a trip at a place in its list.
fn call_at(feed: &Feed, trip: u32, place: usize) -> Option<Call> {
    if trip as usize >= feed.trips().len() {
        return None;
    }
    feed.calls(trip).get(place).copied()
}

// Whether a trip has at a place in its list a call at a stop, in one second, where passengers may
// board and alight.
fn is_call(feed: &Feed, trip: u32, place: usize, stop: u32, time: u32) -> bool {
    let want = Call {
        stop,
        arrival: time,
        departure: time,
        pickup: true,
        drop: true,
    };
    call_at(feed, trip, place) == Some(want)
}

// Whether a stop has an id and a station.
fn is_stop(feed: &Feed, stop: usize, id: &str, parent: Option<u32>) -> bool {
    match feed.stops().get(stop) {
        Some(stop) => stop.id.as_str() == id && stop.parent == parent,
        None => false,
    }
}

// Whether a trip has an id, a route and a service.
fn is_trip(feed: &Feed, trip: usize, id: &str, route: u32, service: u32) -> bool {
    match feed.trips().get(trip) {
        Some(trip) => trip.id.as_str() == id && trip.route == route && trip.service == service,
        None => false,
    }
}
