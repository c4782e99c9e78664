//! The files of the calls and of the bands, and the trips that are not set aside.

ghost use Rattle.std.specs.Prelude.{◌≡◌, ◌<◌, ◌^◌, [], All, OnOk, IfOk, IfErr, count_by, length, map, not};
ghost use Rattle.std.specs.List.{IsDistinct};
ghost use Rattle.std.specs.Str.{bytes_eq};
ghost use Rattle.feed_reader.specs.BandRows.{IsBandWithin};
ghost use Rattle.feed_reader.specs.Calls.{calls_of, is_aside};
ghost use Rattle.feed_reader.specs.Columns as columns;
ghost use Rattle.feed_reader.specs.Faults.{IsFirstFault};
ghost use Rattle.feed_reader.specs.Feed.{band_rows, calls_in, kept_rows, routes_in, services_in, stop_rows, trip_ids, trip_rows};
ghost use Rattle.feed_reader.specs.FileFaults.{bytes_faults, of_bands, of_calls, of_timetable, rows_of_bytes};
ghost use Rattle.feed_reader.specs.Frequencies.{bands_of, frequencies_faults};
ghost use Rattle.feed_reader.specs.Kept.{kept_of};
ghost use Rattle.feed_reader.specs.TimesRise.{TimesRise};
ghost use Rattle.feed_reader.specs.TripRows.{IsTripWithin};
ghost use Rattle.feed_reader.specs.Trips.{trip_id, trip_of};

use crate::call_file::read_call_bytes;
use crate::call_lists::CallLists;
use crate::columns::frequency_columns;
use crate::fault::FeedFault;
use crate::files::Files;
use crate::frequencies::read_bands;
use crate::ids::Ids;
use crate::sheets::{missing, read_sheet};
use crate::stops::StopTable;
use crate::timetable::Trip;
use crate::trip_calls::TripCalls;
use crate::trips::{TripTable, kept_trips};
use gtfs_rows::Band;
use std::alloc::Global;

/// The trips that are not set aside, their calls and bands, and how many were set aside.
#[derive(Drop)]
pub(crate) struct Timetable {
    pub trips: Vec<Trip>,
    pub calls: CallLists,
    pub bands: Vec<Band>,
    pub aside: u64,
}

/// The trips of this table that are not set aside, or the first fault of stop_times.txt and
/// frequencies.txt.
pub(crate) fn read_timetable(
    alloc: Global,
    files: &Files,
    stops: &StopTable,
    table: TripTable,
) -> Result<Timetable, FeedFault>
    requires stops { stops.now ≡ stop_rows files.now }
    requires ids { table.ids ≡ trip_ids files.now }
    requires distinct { IsDistinct bytes_eq table.ids }
    requires trips { table.trips.items
        ≡ map (trip_of (routes_in files.now) (services_in files.now)) (trip_rows files.now) }
    requires within { All (IsTripWithin (length (routes_in files.now))
        (length (services_in files.now))) table.trips.items }
    ensures few { IfOk result (λ found. length found.trips.items < 2 ^ 32) }
    ensures within { IfOk result (λ found. All (IsTripWithin (length (routes_in files.now))
        (length (services_in files.now))) found.trips.items) }
    ensures trips { IfOk result (λ found. found.trips.items
        ≡ map (trip_of (routes_in files.now) (services_in files.now)) (kept_rows files.now)) }
    ensures calls { IfOk result (λ found. found.calls
        ≡ map (λ trip. calls_of (calls_in files.now trip)) (kept_rows files.now)) }
    ensures rising { IfOk result (λ found. All TimesRise found.calls) }
    ensures bands { IfOk result (λ found. found.bands.items
        ≡ bands_of (map trip_id (kept_rows files.now)) (band_rows files.now)) }
    ensures numbers { IfOk result
        (λ found. All (IsBandWithin (length (kept_rows files.now))) found.bands.items) }
    ensures aside { IfOk result (λ found. found.aside
        ≡ count_by (λ trip. is_aside (calls_in files.now trip)) (trip_rows files.now)) }
    ensures faultless { OnOk result (of_timetable files.now ≡ []) }
    ensures refused { IfErr result (IsFirstFault (of_timetable files.now)) }
{
    let _few = table.ids.names();
    let found = read_call_file(alloc, files, stops, &table.ids)?;
    let bands = read_band_file(alloc, files, &table.ids, &found.kept)?;
    let trips = kept_trips(alloc, table.trips, &found.kept)?;
    let aside = found.kept.as_slice().len() - trips.as_slice().len();
    Ok(Timetable {
        trips,
        calls: found.lists,
        bands,
        aside: aside as u64,
    })
}

// Which trips are not set aside, and their calls, or the first fault of stop_times.txt.
fn read_call_file(
    alloc: Global,
    files: &Files,
    stops: &StopTable,
    trips: &Ids,
) -> Result<TripCalls, FeedFault>
    requires stops { stops.now ≡ stop_rows files.now }
    requires trips { trips.now ≡ trip_ids files.now }
    requires distinct { IsDistinct bytes_eq trips.now }
    ensures kept { IfOk result (λ found. found.kept.items
        ≡ map (λ trip. not (is_aside (calls_in files.now trip))) (trip_rows files.now)) }
    ensures lists { IfOk result (λ found. found.lists
        ≡ map (λ trip. calls_of (calls_in files.now trip)) (kept_rows files.now)) }
    ensures rising { IfOk result (λ found. All TimesRise found.lists) }
    ensures faultless { OnOk result (of_calls files.now ≡ []) }
    ensures refused { IfErr result (IsFirstFault (of_calls files.now)) }
{
    match files.stop_times() {
        Some(bytes) => read_call_bytes(alloc, bytes, stops, trips),
        None => Err(missing(alloc, "stop_times.txt")),
    }
}

// The bands of frequencies.txt, none where it is not there, or the first fault of the file.
fn read_band_file(
    alloc: Global,
    files: &Files,
    trips: &Ids,
    kept: &[bool],
) -> Result<Vec<Band>, FeedFault>
    requires trips { trips.now ≡ trip_ids files.now }
    requires distinct { IsDistinct bytes_eq trips.now }
    requires one_each { length kept.now ≡ length trips.now }
    ensures bands { IfOk result
        (λ bands. bands.items ≡ bands_of (kept_of trips.now kept.now) (band_rows files.now)) }
    ensures numbers { IfOk result
        (λ bands. All (IsBandWithin (length (kept_of trips.now kept.now))) bands.items) }
    ensures faultless { OnOk result (of_bands files.now ≡ []) }
    ensures refused { IfErr result (IsFirstFault (of_bands files.now)) }
{
    match files.frequencies() {
        Some(bytes) => read_band_bytes(alloc, bytes, trips, kept),
        None => Ok(Vec::new(alloc)),
    }
}

// The bands of the bytes of frequencies.txt.
fn read_band_bytes(
    alloc: Global,
    bytes: &[u8],
    trips: &Ids,
    kept: &[bool],
) -> Result<Vec<Band>, FeedFault>
    requires distinct { IsDistinct bytes_eq trips.now }
    requires one_each { length kept.now ≡ length trips.now }
    ensures bands { IfOk result (λ bands. bands.items ≡ bands_of (kept_of trips.now kept.now)
        (rows_of_bytes bytes.now columns.frequency_columns)) }
    ensures numbers { IfOk result
        (λ bands. All (IsBandWithin (length (kept_of trips.now kept.now))) bands.items) }
    ensures faultless { OnOk result (
        bytes_faults columns.frequencies_file bytes.now columns.frequency_columns
        (frequencies_faults trips.now (rows_of_bytes bytes.now columns.frequency_columns)) ≡ []) }
    ensures refused { IfErr result (IsFirstFault
        (bytes_faults columns.frequencies_file bytes.now columns.frequency_columns
        (frequencies_faults trips.now (rows_of_bytes bytes.now columns.frequency_columns)))) }
{
    let wanted = frequency_columns(alloc)?;
    let sheet = read_sheet(alloc, "frequencies.txt", bytes, &wanted)?;
    read_bands(alloc, &sheet, trips, kept)
}
