//! The files of stops, routes and transfers.

ghost use Rattle.std.specs.Prelude.{◌≡◌, [], OnOk, IfOk, IfErr};
ghost use Rattle.feed_reader.specs.Columns as columns;
ghost use Rattle.feed_reader.specs.Faults.{IsFirstFault};
ghost use Rattle.feed_reader.specs.Feed.{routes_in, stop_rows, transfer_rows};
ghost use Rattle.feed_reader.specs.FileFaults.{bytes_faults, of_routes, of_stops, of_transfers, rows_of_bytes};
ghost use Rattle.feed_reader.specs.Routes.{routes_faults, routes_of};
ghost use Rattle.feed_reader.specs.Stops.{stops_faults};
ghost use Rattle.feed_reader.specs.Transfers.{transfers_aside, transfers_faults, transfers_of};

use crate::columns::{route_columns, stop_columns, transfer_columns};
use crate::fault::FeedFault;
use crate::files::Files;
use crate::ids::Ids;
use crate::routes::read_routes;
use crate::sheets::{missing, read_sheet};
use crate::stops::{StopTable, read_stops};
use crate::transfers::{Transfers, read_transfers};
use std::alloc::Global;

/// The table of stops.txt, or the first fault of the file.
pub(crate) fn read_stop_file(alloc: Global, files: &Files) -> Result<StopTable, FeedFault>
    ensures rows { IfOk result (λ table. table ≡ stop_rows files.now) }
    ensures faultless { OnOk result (of_stops files.now ≡ []) }
    ensures refused { IfErr result (IsFirstFault (of_stops files.now)) }
{
    match files.stops() {
        Some(bytes) => read_stop_bytes(alloc, bytes),
        None => Err(missing(alloc, "stops.txt")),
    }
}

// The table of the bytes of stops.txt.
fn read_stop_bytes(alloc: Global, bytes: &[u8]) -> Result<StopTable, FeedFault>
    ensures rows { IfOk result (λ table. table ≡ rows_of_bytes bytes.now columns.stop_columns) }
    ensures faultless { OnOk result (
        bytes_faults columns.stops_file bytes.now columns.stop_columns
        (stops_faults (rows_of_bytes bytes.now columns.stop_columns)) ≡ []) }
    ensures refused { IfErr result (IsFirstFault
        (bytes_faults columns.stops_file bytes.now columns.stop_columns
        (stops_faults (rows_of_bytes bytes.now columns.stop_columns)))) }
{
    let wanted = stop_columns(alloc)?;
    let sheet = read_sheet(alloc, "stops.txt", bytes, &wanted)?;
    read_stops(alloc, sheet)
}

/// The ids of routes.txt, or the first fault of the file.
pub(crate) fn read_route_file(alloc: Global, files: &Files) -> Result<Ids, FeedFault>
    ensures routes { IfOk result (λ ids. ids ≡ routes_in files.now) }
    ensures faultless { OnOk result (of_routes files.now ≡ []) }
    ensures refused { IfErr result (IsFirstFault (of_routes files.now)) }
{
    match files.routes() {
        Some(bytes) => read_route_bytes(alloc, bytes),
        None => Err(missing(alloc, "routes.txt")),
    }
}

// The ids of the bytes of routes.txt.
fn read_route_bytes(alloc: Global, bytes: &[u8]) -> Result<Ids, FeedFault>
    ensures routes { IfOk result
        (λ ids. ids ≡ routes_of (rows_of_bytes bytes.now columns.route_columns)) }
    ensures faultless { OnOk result (
        bytes_faults columns.routes_file bytes.now columns.route_columns
        (routes_faults (rows_of_bytes bytes.now columns.route_columns)) ≡ []) }
    ensures refused { IfErr result (IsFirstFault
        (bytes_faults columns.routes_file bytes.now columns.route_columns
        (routes_faults (rows_of_bytes bytes.now columns.route_columns)))) }
{
    let wanted = route_columns(alloc)?;
    let sheet = read_sheet(alloc, "routes.txt", bytes, &wanted)?;
    read_routes(alloc, &sheet)
}

/// The transfers of transfers.txt, none where it is not there, or the first fault of the file.
pub(crate) fn read_transfer_file(
    alloc: Global,
    files: &Files,
    stops: &StopTable,
) -> Result<Transfers, FeedFault>
    requires stops { stops.now ≡ stop_rows files.now }
    ensures transfers { IfOk result
        (λ found. found.list.items ≡ transfers_of stops.now (transfer_rows files.now)) }
    ensures aside { IfOk result
        (λ found. found.aside ≡ transfers_aside stops.now (transfer_rows files.now)) }
    ensures faultless { OnOk result (of_transfers files.now ≡ []) }
    ensures refused { IfErr result (IsFirstFault (of_transfers files.now)) }
{
    match files.transfers() {
        Some(bytes) => read_transfer_bytes(alloc, bytes, stops),
        None => Ok(Transfers {
            list: Vec::new(alloc),
            aside: 0,
        }),
    }
}

// The transfers of the bytes of transfers.txt.
fn read_transfer_bytes(
    alloc: Global,
    bytes: &[u8],
    stops: &StopTable,
) -> Result<Transfers, FeedFault>
    ensures transfers { IfOk result (λ found. found.list.items
        ≡ transfers_of stops.now (rows_of_bytes bytes.now columns.transfer_columns)) }
    ensures aside { IfOk result (λ found. found.aside
        ≡ transfers_aside stops.now (rows_of_bytes bytes.now columns.transfer_columns)) }
    ensures faultless { OnOk result (
        bytes_faults columns.transfers_file bytes.now columns.transfer_columns
        (transfers_faults stops.now (rows_of_bytes bytes.now columns.transfer_columns)) ≡ []) }
    ensures refused { IfErr result (IsFirstFault
        (bytes_faults columns.transfers_file bytes.now columns.transfer_columns
        (transfers_faults stops.now (rows_of_bytes bytes.now columns.transfer_columns)))) }
{
    let wanted = transfer_columns(alloc)?;
    let sheet = read_sheet(alloc, "transfers.txt", bytes, &wanted)?;
    read_transfers(alloc, &sheet, stops)
}
