//! The ids of stops.txt by what they name.

ghost use Rattle.std.specs.Prelude.{◌≡◌, ◌<◌, ◌+◌, ◌==◌, ◌++◌, ◌∷◌, [], Some, None, OnOk, IfOk, IfErr, length, map, take, if◌then◌else◌};
ghost use Rattle.feed_reader.specs.Faults.{IsFirstFault, row_at, whole_or};
ghost use Rattle.feed_reader.specs.Ids.{number_of};
ghost use Rattle.feed_reader.specs.Stops.{stop_faults, stop_id, stops_faults, type_field};
ghost use Rattle.feed_reader.specs.StopTables.{AreIdsBefore};

use crate::cells::{text_at, whole_or};
use crate::fault::FeedFault;
use crate::ids::Ids;
use crate::refusals::{bad_field, double_id};
use gtfs_rows::{NoMemory, Sheet};
use std::alloc::Global;

/// The ids of all rows, of the stops and of the stations, each in file order.
#[derive(Drop)]
pub(crate) struct StopIds {
    pub all: Ids,
    pub stops: Ids,
    pub stations: Ids,
}

/// The ids of the rows.
///
/// # Refusals
///
/// The first fault of the rows, in their order: of each an empty id, an id that stood before, a type
/// that is no number. `NoMemory` may come in its place.
pub(crate) fn read_stop_ids(alloc: Global, sheet: &Sheet) -> Result<StopIds, FeedFault>
    requires width { sheet.now.width ≡ 3 }
    ensures ids { IfOk result (λ ids. AreIdsBefore sheet.now.rows (length sheet.now.rows)
        ids.all ids.stops ids.stations) }
    ensures faultless { OnOk result (stops_faults sheet.now.rows ≡ []) }
    ensures refused { IfErr result (IsFirstFault (stops_faults sheet.now.rows)) }
{
    let mut ids = StopIds {
        all: Ids::new(alloc),
        stops: Ids::new(alloc),
        stations: Ids::new(alloc),
    };
    for row in 0..sheet.rows() {
        note_row(alloc, sheet, row, &mut ids)?;
    }
    Ok(ids)
}

// Notes the id of a row behind those of the rows before it.
fn note_row(alloc: Global, sheet: &Sheet, row: u64, ids: &mut StopIds) -> Result<(), FeedFault>
    requires row { row < length sheet.now.rows }
    requires width { sheet.now.width ≡ 3 }
    requires before { AreIdsBefore sheet.now.rows row ids.old.all ids.old.stops ids.old.stations }
    ensures noted { OnOk result
        (AreIdsBefore sheet.now.rows (row + 1) ids.new.all ids.new.stops ids.new.stations) }
    ensures faultless { OnOk result (stop_faults sheet.now.rows row ≡ []) }
    ensures refused { IfErr result (IsFirstFault (stop_faults sheet.now.rows row)) }
{
    let kind = kind_at(alloc, sheet, row, &ids.all)?;
    let id = text_at(sheet, row, 0);
    note_kind(&mut ids.stops, &mut ids.stations, id, kind)?;
    ids.all.push(id)?;
    Ok(())
}

// The type of a row without a fault, or the first fault of the row.
fn kind_at(alloc: Global, sheet: &Sheet, row: u64, ids: &Ids) -> Result<u64, FeedFault>
    requires row { row < length sheet.now.rows }
    requires width { sheet.now.width ≡ 3 }
    requires before { ids.now ≡ map stop_id (take row sheet.now.rows) }
    ensures kind { IfOk result
        (λ kind. whole_or 0 (type_field (row_at sheet.now.rows row)) ≡ Some kind) }
    ensures new { OnOk result (number_of ids.now (stop_id (row_at sheet.now.rows row)) ≡ None) }
    ensures faultless { OnOk result (stop_faults sheet.now.rows row ≡ []) }
    ensures refused { IfErr result (IsFirstFault (stop_faults sheet.now.rows row)) }
{
    let _rows = sheet.rows();
    let id = text_at(sheet, row, 0);
    if id.is_empty() {
        return Err(bad_field(alloc, "stops.txt", row, "stop_id", id.as_bytes()));
    }
    if ids.find(id).is_some() {
        return Err(double_id(alloc, "stops.txt", row, "stop_id", id));
    }
    let field = sheet.field(row, 1);
    match whole_or(0, field) {
        Some(kind) => Ok(kind),
        None => Err(bad_field(alloc, "stops.txt", row, "location_type", field)),
    }
}

// Notes an id under its type, where that is a stop or a station.
fn note_kind(stops: &mut Ids, stations: &mut Ids, id: &str, kind: u64) -> Result<(), NoMemory>
    requires new_stop { number_of stops.old id.now ≡ None }
    requires new_station { number_of stations.old id.now ≡ None }
    ensures stops { OnOk result
        (stops.new ≡ (if kind == 0 then stops.old ++ id.now ∷ [] else stops.old)) }
    ensures stations { OnOk result
        (stations.new ≡ (if kind == 1 then stations.old ++ id.now ∷ [] else stations.old)) }
{
    match kind {
        0 => stops.push(id),
        1 => stations.push(id),
        _ => Ok(()),
    }
}
