//! The stops and stations of stops.txt.

ghost use Rattle.std.specs.Prelude.{◌≡◌, ◌<◌, ◌^◌, ◌++◌, ◌∷◌, [], OnOk, IfOk, IfErr, IfSome, length, map, filter, if◌then◌else◌};
ghost use Rattle.feed_reader.specs.Faults.{IsFirstFault, row_at};
ghost use Rattle.feed_reader.specs.Ids.{is_known, number_of};
ghost use Rattle.feed_reader.specs.Stops.{has_type, side_named, stop_id, stop_ids, stop_of, stops_faults, stops_of};
ghost use Rattle.feed_reader.specs.StopTables.{row_side, side_among, stop_on};
ghost use Rattle.feed_reader.specs.declared.timetable.Side.TheVariants as side;

use crate::cells::{text_at, whole_or};
use crate::fault::FeedFault;
use crate::ids::Ids;
use crate::stop_ids::{StopIds, read_stop_ids};
use crate::timetable::{Side, Stop};
use gtfs_rows::{Name, NoMemory, Sheet};
use std::alloc::Global;
use std::marker::Model;

/// The rows of stops.txt, and what each id names.
#[derive(Drop)]
pub(crate) struct StopTable {
    sheet: Sheet,
    known: Ids,
    sides: Vec<Option<Side>>,
    stops: Vec<Stop>,
}

impl Model for StopTable {
    ghost use Rattle.std.specs.Prelude.{List};
    ghost use Rattle.feed_reader.specs.Faults.{Fields};
    ghost use Rattle.feed_reader.specs.StopTables.{IsStopTable};

    ghost Value = { List Fields };

    ghost view = { λ t. t.sheet.rows };

    ghost invariant = { λ t. IsStopTable t.sheet.rows t.known t.sides.items t.stops.items };
}

impl StopTable {
    /// What an id names: a stop or a station, None where it is neither.
    pub fn side(&self, id: &str) -> Option<Side>
        ensures value { result ≡ side_named self.now id.now }
    {
        self.sides[self.known.find(id)? as usize]
    }

    /// Whether an id stands in stops.txt.
    pub fn is_known(&self, id: &str) -> bool
        ensures value { result ≡ is_known (map stop_id self.now) id.now }
    {
        self.known.find(id).is_some()
    }

    /// The number of the stop that an id names.
    pub fn stop(&self, id: &str) -> Option<u32>
        ensures value { result ≡ number_of (stop_ids self.now) id.now }
        ensures within { IfSome result (λ stop. stop < length (stops_of self.now)) }
    {
        stop_on(self.side(id))
    }

    /// The stops, in file order.
    pub fn into_stops(self) -> Vec<Stop>
        ensures value { result.items ≡ stops_of self }
        ensures few { length result.items < 2 ^ 32 }
    {
        self.stops
    }
}

/// The table of the rows of stops.txt.
///
/// # Refusals
///
/// The first fault of the rows, in their order: of each an empty id, an id that stood before, a type
/// that is no number. `NoMemory` may come in its place.
pub(crate) fn read_stops(alloc: Global, sheet: Sheet) -> Result<StopTable, FeedFault>
    requires width { sheet.width ≡ 3 }
    ensures rows { IfOk result (λ table. table ≡ sheet.rows) }
    ensures faultless { OnOk result (stops_faults sheet.rows ≡ []) }
    ensures refused { IfErr result (IsFirstFault (stops_faults sheet.rows)) }
{
    let ids = read_stop_ids(alloc, &sheet)?;
    let sides = sides_of(alloc, &sheet, &ids)?;
    let stops = stops_at(alloc, &sheet, &ids.stations)?;
    let _few = ids.all.names();
    Ok(StopTable {
        sheet,
        known: ids.all,
        sides,
        stops,
    })
}

// What the id of each row names.
fn sides_of(alloc: Global, sheet: &Sheet, ids: &StopIds) -> Result<Vec<Option<Side>>, NoMemory>
    requires width { sheet.now.width ≡ 3 }
    ensures value { IfOk result
        (λ sides. sides.items ≡ map (row_side ids.now.stops ids.now.stations) sheet.now.rows) }
{
    let mut sides = Vec::new(alloc);
    for row in 0..sheet.rows() {
        sides.push(side_among(&ids.stops, &ids.stations, text_at(sheet, row, 0)))?;
    }
    Ok(sides)
}

// The stop or the station that an id names.
fn side_among(stops: &Ids, stations: &Ids, id: &str) -> Option<Side>
    ensures value { result ≡ side_among stops.now stations.now id.now }
{
    if let Some(number) = stops.find(id) {
        return Some(Side::Stop(number));
    }
    stations.find(id).map(Side::Station)
}

// The number of a side that is a stop.
fn stop_on(side: Option<Side>) -> Option<u32>
    ensures value { result ≡ stop_on side }
{
    match side? {
        Side::Stop(number) => Some(number),
        Side::Station(_) => None,
    }
}

// The stops of the rows.
fn stops_at(alloc: Global, sheet: &Sheet, stations: &Ids) -> Result<Vec<Stop>, NoMemory>
    requires width { sheet.now.width ≡ 3 }
    ensures value { IfOk result
        (λ stops. stops.items ≡ map (stop_of stations.now) (filter (has_type 0) sheet.now.rows)) }
{
    let mut stops = Vec::new(alloc);
    for row in 0..sheet.rows() {
        push_stop(alloc, sheet, row, stations, &mut stops)?;
    }
    Ok(stops)
}

// Appends the stop of a row, where it is one.
fn push_stop(
    alloc: Global,
    sheet: &Sheet,
    row: u64,
    stations: &Ids,
    stops: &mut Vec<Stop>,
) -> Result<(), NoMemory>
    requires row { row < length sheet.now.rows }
    requires width { sheet.now.width ≡ 3 }
    ensures value { OnOk result (stops.new.items ≡ stops.old.items
        ++ (if has_type 0 (row_at sheet.now.rows row)
        then stop_of stations.now (row_at sheet.now.rows row) ∷ [] else [])) }
{
    if whole_or(0, sheet.field(row, 1)) == Some(0) {
        stops.push(stop_at(alloc, sheet, row, stations)?)?;
    }
    Ok(())
}

// The stop of a row.
fn stop_at(alloc: Global, sheet: &Sheet, row: u64, stations: &Ids) -> Result<Stop, NoMemory>
    requires row { row < length sheet.now.rows }
    requires width { sheet.now.width ≡ 3 }
    ensures value { IfOk result (λ stop. stop ≡ stop_of stations.now (row_at sheet.now.rows row)) }
{
    let id = String::from_str(alloc, text_at(sheet, row, 0))?;
    Ok(Stop {
        id: Name::new(id),
        parent: stations.find(text_at(sheet, row, 2)),
    })
}
