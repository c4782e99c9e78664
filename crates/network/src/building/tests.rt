//! Small cities, worked out by docs/FORMATS.md.

ghost use Rattle.std.specs.Prelude.{◌<◌, ◌≤◌, All, IfOk, length};
ghost use Rattle.demand.specs.Laws.{IsLinkAmong, IsWalkAmong};
ghost use Rattle.demand.specs.declared.limits.TheConstants.{ZONE_LIMIT};
ghost use Rattle.headways.specs.Laws.{IsLineOf};
ghost use Rattle.scenarios.specs.Feeds.{IsOfFeed};

mod edits;
mod stations;

use super::*;
use crate::kinds::ArcKind;
use feed_reader::Files;
use gtfs_rows::Blob;
use headways::lines;
use service_period::Period;
use std::test::Fail;

const STOPS: &str = "stop_id\nA\nB\n";

const ROUTES: &str = "route_id\nR1\nR2\n";

const CALENDAR: &str = "\
service_id,monday,tuesday,wednesday,thursday,friday,saturday,sunday,start_date,end_date
WK,1,1,1,1,1,0,0,20250101,20251231
";

const TRIPS: &str = "route_id,service_id,trip_id\nR1,WK,t1\nR2,WK,t2\n";

// A ride of 600 seconds and one of 840.
const CALLS: &str = "\
trip_id,arrival_time,departure_time,stop_id,stop_sequence
t1,06:00:00,06:00:00,A,1
t1,06:10:00,06:10:00,B,2
t2,06:00:00,06:00:00,A,1
t2,06:14:00,06:14:00,B,2
";

// In an hour 3600 * 1000 / 600 and 3600 * 1000 / 900 thousandths of departures: 6000 and 4000.
const BANDS: &str = "\
trip_id,start_time,end_time,headway_secs
t1,06:00:00,22:00:00,600
t2,06:00:00,22:00:00,900
";

const TRANSFERS: &str = "from_stop_id,to_stop_id,transfer_type\n";

const ZONES: &str = "zone_id,stop_id,walk_secs\nX,A,60\nY,B,30\n";

const NO_EDITS: &str = "edit,target,value\n";

// Half of a headway of an hour: 10000 * 50 * 3600.
const K: u64 = 1_800_000_000;

// The feed of two trips with these files.
fn feed_of(
    alloc: Global,
    stops: &str,
    calls: &str,
    bands: &str,
    transfers: &str,
) -> Result<Feed, Fail> {
    let mut files = Files::none();
    put(alloc, &mut files, 0, stops)?;
    put(alloc, &mut files, 1, ROUTES)?;
    put(alloc, &mut files, 2, CALENDAR)?;
    put(alloc, &mut files, 4, TRIPS)?;
    put(alloc, &mut files, 5, calls)?;
    put(alloc, &mut files, 6, bands)?;
    put(alloc, &mut files, 7, transfers)?;
    Feed::read(alloc, &files).map_err(|_| "a feed".into())
}

// Puts a file at a place below 8.
fn put(alloc: Global, files: &mut Files, place: u32, text: &str) -> Result<(), Fail> {
    let bytes = text.as_bytes().to_vec(alloc)?;
    if bytes.as_slice().len() > 1_000_000 || place > 7 {
        return Err("a short file at a place".into());
    }
    files.set(place, Blob::new(bytes));
    Ok(())
}

// The lines of the feed in an hour.
fn lines_of(alloc: Global, feed: &Feed) -> Result<Lines, Fail>
    ensures laws { IfOk result (λ found. All (IsLineOf feed.now) found.lines) }
{
    let period = Period::new("20250602", "07:00:00", "08:00:00").map_err(|_| "a period")?;
    lines(alloc, feed, &period).map_err(|_| "lines".into())
}

// The zones of the table.
fn zones_of(alloc: Global, rows: &str, feed: &Feed) -> Result<Zones, Fail>
    ensures few { IfOk result (λ zones. length zones.names ≤ ZONE_LIMIT) }
    ensures links { IfOk result (λ zones.
        All (IsLinkAmong (length zones.names) (length feed.now.stops)) zones.links) }
{
    Zones::read(alloc, rows.as_bytes(), feed).map_err(|_| "zones".into())
}

// The scenario of rows.
fn scenario_of(alloc: Global, rows: &str, feed: &Feed) -> Result<Scenario, Fail>
    ensures size { IfOk result (IsOfFeed feed.now) }
{
    Scenario::read(alloc, rows.as_bytes(), feed).map_err(|_| "a scenario".into())
}

// No walks.
fn no_walks(alloc: Global, feed: &Feed) -> Walks
    ensures among { All (IsWalkAmong (length feed.now.stops)) result }
{
    let _stops = feed.stops();
    Walks::none(alloc)
}

// What becomes of a feed with these zones in a scenario of these rows.
fn built(
    alloc: Global,
    feed: &Feed,
    zones: &str,
    rows: &str,
) -> Result<Result<CityNet, BuildFault>, Fail> {
    let lines = lines_of(alloc, feed)?;
    let zones = zones_of(alloc, zones, feed)?;
    let scenario = scenario_of(alloc, rows, feed)?;
    let fare = TimeFare::new(&scenario, |route: u32, layer: Layer| {
        scenario.ticks(route, layer)
    });
    let walks = no_walks(alloc, feed);
    Ok(build(alloc, feed, &lines, &zones, &walks, &scenario, &fare, K))
}

// An arc: its tail, its head, its cost, its weight, and what it stands for.
type Shown = (u32, u32, u32, Option<u32>, ArcKind);

// An arc of a city.
fn shown(city: &CityNet, number: u32) -> Shown
    requires arc { number < length city.now.net.arcs }
{
    let arc = *city.net().arc(number);
    (
        arc.tail,
        arc.head,
        arc.cost,
        arc.weight,
        city.arc_kind(number),
    )
}

// Whether a city has just these arcs.
fn has_arcs(city: &CityNet, arcs: &[Shown]) -> bool {
    if city.net().arcs() as usize != arcs.len() {
        return false;
    }
    for number in 0..city.net().arcs() {
        if shown(city, number) != arcs[number as usize] {
            return false;
        }
    }
    true
}

// Whether the nodes of a city stand for just these.
fn has_nodes(city: &CityNet, nodes: &[NodeKind]) -> bool {
    if city.net().nodes() as usize != nodes.len() {
        return false;
    }
    for number in 0..city.net().nodes() {
        if city.node_kind(number) != nodes[number as usize] {
            return false;
        }
    }
    true
}
