//! A city of two stops, with two lines between them.

ghost use Rattle.std.specs.Prelude.{◌≡◌, ◌<◌, ◌≤◌, All, IfOk, length};
ghost use Rattle.demand.specs.Laws.{IsLinkAmong, IsPairAmong, IsWalkAmong};
ghost use Rattle.demand.specs.declared.limits.TheConstants.{ZONE_LIMIT};
ghost use Rattle.headways.specs.Laws.{IsLineOf};
ghost use Rattle.scenarios.specs.Feeds.{IsOfFeed};

use demand::{Demand, Walks, Zones};
use feed_reader::{Feed, Files};
use gtfs_rows::Blob;
use headways::{Lines, lines};
use network::{CityNet, build};
use scenarios::{Layer, Scenario, TimeFare};
use service_period::Period;
use std::alloc::Global;
use std::test::Fail;

// The rides take 600 and 840 seconds. In an hour 3600 * 1000 / 600 and 3600 * 1000 / 900
// thousandths of departures are 6000 and 4000.
const FILES: [(u32, &str); 6] = [
    (0, "stop_id\nA\nB\n"),
    (1, "route_id\nR1\nR2\n"),
    (3, "service_id,date,exception_type\nD,20250602,1\n"),
    (4, "route_id,service_id,trip_id\nR1,D,t1\nR2,D,t2\n"),
    (
        5,
        "trip_id,arrival_time,departure_time,stop_id,stop_sequence
t1,06:00:00,06:00:00,A,1
t1,06:10:00,06:10:00,B,2
t2,06:00:00,06:00:00,A,1
t2,06:14:00,06:14:00,B,2
",
    ),
    (
        6,
        "trip_id,start_time,end_time,headway_secs
t1,06:00:00,22:00:00,600
t2,06:00:00,22:00:00,900
",
    ),
];

const ZONES: &str = "zone_id,stop_id,walk_secs\nX,A,60\nY,B,30\n";

// Half of a headway of an hour: 10000 * 50 * 3600.
const K: u64 = 1_800_000_000;

/// The feed of the city.
pub fn feed_of(alloc: Global) -> Result<Feed, Fail> {
    let mut files = Files::none();
    for (place, text) in FILES {
        put(alloc, &mut files, place, text)?;
    }
    Feed::read(alloc, &files).map_err(|_| "a feed".into())
}

// Puts a short file at a place below 8.
fn put(alloc: Global, files: &mut Files, place: u32, text: &str) -> Result<(), Fail> {
    let bytes = text.as_bytes().to_vec(alloc)?;
    if bytes.as_slice().len() > 1000 || place > 7 {
        return Err("a short file at a place".into());
    }
    files.set(place, Blob::new(bytes));
    Ok(())
}

/// The zones X and Y.
pub fn zones_of(alloc: Global, feed: &Feed) -> Result<Zones, Fail>
    ensures few { IfOk result (λ zones. length zones.names ≤ ZONE_LIMIT) }
    ensures links { IfOk result (λ zones.
        All (IsLinkAmong (length zones.names) (length feed.now.stops)) zones.links) }
{
    Zones::read(alloc, ZONES.as_bytes(), feed).map_err(|_| "zones".into())
}

// The lines of the feed in an hour.
fn lines_of(alloc: Global, feed: &Feed) -> Result<Lines, Fail>
    ensures laws { IfOk result (λ found. All (IsLineOf feed.now) found.lines) }
{
    let period = Period::new("20250602", "07:00:00", "08:00:00").map_err(|_| "a period")?;
    lines(alloc, feed, &period).map_err(|_| "lines".into())
}

// The plain scenario.
fn scenario_of(alloc: Global, feed: &Feed) -> Result<Scenario, Fail>
    ensures size { IfOk result (IsOfFeed feed.now) }
{
    Scenario::read(alloc, b"edit,target,value\n", feed).map_err(|_| "a scenario".into())
}

// No walks.
fn no_walks(alloc: Global, feed: &Feed) -> Walks
    ensures among { All (IsWalkAmong (length feed.now.stops)) result }
{
    let _stops = feed.stops();
    Walks::none(alloc)
}

/// The network of the city.
pub fn city_of(alloc: Global, feed: &Feed, zones: &Zones) -> Result<CityNet, Fail>
    requires few { length zones.now.names ≤ ZONE_LIMIT }
    requires links { All (IsLinkAmong (length zones.now.names) (length feed.now.stops)) zones.now.links }
    ensures zones { IfOk result (λ city. city.zones ≡ length zones.now.names) }
{
    let lines = lines_of(alloc, feed)?;
    let scenario = scenario_of(alloc, feed)?;
    let fare = TimeFare::new(&scenario, |route: u32, layer: Layer| {
        scenario.ticks(route, layer)
    });
    let walks = no_walks(alloc, feed);
    build(alloc, feed, &lines, zones, &walks, &scenario, &fare, K).map_err(|_| "a city".into())
}

/// The demand of rows.
pub fn demand_of(alloc: Global, rows: &str, zones: &Zones) -> Result<Demand, Fail>
    ensures among { IfOk result (λ demand. All (IsPairAmong (length zones.now.names)) demand.pairs) }
{
    let text = format!(in alloc; "origin,destination,trips\n{rows}")?;
    Demand::read(alloc, text.as_bytes(), zones).map_err(|_| "a demand".into())
}
