//! Skims of small cities, worked out by hand.

ghost use Rattle.std.specs.Prelude.{◌≡◌, ◌<◌, ◌≤◌, All, IfOk, length};
ghost use Rattle.demand.specs.Laws.{IsLinkAmong, IsWalkAmong};
ghost use Rattle.demand.specs.declared.limits.TheConstants.{ZONE_LIMIT};
ghost use Rattle.headways.specs.Laws.{IsLineOf};
ghost use Rattle.label_setting.specs.Workspace as labels;
ghost use Rattle.scenarios.specs.Feeds.{IsOfFeed};
ghost use Rattle.skims.specs.Skims.{IsRoomFor};

use super::*;
use demand::{Walks, Zones};
use feed_reader::{Feed, Files};
use gtfs_rows::Blob;
use headways::{Lines, lines};
use label_setting::labels;
use network::build;
use scenarios::{Layer, Scenario, TimeFare};
use service_period::Period;
use std::test::Fail;

// Half of a headway of an hour: 10000 * 50 * 3600.
const K: u64 = 1_800_000_000;

const STOPS: &str = "stop_id\nA\nB\n";

// Stops of which two belong to one station.
const STATION: &str = "\
stop_id,location_type,parent_station
A,,
S,1,
P1,,S
P2,,S
C,,
";

const CALLS: &str = "\
trip_id,arrival_time,departure_time,stop_id,stop_sequence
t1,06:00:00,06:00:00,A,1
t1,06:10:00,06:10:00,B,2
t2,06:00:00,06:00:00,A,1
t2,06:14:00,06:14:00,B,2
";

// The second ride takes 750 seconds.
const OTHER_CALLS: &str = "\
trip_id,arrival_time,departure_time,stop_id,stop_sequence
t1,06:00:00,06:00:00,A,1
t1,06:10:00,06:10:00,B,2
t2,06:00:00,06:00:00,A,1
t2,06:12:30,06:12:30,B,2
";

// One line leads to the station, and the other one on from it.
const STATION_CALLS: &str = "\
trip_id,arrival_time,departure_time,stop_id,stop_sequence
t1,06:00:00,06:00:00,A,1
t1,06:10:00,06:10:00,P1,2
t2,06:00:00,06:00:00,P2,1
t2,06:10:00,06:10:00,C,2
";

const ZONES: &str = "zone_id,stop_id,walk_secs\nX,A,60\nY,B,30\n";

const STATION_ZONES: &str = "zone_id,stop_id,walk_secs\nX,A,60\nY,C,30\n";

// The bands of two trips with these headways in seconds.
fn bands(alloc: Global, one: u32, other: u32) -> Result<String, Fail> {
    let text = format!(in alloc;
        "\
trip_id,start_time,end_time,headway_secs
t1,06:00:00,22:00:00,{one}
t2,06:00:00,22:00:00,{other}
"
    )?;
    Ok(text)
}

// The feed of two routes with one trip each.
fn feed_of(alloc: Global, stops: &str, calls: &str, bands: &str) -> Result<Feed, Fail> {
    let mut files = Files::none();
    put(alloc, &mut files, 0, stops)?;
    put(alloc, &mut files, 1, "route_id\nR1\nR2\n")?;
    put(
        alloc,
        &mut files,
        3,
        "service_id,date,exception_type\nD,20250602,1\n",
    )?;
    put(
        alloc,
        &mut files,
        4,
        "route_id,service_id,trip_id\nR1,D,t1\nR2,D,t2\n",
    )?;
    put(alloc, &mut files, 5, calls)?;
    put(alloc, &mut files, 6, bands)?;
    Feed::read(alloc, &files).map_err(|_| "a feed".into())
}

// Puts a short file at a place below 8.
fn put(alloc: Global, files: &mut Files, place: u32, text: &str) -> Result<(), Fail> {
    let bytes = text.as_bytes().to_vec(alloc)?;
    if bytes.as_slice().len() > 1000 || place > 7 {
        return Err("a short file at a place".into());
    }
    files.set(place, Blob::new(bytes));
    Ok(())
}

// The lines of the feed in an hour.
fn lines_of(alloc: Global, feed: &Feed) -> Result<Lines, Fail>
    ensures laws { IfOk result (λ found. All (IsLineOf feed.now) found.lines) }
{
    let period = Period::new("20250602", "07:00:00", "08:00:00").map_err(|_| "a period")?;
    lines(alloc, feed, &period).map_err(|_| "lines".into())
}

// The zones of the table.
fn zones_of(alloc: Global, rows: &str, feed: &Feed) -> Result<Zones, Fail>
    ensures few { IfOk result (λ zones. length zones.names ≤ ZONE_LIMIT) }
    ensures links { IfOk result (λ zones.
        All (IsLinkAmong (length zones.names) (length feed.now.stops)) zones.links) }
{
    Zones::read(alloc, rows.as_bytes(), feed).map_err(|_| "zones".into())
}

// The plain scenario.
fn scenario_of(alloc: Global, feed: &Feed) -> Result<Scenario, Fail>
    ensures size { IfOk result (IsOfFeed feed.now) }
{
    Scenario::read(alloc, b"edit,target,value\n", feed).map_err(|_| "a scenario".into())
}

// No walks.
fn no_walks(alloc: Global, feed: &Feed) -> Walks
    ensures among { All (IsWalkAmong (length feed.now.stops)) result }
{
    let _stops = feed.stops();
    Walks::none(alloc)
}

// The city of a feed with these zones.
fn built(alloc: Global, feed: &Feed, zones: &str) -> Result<CityNet, Fail> {
    let lines = lines_of(alloc, feed)?;
    let zones = zones_of(alloc, zones, feed)?;
    let scenario = scenario_of(alloc, feed)?;
    let fare = TimeFare::new(&scenario, |route: u32, layer: Layer| {
        scenario.ticks(route, layer)
    });
    let walks = no_walks(alloc, feed);
    build(alloc, feed, &lines, &zones, &walks, &scenario, &fare, K).map_err(|_| "a city".into())
}

// The skims of X and of Y to each of the two.
fn skims_of(alloc: Global, city: &CityNet) -> Result<[[Option<Skim>; 2]; 2], Fail> {
    let mut ws = Workspace::new(alloc, city.net())?;
    let mut space = SkimSpace::new(alloc, city)?;
    if city.zones() != 2 {
        return Err("two zones".into());
    }
    let to_first = filled(city, 0, &mut ws, &mut space);
    let to_second = filled(city, 1, &mut ws, &mut space);
    Ok([to_first, to_second])
}

// The skims of two zones to one of them, in used room.
fn filled(city: &CityNet, zone: u32, ws: &mut Workspace, space: &mut SkimSpace) -> [Option<Skim>; 2]
    requires zone { zone < city.now.zones }
    requires two { 2 ≤ city.now.zones }
    requires room { IsRoomFor city.now space.old }
    requires labels { labels.IsRoomFor city.now.net ws.old }
    ensures room { IsRoomFor city.now space.new }
    ensures labels { labels.IsRoomFor city.now.net ws.new }
{
    labels(city.net(), city.goal(zone), ws);
    fill(city, zone, ws, space);
    [space.row(0), space.row(1)]
}

// A skim on foot alone.
fn on_foot(ticks: u64) -> Option<Skim> {
    Some(Skim {
        label: ticks,
        walk: ticks,
        wait: 0,
        ride: 0,
        board: 0,
    })
}

#[test]
fn a_label_is_what_is_walked_waited_ridden_and_boarded(rt: HostRuntime) -> Result<(), Fail> {
    // Weights of 6000 and 4000, and rides of 600 and 840 seconds.
    let bands = bands(rt.alloc(), 600, 900)?;
    let feed = feed_of(rt.alloc(), STOPS, CALLS, bands.as_str())?;
    let city = built(rt.alloc(), &feed, ZONES)?;
    let skims = skims_of(rt.alloc(), &city)?;
    // No line leads back: from Y to X no way leads, and X itself is two walks away.
    assert_eq!(rt; skims[0], [on_foot(120_000), None]);
    // 60 + 30 seconds on foot, 1800000000 / 10000 ticks of wait, 0.6 * 600000 + 0.4 * 840000.
    let skim = Skim {
        label: 966_002,
        walk: 90_000,
        wait: 180_000,
        ride: 696_000,
        board: 2,
    };
    assert_eq!(rt; skims[1], [Some(skim), on_foot(60_000)]);
    Ok(())
}

#[test]
fn parts_are_rounded_down_apart(rt: HostRuntime) -> Result<(), Fail> {
    // Weights of 8571 and 4000. The wait is 143186.69.. ticks, and the mean ride of 600000 and
    // 750000 is 647728.89..: together with 90002 they are the label 880917, but each alone is
    // rounded down.
    let bands = bands(rt.alloc(), 420, 900)?;
    let feed = feed_of(rt.alloc(), STOPS, OTHER_CALLS, bands.as_str())?;
    let city = built(rt.alloc(), &feed, ZONES)?;
    let skims = skims_of(rt.alloc(), &city)?;
    let skim = Skim {
        label: 880_917,
        walk: 90_000,
        wait: 143_186,
        ride: 647_728,
        board: 2,
    };
    assert_eq!(rt; skims[1][0], Some(skim));
    Ok(())
}

#[test]
fn a_transfer_adds_a_wait_a_walk_and_a_boarding(rt: HostRuntime) -> Result<(), Fail> {
    // Weights of 6000: each of two waits takes 300000 ticks. The walk in the station takes 120
    // seconds beside those of 60 and 30.
    let bands = bands(rt.alloc(), 600, 600)?;
    let feed = feed_of(rt.alloc(), STATION, STATION_CALLS, bands.as_str())?;
    let city = built(rt.alloc(), &feed, STATION_ZONES)?;
    let skims = skims_of(rt.alloc(), &city)?;
    let skim = Skim {
        label: 2_010_004,
        walk: 210_000,
        wait: 600_000,
        ride: 1_200_000,
        board: 4,
    };
    assert_eq!(rt; skims[1][0], Some(skim));
    Ok(())
}

#[test]
fn no_node_has_a_skim_before_a_zone_is_filled(rt: HostRuntime) -> Result<(), Fail> {
    let bands = bands(rt.alloc(), 600, 900)?;
    let feed = feed_of(rt.alloc(), STOPS, CALLS, bands.as_str())?;
    let city = built(rt.alloc(), &feed, ZONES)?;
    let space = SkimSpace::new(rt.alloc(), &city)?;
    assert!(rt; city.zones() > 0);
    assert_eq!(rt; space.row(0), None);
    Ok(())
}
