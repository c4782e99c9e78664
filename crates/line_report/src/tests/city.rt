//! Small cities, made of the texts of their files.

ghost use Rattle.std.specs.Prelude.{◌≤◌, All, IfOk, length};
ghost use Rattle.demand.specs.Laws.{IsLinkAmong, IsWalkAmong};
ghost use Rattle.demand.specs.declared.limits.TheConstants.{ZONE_LIMIT};
ghost use Rattle.headways.specs.Laws.{IsLineOf};
ghost use Rattle.network.specs.Standing.{IsCityOf};
ghost use Rattle.scenarios.specs.Feeds.{IsOfFeed};

use demand::{Walks, Zones};
use feed_reader::{Feed, Files};
use gtfs_rows::Blob;
use headways::{Lines, lines};
use network::{CityNet, build};
use scenarios::{Layer, Scenario, TimeFare};
use service_period::Period;
use std::alloc::Global;
use std::test::Fail;

/// The texts of a city: stops, routes, trips, their calls and their headways, and its zones.
#[derive(Clone, Copy, Drop)]
pub(crate) struct Texts<'a> {
    pub stops: &'a str,
    pub routes: &'a str,
    pub trips: &'a str,
    pub calls: &'a str,
    pub bands: &'a str,
    pub zones: &'a str,
}

/// Two lines from A to B. The rides take 600 and 840 seconds. In an hour 3600 * 1000 / 600 and
/// 3600 * 1000 / 900 thousandths of departures are 6000 and 4000.
pub(crate) const TWO_LINES: Texts<'static> = Texts {
    stops: "stop_id\nA\nB\n",
    routes: "route_id\nR1\nR2\n",
    trips: "route_id,service_id,trip_id\nR1,D,t1\nR2,D,t2\n",
    calls: "trip_id,arrival_time,departure_time,stop_id,stop_sequence
t1,06:00:00,06:00:00,A,1
t1,06:10:00,06:10:00,B,2
t2,06:00:00,06:00:00,A,1
t2,06:14:00,06:14:00,B,2
",
    bands: "trip_id,start_time,end_time,headway_secs
t1,06:00:00,22:00:00,600
t2,06:00:00,22:00:00,900
",
    zones: "zone_id,stop_id,walk_secs\nX,A,60\nY,B,30\n",
};

/// A line from A to P1 and another one from P2, in the station of P1, to C. Each ride takes 600
/// seconds.
pub(crate) const A_CHANGE: Texts<'static> = Texts {
    stops: "stop_id,location_type,parent_station\nA,,\nS,1,\nP1,,S\nP2,,S\nC,,\n",
    routes: "route_id\nR1\nR2\n",
    trips: "route_id,service_id,trip_id\nR1,D,t1\nR2,D,t2\n",
    calls: "trip_id,arrival_time,departure_time,stop_id,stop_sequence
t1,06:00:00,06:00:00,A,1
t1,06:10:00,06:10:00,P1,2
t2,06:00:00,06:00:00,P2,1
t2,06:10:00,06:10:00,C,2
",
    bands: "trip_id,start_time,end_time,headway_secs
t1,06:00:00,22:00:00,600
t2,06:00:00,22:00:00,600
",
    zones: "zone_id,stop_id,walk_secs\nX,A,60\nY,C,30\n",
};

/// A line by three stops, of which the last one's id is written with quotes. It rides for 600 and
/// 540 seconds, and dwells for 60 between. The zones X and W are both at the first stop.
pub(crate) const THREE_STOPS: Texts<'static> = Texts {
    stops: "stop_id\nA\nB\n\"C,\"\"1\"\"\"\n",
    routes: "route_id\nR1\n",
    trips: "route_id,service_id,trip_id\nR1,D,t1\n",
    calls: "trip_id,arrival_time,departure_time,stop_id,stop_sequence
t1,06:00:00,06:00:00,A,1
t1,06:10:00,06:11:00,B,2
t1,06:20:00,06:20:00,\"C,\"\"1\"\"\",3
",
    bands: "trip_id,start_time,end_time,headway_secs\nt1,06:00:00,22:00:00,600\n",
    zones: "zone_id,stop_id,walk_secs\nX,A,60\nW,A,60\nY,B,60\nZ,\"C,\"\"1\"\"\",60\n",
};

// Half of a headway of an hour: 10000 * 50 * 3600.
const K: u64 = 1_800_000_000;

/// A city, with the feed and the lines of which it is.
#[derive(Drop)]
pub(crate) struct Sample {
    pub city: CityNet,
    pub feed: Feed,
    pub lines: Lines,
}

/// The city of these texts.
pub(crate) fn sample_of(alloc: Global, texts: &Texts) -> Result<Sample, Fail>
    ensures stands { IfOk result (λ sample. IsCityOf sample.city sample.feed sample.lines.lines) }
{
    let feed = feed_of(alloc, texts)?;
    let lines = lines_of(alloc, &feed)?;
    let zones = zones_of(alloc, texts.zones, &feed)?;
    let scenario = scenario_of(alloc, &feed)?;
    let fare = TimeFare::new(&scenario, |route: u32, layer: Layer| {
        scenario.ticks(route, layer)
    });
    let walks = no_walks(alloc, &feed);
    match build(alloc, &feed, &lines, &zones, &walks, &scenario, &fare, K) {
        Ok(city) => Ok(Sample { city, feed, lines }),
        Err(_) => Err("a city".into()),
    }
}

// The feed of the texts, of which each trip runs on the day.
fn feed_of(alloc: Global, texts: &Texts) -> Result<Feed, Fail> {
    let mut files = Files::none();
    put(alloc, &mut files, 0, texts.stops)?;
    put(alloc, &mut files, 1, texts.routes)?;
    put(
        alloc,
        &mut files,
        3,
        "service_id,date,exception_type\nD,20250602,1\n",
    )?;
    put(alloc, &mut files, 4, texts.trips)?;
    put(alloc, &mut files, 5, texts.calls)?;
    put(alloc, &mut files, 6, texts.bands)?;
    Feed::read(alloc, &files).map_err(|_| "a feed".into())
}

// Puts a short file at a place below 8.
fn put(alloc: Global, files: &mut Files, place: u32, text: &str) -> Result<(), Fail> {
    let bytes = text.as_bytes().to_vec(alloc)?;
    if bytes.as_slice().len() > 10_000 || place > 7 {
        return Err("a short file at a place".into());
    }
    files.set(place, Blob::new(bytes));
    Ok(())
}

// The zones of a table.
fn zones_of(alloc: Global, text: &str, feed: &Feed) -> Result<Zones, Fail>
    ensures few { IfOk result (λ zones. length zones.names ≤ ZONE_LIMIT) }
    ensures links { IfOk result (λ zones.
        All (IsLinkAmong (length zones.names) (length feed.now.stops)) zones.links) }
{
    Zones::read(alloc, text.as_bytes(), feed).map_err(|_| "zones".into())
}

// The lines of the feed in an hour.
fn lines_of(alloc: Global, feed: &Feed) -> Result<Lines, Fail>
    ensures laws { IfOk result (λ found. All (IsLineOf feed.now) found.lines) }
{
    let period = Period::new("20250602", "07:00:00", "08:00:00").map_err(|_| "a period")?;
    lines(alloc, feed, &period).map_err(|_| "lines".into())
}

// The plain scenario.
fn scenario_of(alloc: Global, feed: &Feed) -> Result<Scenario, Fail>
    ensures size { IfOk result (IsOfFeed feed.now) }
{
    Scenario::read(alloc, b"edit,target,value\n", feed).map_err(|_| "a scenario".into())
}

// No walks.
fn no_walks(alloc: Global, feed: &Feed) -> Walks
    ensures among { All (IsWalkAmong (length feed.now.stops)) result }
{
    let _stops = feed.stops();
    Walks::none(alloc)
}
