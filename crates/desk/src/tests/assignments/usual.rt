//! A city of usual shape: six routes that run both ways over forty stops, and eight zones.

ghost use Rattle.std.specs.Prelude.{◌<◌, ◌≤◌};

use super::super::city::expect_city;
use super::super::running::Ending;
use std::alloc::{AllocError, Global};
use std::fmt::Write;
use std::test::Fail;

// Each zone is at a stop of its own.
const ZONES: &str = "zone_id,stop_id,walk_secs
1,S5,180
2,S10,180
3,S15,180
4,S20,180
5,S25,180
6,S30,180
7,S35,180
8,S0,180
";

const WORDS: &str = "assign f --date 20250602 --from 07:00:00 --to 09:00:00 --zones z --demand d";

const CALENDAR: &str =
    "service_id,monday,tuesday,wednesday,thursday,friday,saturday,sunday,start_date,end_date
WK,1,1,1,1,1,0,0,20250101,20251231
";

// 16 nodes of zones, 80 of stops and 22 for each of 12 lines. In two hours the routes depart 11,
// 10, 9, 9, 8 and 7 times each way. The greatest wait is 10000 * 50 * 7200 / 7000. Each of 56 pairs
// has 12.5 trips. The slack is 80 * (700000000 + 2 * 514286 * 8). Boardings, transfers, cost and
// bound were computed by a second program from the definitions of docs/FORMATS.md.
const SUMMARY: &str = "nodes 360
arcs 672
zones 8
lines 12
trips-counted 108
trips-aside 0
transfers-aside 0
pairs 56
inside-zone 0
digits-dropped 0
boarding-stops 80
longest-wait 514286
destinations 8
units 700000000
boardings 1127317708
transfers 427317708
cost 1582274753799661
bound 1582274675000000
gap 78799661
slack 56658286080
";

#[test]
fn assigns_a_city_of_usual_shape(rt: HostRuntime) -> Result<(), Fail> {
    let rows = Rows::all(rt.alloc())?;
    let stops = stops(rt.alloc())?;
    let demand = demand(rt.alloc())?;
    let files = [
        ("f/stops.txt", stops.as_str()),
        ("f/routes.txt", "route_id\nR1\nR2\nR3\nR4\nR5\nR6\n"),
        ("f/calendar.txt", CALENDAR),
        ("f/trips.txt", rows.trips.as_str()),
        ("f/stop_times.txt", rows.calls.as_str()),
        ("z", ZONES),
        ("d", demand.as_str()),
    ];
    expect_city(&rt, &files, WORDS, Ending::printed(SUMMARY))?;
    Ok(())
}

// The stops S0 to S39.
fn stops(alloc: Global) -> Result<String, AllocError> {
    let mut text = String::from_str(alloc, "stop_id\n")?;
    for stop in 0..40u32 {
        writeln!(text, "S{stop}")?;
    }
    Ok(text)
}

// 12.5 trips for each pair of two zones.
fn demand(alloc: Global) -> Result<String, AllocError> {
    let mut text = String::from_str(alloc, "origin,destination,trips\n")?;
    for origin in 1..9u32 {
        for destination in 1..9u32 {
            if origin != destination {
                writeln!(text, "{origin},{destination},12.5")?;
            }
        }
    }
    Ok(text)
}

// The rows of trips.txt, and those of stop_times.txt.
#[derive(Drop)]
struct Rows {
    trips: String,
    calls: String,
}

impl Rows {
    // The trips of all routes, from 5 to 23 hours, there and back.
    fn all(alloc: Global) -> Result<Rows, AllocError> {
        let mut rows = Rows::new(alloc)?;
        for route in 1..7u32 {
            for minute in 300..1380u32 {
                if departs(route, minute) {
                    rows.push_trip(route, false, minute)?;
                    rows.push_trip(route, true, minute)?;
                }
            }
        }
        Ok(rows)
    }

    // The two headers.
    fn new(alloc: Global) -> Result<Rows, AllocError> {
        Ok(Rows {
            trips: String::from_str(alloc, "route_id,service_id,trip_id\n")?,
            calls: String::from_str(
                alloc,
                "trip_id,arrival_time,departure_time,stop_id,stop_sequence\n",
            )?,
        })
    }

    // Adds a trip that departs in a minute, there or back.
    fn push_trip(&mut self, route: u32, back: bool, minute: u32) -> Result<(), AllocError>
        requires route { route < 100 }
        requires minute { minute < 1440 }
    {
        writeln!(self.trips, "R{route},WK,{route}-{back}-{minute}")?;
        for call in 0..12u32 {
            let stop = stop_of(route, if back { 11 - call } else { call });
            write!(self.calls, "{route}-{back}-{minute},")?;
            self.push_time(call, minute)?;
            writeln!(self.calls, "S{stop},{call}")?;
        }
        Ok(())
    }

    // Adds the two times of a call: only the first, the sixth and the last have one, after 0, 10
    // and 22 minutes.
    fn push_time(&mut self, call: u32, minute: u32) -> Result<(), AllocError>
        requires minute { minute < 1440 }
    {
        let minute = match call {
            0 => minute,
            5 => minute + 10,
            11 => minute + 22,
            _ => return self.calls.push_str(",,"),
        };
        let hour = minute / 60;
        let rest = minute % 60;
        write!(self.calls, "{hour}:{rest:02}:00,{hour}:{rest:02}:00,")
    }
}

// The stop of a call of a route: they are three apart.
fn stop_of(route: u32, call: u32) -> u32
    requires route { route < 100 }
    requires call { call < 100 }
{
    (5 * route + 3 * call) % 40
}

// Whether the trips of a route depart in a minute: every 10 minutes and as many as its number.
fn departs(route: u32, minute: u32) -> bool
    requires route { route < 100 }
    requires minute { 300 ≤ minute }
{
    (minute - 300) % (10 + route) == 0
}
