//! A city of usual shape: six routes among forty stops, each in both directions.

ghost use Rattle.std.specs.Prelude.{◌<◌, ◌≤◌};

use super::city::{TEXTS, WEEK};
use super::{Texts, put, written};
use feed_reader::Files;
use std::alloc::{AllocError, Global};
use std::fmt::Write;
use std::test::Fail;

// Each zone is at a stop of its own.
const ZONES: &str = "\
zone_id,stop_id,walk_secs
1,S5,180
2,S10,180
3,S15,180
4,S20,180
5,S25,180
6,S30,180
7,S35,180
8,S0,180
";

// The stops of a trip.
const CALLS: u32 = 12;

// The stop of a call of a route: they are three apart.
fn stop_of(route: u32, call: u32) -> u32
    requires route { route < 100 }
    requires call { call < 100 }
{
    (5 * route + 3 * call) % 40
}

// Whether the trips of a route depart in a minute: every 10 minutes and as many as its number.
fn departs(route: u32, minute: u32) -> bool
    requires route { route < 100 }
    requires minute { 300 ≤ minute }
{
    (minute - 300) % (10 + route) == 0
}

// The rows of trips.txt, and those of stop_times.txt.
#[derive(Drop)]
struct Rows {
    trips: String,
    calls: String,
}

impl Rows {
    // The two headers.
    fn new(alloc: Global) -> Result<Rows, AllocError> {
        Ok(Rows {
            trips: String::from_str(alloc, "route_id,service_id,trip_id\n")?,
            calls: String::from_str(
                alloc,
                "trip_id,arrival_time,departure_time,stop_id,stop_sequence\n",
            )?,
        })
    }

    // Adds a trip that departs in a minute, out or back.
    fn push_trip(&mut self, route: u32, back: bool, minute: u32) -> Result<(), AllocError>
        requires route { route < 100 }
        requires minute { minute < 1440 }
    {
        writeln!(self.trips, "R{route},WK,{route}-{back}-{minute}")?;
        for call in 0..CALLS {
            let place = if back { CALLS - 1 - call } else { call };
            let stop = stop_of(route, place);
            write!(self.calls, "{route}-{back}-{minute},")?;
            self.push_time(call, minute)?;
            writeln!(self.calls, "S{stop},{call}")?;
        }
        Ok(())
    }

    // Adds the two times of a call: only the first, the sixth and the last have one, after 0, 10
    // and 22 minutes.
    fn push_time(&mut self, call: u32, minute: u32) -> Result<(), AllocError>
        requires minute { minute < 1440 }
    {
        let minute = match call {
            0 => minute,
            5 => minute + 10,
            11 => minute + 22,
            _ => return self.calls.push_str(",,"),
        };
        let hour = minute / 60;
        let rest = minute % 60;
        write!(self.calls, "{hour}:{rest:02}:00,{hour}:{rest:02}:00,")
    }
}

// The trips of all routes, from 5 to 23 hours, with their calls.
fn all_rows(alloc: Global) -> Result<Rows, AllocError> {
    let mut rows = Rows::new(alloc)?;
    for route in 1..7 {
        for minute in 300..1380 {
            if departs(route, minute) {
                rows.push_trip(route, false, minute)?;
                rows.push_trip(route, true, minute)?;
            }
        }
    }
    Ok(rows)
}

// The ids of so many stops, or routes from 1 on.
fn ids(
    alloc: Global,
    header: &str,
    letter: char,
    from: u32,
    to: u32,
) -> Result<String, AllocError> {
    let mut text = String::from_str(alloc, header)?;
    for number in from..to {
        writeln!(text, "{letter}{number}")?;
    }
    Ok(text)
}

// As many trips between any two zones.
fn demand(alloc: Global) -> Result<String, AllocError> {
    let mut text = String::from_str(alloc, "origin,destination,trips\n")?;
    for origin in 1..9 {
        for destination in 1..9 {
            if origin != destination {
                writeln!(text, "{origin},{destination},12.5")?;
            }
        }
    }
    Ok(text)
}

// The files of the city.
fn usual_city(alloc: Global) -> Result<Files, Fail> {
    let rows = all_rows(alloc)?;
    let mut files = Files::none();
    put(
        alloc,
        &mut files,
        0,
        ids(alloc, "stop_id\n", 'S', 0, 40)?.as_str(),
    )?;
    put(
        alloc,
        &mut files,
        1,
        ids(alloc, "route_id\n", 'R', 1, 7)?.as_str(),
    )?;
    put(alloc, &mut files, 2, WEEK)?;
    put(alloc, &mut files, 4, rows.trips.as_str())?;
    put(alloc, &mut files, 5, rows.calls.as_str())?;
    Ok(files)
}

// The sizes follow from the shape: 2 * 8 + 2 * 40 nodes and 2 * 11 for each of 12 lines, and the
// least weight in two hours is that of 7 departures. Boardings, transfers, cost and bound are those
// that two other programs gave, written in other languages by the same rules.
const SUMMARY: &str = "\
nodes 360
arcs 672
zones 8
lines 12
trips-counted 108
trips-aside 0
transfers-aside 0
pairs 56
inside-zone 0
digits-dropped 0
boarding-stops 80
longest-wait 514286
destinations 8
units 700000000
boardings 1127317708
transfers 427317708
cost 1582274753799661
bound 1582274675000000
gap 78799661
slack 56658286080
";

#[test]
fn a_city_of_usual_shape(rt: HostRuntime) -> Result<(), Fail> {
    let files = usual_city(rt.alloc())?;
    let demand = demand(rt.alloc())?;
    let texts = Texts {
        zones: ZONES,
        demand: demand.as_str(),
        to: "09:00:00",
        ..TEXTS
    };
    let text = written(rt.alloc(), &files, &texts, 1000)?;
    assert_eq!(rt; text.as_str(), SUMMARY);
    Ok(())
}
