//! The lines of small feeds, worked out by docs/FORMATS.md.

use super::*;
use crate::fault::Limit;
use crate::line::{Line, LinePlace};
use feed_reader::Files;
use gtfs_rows::Blob;
use std::process::Abort;
use std::test::Fail;

const STOPS: &str = "stop_id\nA\nB\nC\nD\n";

const ROUTES: &str = "route_id\nR1\nR2\n";

const CALENDAR: &str = "\
service_id,monday,tuesday,wednesday,thursday,friday,saturday,sunday,start_date,end_date
WK,1,1,1,1,1,0,0,20250101,20251231
SA,0,0,0,0,0,1,0,20250101,20251231
";

// The trips out1 and out2 are of one line, to3 lets nobody board at A, on4 nobody alight at B.
const TRIPS: &str = "route_id,service_id,trip_id
R2,WK,across
R1,WK,out1
R1,WK,early
R1,SA,saturday
R1,WK,later
R1,WK,out2
R1,WK,to3
R1,WK,lone
R1,WK,on4
";

// The inner calls of across have no times: of 601 seconds the first comes after 200, the second
// after 400, both rounded down.
const CALLS: &str = "\
trip_id,arrival_time,departure_time,stop_id,stop_sequence,pickup_type,drop_off_type
across,07:00:00,07:00:00,A,1,0,0
across,,,B,2,0,0
across,,,C,3,0,0
across,07:10:01,07:10:01,D,4,0,0
out1,07:00:00,07:00:10,A,1,0,0
out1,07:01:50,07:02:00,B,2,0,0
early,06:59:59,06:59:59,A,1,0,0
early,07:30:00,07:30:00,B,2,0,0
saturday,07:00:00,07:00:00,A,1,0,0
saturday,07:30:00,07:30:00,B,2,0,0
later,07:00:00,07:00:00,A,1,0,0
later,07:30:00,07:30:00,B,2,0,0
out2,07:30:00,07:30:00,A,1,0,0
out2,07:31:41,07:31:41,B,2,0,0
to3,07:30:00,07:30:00,A,1,1,0
to3,07:31:00,07:31:00,B,2,0,0
lone,07:30:00,07:30:00,A,1,0,0
on4,07:59:59,07:59:59,A,1,0,0
on4,07:59:59,07:59:59,B,2,0,1
";

// Of out2 3600 * 1000 / 1200; the band of later begins as the window ends.
const BANDS: &str = "\
trip_id,start_time,end_time,headway_secs
later,08:00:00,09:00:00,60
out2,07:00:00,08:00:00,1200
";

// The feed of these trips, calls and bands.
fn feed_of(alloc: Global, trips: &str, calls: &str, bands: &str) -> Result<Feed, Fail> {
    let mut files = Files::none();
    put(alloc, &mut files, 0, STOPS)?;
    put(alloc, &mut files, 1, ROUTES)?;
    put(alloc, &mut files, 2, CALENDAR)?;
    put(alloc, &mut files, 4, trips)?;
    put(alloc, &mut files, 5, calls)?;
    put(alloc, &mut files, 6, bands)?;
    Feed::read(alloc, &files).map_err(|_| "a feed".into())
}

// Puts a file at a place below 8.
fn put(alloc: Global, files: &mut Files, place: u32, text: &str) -> Result<(), Fail> {
    let bytes = text.as_bytes().to_vec(alloc)?;
    if bytes.as_slice().len() > 1_000_000 || place > 7 {
        return Err("a short file at a place".into());
    }
    files.set(place, Blob::new(bytes));
    Ok(())
}

fn period(from: &str, to: &str) -> Result<Period, Fail> {
    Period::new("20250602", from, to).map_err(|_| "a period".into())
}

// A place where passengers may board and alight.
fn at(stop: u32) -> LinePlace {
    LinePlace {
        stop,
        pickup: true,
        drop: true,
    }
}

// That a line has these parts.
fn expect(
    rt: &impl Abort,
    line: &Line,
    route: u32,
    weight: u32,
    places: &[LinePlace],
    rides: &[u32],
    dwells: &[u32],
) {
    assert_eq!(rt; (line.route, line.weight), (route, weight));
    assert_eq!(rt; line.places.as_slice(), places);
    assert_eq!(rt; line.rides.as_slice(), rides);
    assert_eq!(rt; line.dwells.as_slice(), dwells);
}

// The ride of out1 is 100 seconds and that of out2 101: (1000 * 100 + 3000 * 101) / 4000 is 100.75.
#[test]
fn lines_are_the_counted_trips_of_one_route_and_pattern(rt: HostRuntime) -> Result<(), Fail> {
    let feed = feed_of(rt.alloc(), TRIPS, CALLS, BANDS)?;
    let period = period("07:00:00", "08:00:00")?;
    let found = lines(rt.alloc(), &feed, &period)?;
    assert_eq!(rt; found.counted(), 5);
    let list = found.list();
    assert_eq!(rt; list.len(), 4);
    let across = [at(0), at(1), at(2), at(3)];
    expect(
        &rt,
        &list[0],
        1,
        1000,
        &across,
        &[200_000, 200_000, 201_000],
        &[1, 1],
    );
    expect(&rt, &list[1], 0, 4000, &[at(0), at(1)], &[100_750], &[]);
    let no_pickup = LinePlace {
        stop: 0,
        pickup: false,
        drop: true,
    };
    expect(&rt, &list[2], 0, 1000, &[no_pickup, at(1)], &[60_000], &[]);
    let no_drop = LinePlace {
        stop: 1,
        pickup: true,
        drop: false,
    };
    expect(&rt, &list[3], 0, 1000, &[at(0), no_drop], &[1], &[]);
    Ok(())
}

// A ride from 0:00:00 on, of so many hours, minutes and seconds.
fn ride(alloc: Global, end: &str) -> Result<Result<Lines, LineFault>, Fail> {
    let mut calls = String::from_str(
        alloc,
        "trip_id,arrival_time,departure_time,stop_id,stop_sequence\n",
    )?;
    calls.push_str("t,00:00:00,00:00:00,A,1\nt,")?;
    calls.push_str(end)?;
    calls.push_str(",")?;
    calls.push_str(end)?;
    calls.push_str(",B,2\n")?;
    let trips = "route_id,service_id,trip_id\nR1,WK,t\n";
    let bands = "trip_id,start_time,end_time,headway_secs\n";
    let feed = feed_of(alloc, trips, calls.as_str(), bands)?;
    let period = period("00:00:00", "00:00:01")?;
    Ok(lines(alloc, &feed, &period))
}

// 277:46:40 is 1,000,000 seconds.
#[test]
fn a_ride_is_within_its_limit(rt: HostRuntime) -> Result<(), Fail> {
    let most = ride(rt.alloc(), "277:46:40")??;
    assert_eq!(rt; most.list().len(), 1);
    expect(
        &rt,
        &most.list()[0],
        0,
        1000,
        &[at(0), at(1)],
        &[1_000_000_000],
        &[],
    );
    let past = ride(rt.alloc(), "277:46:41")?.err().ok_or("a fault")?;
    let want = LineFault::Range {
        limit: Limit::Cost,
        count: 1_000_001_000,
    };
    assert_eq!(rt; past, want);
    Ok(())
}

// Each band has a departure in each of 172,800 seconds; 24 of them weigh 4,147,200,000.
#[test]
fn a_weight_is_within_its_limit(rt: HostRuntime) -> Result<(), Fail> {
    let trips = "route_id,service_id,trip_id\nR1,WK,t\n";
    let calls = "trip_id,arrival_time,departure_time,stop_id,stop_sequence\n\
        t,00:00:00,00:00:00,A,1\nt,400:00:00,400:00:00,B,2\n";
    let mut bands = String::from_str(rt.alloc(), "trip_id,start_time,end_time,headway_secs\n")?;
    for _ in 0..25 {
        bands.push_str("t,00:00:00,48:00:00,1\n")?;
    }
    let feed = feed_of(rt.alloc(), trips, calls, bands.as_str())?;
    let past = lines(rt.alloc(), &feed, &period("00:00:00", "48:00:00")?)
        .err()
        .ok_or("a fault")?;
    let want = LineFault::Range {
        limit: Limit::Weight,
        count: 4_320_000_000,
    };
    assert_eq!(rt; past, want);
    Ok(())
}
