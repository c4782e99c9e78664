//! Untimed calls, and trips that are set aside.

use super::*;

const STOPS: &str = "stop_id\nA\nB\nC\nD\n";

const TRIPS: &str = "\
route_id,service_id,trip_id
R1,WK,first
R1,WK,open
R2,WK,across
";

// The last call of open has no time.
const UNTIMED: &str = "\
trip_id,arrival_time,departure_time,stop_id,stop_sequence,pickup_type,drop_off_type
first,07:00:00,,A,1,1,
first,,07:10:00,B,2,,1
open,07:00:00,07:00:00,A,1,,
open,,,B,2,,
across,07:00:00,07:00:00,A,1,,
across,,,B,2,,
across,,,C,3,,
across,07:10:01,07:10:01,D,4,,
";

const UNTIMED_BANDS: &str = "\
trip_id,start_time,end_time,headway_secs,exact_times
open,07:00:00,08:00:00,60,0
across,07:00:00,08:00:00,90,1
";

fn untimed(alloc: Global) -> Result<Feed, Fail> {
    let mut files = city_with(alloc, 0, STOPS)?;
    put(alloc, &mut files, 4, TRIPS)?;
    put(alloc, &mut files, 5, UNTIMED)?;
    put(alloc, &mut files, 6, UNTIMED_BANDS)?;
    feed_of(alloc, &files)
}

// From 07:00:00, second 25200, to 07:10:01 it is 601 seconds: a third of them is 200, and two thirds
// are 400, both rounded down.
#[test]
fn untimed_calls_are_spread_evenly(rt: HostRuntime) -> Result<(), Fail> {
    let feed = untimed(rt.alloc())?;
    assert_eq!(rt; calls_of(&feed, 1), 4);
    assert!(rt; is_call(&feed, 1, 0, 0, 25_200));
    assert!(rt; is_call(&feed, 1, 1, 1, 25_400));
    assert!(rt; is_call(&feed, 1, 2, 2, 25_600));
    assert!(rt; is_call(&feed, 1, 3, 3, 25_801));
    Ok(())
}

// The trips that are left are numbered without it, also in the bands.
#[test]
fn a_trip_without_an_end_is_set_aside(rt: HostRuntime) -> Result<(), Fail> {
    let feed = untimed(rt.alloc())?;
    assert_eq!(rt; feed.aside().trips, 1);
    assert_eq!(rt; feed.trips().len(), 2);
    assert!(rt; is_trip(&feed, 0, "first", 0, 0));
    assert!(rt; is_trip(&feed, 1, "across", 1, 0));
    let band = Band {
        trip: 1,
        begins: 25_200,
        ends: 28_800,
        headway: 90,
        exact: true,
    };
    assert!(rt; feed.bands() == [band].as_slice());
    Ok(())
}

// One time of a row stands for both. Nobody may board where the first field is 1, and nobody may
// alight where the second is.
#[test]
fn one_time_and_the_flags_of_a_call(rt: HostRuntime) -> Result<(), Fail> {
    let feed = untimed(rt.alloc())?;
    let first = Call {
        stop: 0,
        arrival: 25_200,
        departure: 25_200,
        pickup: false,
        drop: true,
    };
    assert!(rt; call_at(&feed, 0, 0) == Some(first));
    let second = Call {
        stop: 1,
        arrival: 25_800,
        departure: 25_800,
        pickup: true,
        drop: false,
    };
    assert!(rt; call_at(&feed, 0, 1) == Some(second));
    Ok(())
}
