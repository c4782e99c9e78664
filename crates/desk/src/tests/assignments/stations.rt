//! A city whose only way changes lines inside of a station.

use super::super::city::{ASSIGN, IN_SCENARIO, expect_city, with_file};
use super::super::running::Ending;
use super::super::texts::replaced_all;
use std::test::Fail;

// R1 leads from A to P1 and R2 from P2 to C, each in 600 seconds and every 600 seconds. P1 and P2
// have one parent, so 120 seconds lead from one to the other.
const STATIONS: [(&str, &str); 8] = [
    (
        "f/stops.txt",
        "stop_id,location_type,parent_station\nA,,\nP1,,S\nP2,,S\nC,,\nS,1,\n",
    ),
    ("f/routes.txt", "route_id\nR1\nR2\n"),
    (
        "f/calendar.txt",
        "service_id,monday,tuesday,wednesday,thursday,friday,saturday,sunday,start_date,end_date\nWK,1,1,1,1,1,0,0,20250101,20251231\n",
    ),
    (
        "f/trips.txt",
        "route_id,service_id,trip_id\nR1,WK,t1\nR2,WK,t2\n",
    ),
    (
        "f/stop_times.txt",
        "trip_id,arrival_time,departure_time,stop_id,stop_sequence
t1,06:00:00,06:00:00,A,1
t1,06:10:00,06:10:00,P1,2
t2,06:00:00,06:00:00,P2,1
t2,06:10:00,06:10:00,C,2
",
    ),
    (
        "f/frequencies.txt",
        "trip_id,start_time,end_time,headway_secs
t1,06:00:00,22:00:00,600
t2,06:00:00,22:00:00,600
",
    ),
    ("z", "zone_id,stop_id,walk_secs\nX,A,60\nY,C,30\n"),
    ("d", "origin,destination,trips\nX,Y,1\n"),
];

// Two nodes for each of two zones, four stops and two lines. From X: 60 seconds, then twice 300
// seconds of waiting, a tick to board, 600 seconds and a tick to alight, with 120 seconds between and
// 30 after: 2010004 ticks. The slack is 4 * (10^6 + 2 * 300000).
const SUMMARY: &str = "nodes 16
arcs 18
zones 2
lines 2
trips-counted 2
trips-aside 0
transfers-aside 0
pairs 1
inside-zone 0
digits-dropped 0
boarding-stops 4
longest-wait 300000
destinations 1
units 1000000
boardings 2000000
transfers 1000000
cost 2010004000000
bound 2010004000000
gap 0
slack 6400000
";

#[test]
fn changes_lines_inside_of_a_station(rt: HostRuntime) -> Result<(), Fail> {
    expect_city(&rt, &STATIONS, ASSIGN, Ending::printed(SUMMARY))?;
    Ok(())
}

#[test]
fn a_change_may_cost_time(rt: HostRuntime) -> Result<(), Fail> {
    let alloc = rt.alloc();
    // A million units pay 300 seconds in place of a tick for the second boarding.
    let lines = [
        ("cost 2010004000000\n", "cost 2310003000000\n"),
        ("bound 2010004000000\n", "bound 2310003000000\n"),
    ];
    let summary = replaced_all(alloc, SUMMARY, &lines)?;
    let edits = "edit,target,value\ntransfer,,300\n";
    let files = with_file(alloc, &STATIONS, "s", edits)?;
    expect_city(
        &rt,
        files.as_slice(),
        IN_SCENARIO,
        Ending::printed(summary.as_str()),
    )?;
    Ok(())
}

#[test]
fn a_change_may_be_barred(rt: HostRuntime) -> Result<(), Fail> {
    let transfers = "from_stop_id,to_stop_id,transfer_type\nP1,P2,3\n";
    let files = with_file(rt.alloc(), &STATIONS, "f/transfers.txt", transfers)?;
    let ending = Ending::refused(6, "error 6: unreachable X Y\n");
    expect_city(&rt, files.as_slice(), ASSIGN, ending)?;
    Ok(())
}

#[test]
fn a_table_of_walks_comes_before_transfers(rt: HostRuntime) -> Result<(), Fail> {
    let alloc = rt.alloc();
    // 60 seconds in place of 120, for each of a million units, though the change is barred.
    let lines = [
        ("cost 2010004000000\n", "cost 1950004000000\n"),
        ("bound 2010004000000\n", "bound 1950004000000\n"),
    ];
    let summary = replaced_all(alloc, SUMMARY, &lines)?;
    let transfers = "from_stop_id,to_stop_id,transfer_type\nP1,P2,3\n";
    let files = with_file(alloc, &STATIONS, "f/transfers.txt", transfers)?;
    let walks = "from_stop_id,to_stop_id,walk_secs\nP1,P2,60\n";
    let files = with_file(alloc, files.as_slice(), "w", walks)?;
    let words =
        "assign f --date 20250602 --from 07:00:00 --to 08:00:00 --zones z --demand d --walks w";
    expect_city(
        &rt,
        files.as_slice(),
        words,
        Ending::printed(summary.as_str()),
    )?;
    Ok(())
}
