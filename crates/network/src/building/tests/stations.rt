//! Cities with walks between stops, and with lines of three stops.

use super::{BANDS, NO_EDITS, STOPS, TRANSFERS, built, feed_of, has_arcs};
use crate::city::CityNet;
use crate::kinds::ArcKind;
use std::alloc::Global;
use std::test::Fail;

// P1 and P2 belong to the station S.
const STATION_STOPS: &str = "\
stop_id,location_type,parent_station
S,1,
A,0,
P1,0,S
P2,0,S
C,0,
";

// Two rides of 600 seconds, of which the second begins where the first does not end.
const STATION_CALLS: &str = "\
trip_id,arrival_time,departure_time,stop_id,stop_sequence
t1,06:00:00,06:00:00,A,1
t1,06:10:00,06:10:00,P1,2
t2,06:00:00,06:00:00,P2,1
t2,06:10:00,06:10:00,C,2
";

const STATION_BANDS: &str = "\
trip_id,start_time,end_time,headway_secs
t1,06:00:00,22:00:00,600
t2,06:00:00,22:00:00,600
";

const BARRED: &str = "from_stop_id,to_stop_id,transfer_type\nP1,P2,3\n";

const STATION_ZONES: &str = "zone_id,stop_id,walk_secs\nX,A,60\nY,C,30\n";

// Two lines from A by B to A. At B nobody boards the first, which stays there for 60 seconds, and
// nobody alights from the second.
const ROUND_CALLS: &str = "\
trip_id,arrival_time,departure_time,stop_id,stop_sequence,pickup_type,drop_off_type
t1,06:00:00,06:00:00,A,1,0,0
t1,06:10:00,06:11:00,B,2,1,0
t1,06:20:00,06:20:00,A,3,0,0
t2,06:00:00,06:00:00,A,1,0,0
t2,06:14:00,06:14:00,B,2,0,1
t2,06:20:00,06:20:00,A,3,0,0
";

// The city of the station, with these transfers.
fn station_city(alloc: Global, transfers: &str) -> Result<CityNet, Fail> {
    let feed = feed_of(
        alloc,
        STATION_STOPS,
        STATION_CALLS,
        STATION_BANDS,
        transfers,
    )?;
    built(alloc, &feed, STATION_ZONES, NO_EDITS)?.map_err(|_| "a city".into())
}

// Zones X and Y are the nodes 0 to 3, A 4 and 5, P1 6 and 7, P2 8 and 9, C 10 and 11, the lines 12
// and 13, 14 and 15.
#[test]
fn walks_join_the_stops_of_a_station(rt: HostRuntime) -> Result<(), Fail> {
    let city = station_city(rt.alloc(), TRANSFERS)?;
    let arcs = [
        (0, 4, 60_000, None, ArcKind::Access),
        (1, 10, 30_000, None, ArcKind::Access),
        (4, 2, 60_000, None, ArcKind::Egress),
        (4, 12, 1, Some(6_000), ArcKind::BoardFirst),
        (5, 2, 60_000, None, ArcKind::Egress),
        (5, 12, 1, Some(6_000), ArcKind::BoardLater),
        (6, 8, 120_000, None, ArcKind::Walk),
        (7, 9, 120_000, None, ArcKind::Walk),
        (8, 6, 120_000, None, ArcKind::Walk),
        (8, 14, 1, Some(6_000), ArcKind::BoardFirst),
        (9, 7, 120_000, None, ArcKind::Walk),
        (9, 14, 1, Some(6_000), ArcKind::BoardLater),
        (10, 3, 30_000, None, ArcKind::Egress),
        (11, 3, 30_000, None, ArcKind::Egress),
        (12, 13, 600_000, None, ArcKind::Ride),
        (13, 7, 1, None, ArcKind::Alight),
        (14, 15, 600_000, None, ArcKind::Ride),
        (15, 11, 1, None, ArcKind::Alight),
    ];
    assert_eq!(rt; city.net().nodes(), 16);
    assert!(rt; has_arcs(&city, &arcs));
    Ok(())
}

// There is no walk from P1 to P2, but one back.
#[test]
fn a_barred_transfer_takes_the_walk_away(rt: HostRuntime) -> Result<(), Fail> {
    let city = station_city(rt.alloc(), BARRED)?;
    let arcs = [
        (0, 4, 60_000, None, ArcKind::Access),
        (1, 10, 30_000, None, ArcKind::Access),
        (4, 2, 60_000, None, ArcKind::Egress),
        (4, 12, 1, Some(6_000), ArcKind::BoardFirst),
        (5, 2, 60_000, None, ArcKind::Egress),
        (5, 12, 1, Some(6_000), ArcKind::BoardLater),
        (8, 6, 120_000, None, ArcKind::Walk),
        (8, 14, 1, Some(6_000), ArcKind::BoardFirst),
        (9, 7, 120_000, None, ArcKind::Walk),
        (9, 14, 1, Some(6_000), ArcKind::BoardLater),
        (10, 3, 30_000, None, ArcKind::Egress),
        (11, 3, 30_000, None, ArcKind::Egress),
        (12, 13, 600_000, None, ArcKind::Ride),
        (13, 7, 1, None, ArcKind::Alight),
        (14, 15, 600_000, None, ArcKind::Ride),
        (15, 11, 1, None, ArcKind::Alight),
    ];
    assert_eq!(rt; city.net().nodes(), 16);
    assert!(rt; has_arcs(&city, &arcs));
    Ok(())
}

// Y is at B, at a walk of no time, which takes a tick. The lines are the nodes 8 to 11 and 12 to 15.
#[test]
fn passengers_board_and_alight_where_they_may(rt: HostRuntime) -> Result<(), Fail> {
    let feed = feed_of(rt.alloc(), STOPS, ROUND_CALLS, BANDS, TRANSFERS)?;
    let zones = "zone_id,stop_id,walk_secs\nX,A,60\nY,B,0\n";
    let Ok(city) = built(rt.alloc(), &feed, zones, NO_EDITS)? else {
        return Err("a city".into());
    };
    let arcs = [
        (0, 4, 60_000, None, ArcKind::Access),
        (1, 6, 1, None, ArcKind::Access),
        (4, 2, 60_000, None, ArcKind::Egress),
        (4, 8, 1, Some(6_000), ArcKind::BoardFirst),
        (4, 12, 1, Some(4_000), ArcKind::BoardFirst),
        (5, 2, 60_000, None, ArcKind::Egress),
        (5, 8, 1, Some(6_000), ArcKind::BoardLater),
        (5, 12, 1, Some(4_000), ArcKind::BoardLater),
        (6, 3, 1, None, ArcKind::Egress),
        (6, 14, 1, Some(4_000), ArcKind::BoardFirst),
        (7, 3, 1, None, ArcKind::Egress),
        (7, 14, 1, Some(4_000), ArcKind::BoardLater),
        (8, 9, 600_000, None, ArcKind::Ride),
        (9, 10, 60_000, None, ArcKind::Dwell),
        (9, 7, 1, None, ArcKind::Alight),
        (10, 11, 540_000, None, ArcKind::Ride),
        (11, 5, 1, None, ArcKind::Alight),
        (12, 13, 840_000, None, ArcKind::Ride),
        (13, 14, 1, None, ArcKind::Dwell),
        (14, 15, 360_000, None, ArcKind::Ride),
        (15, 5, 1, None, ArcKind::Alight),
    ];
    assert_eq!(rt; city.net().nodes(), 16);
    assert!(rt; has_arcs(&city, &arcs));
    Ok(())
}
