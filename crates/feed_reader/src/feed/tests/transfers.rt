//! Transfers between stops and stations.

use super::*;

// E is an entrance, which is neither a stop nor a station.
const STOPS: &str = "\
stop_id,location_type,parent_station
A,0,S
T,1,
E,2,S
B,,E
S,1,
";

// Of these rows three are transfers. Two have a type that is of one vehicle alone, four are of a
// route or a trip, two lack a side, one has two equal sides, and one side is an entrance.
const TRANSFERS: &str = "\
from_stop_id,to_stop_id,transfer_type,min_transfer_time,from_route_id,to_route_id,from_trip_id,to_trip_id
A,B,2,,,,,
A,B,4,60,,,,
B,A,3,60,,,,
A,B,5,60,,,,
B,S,,90,,,,
A,B,,60,R1,,,
A,B,,60,,R1,,
A,B,,60,,,t1,
A,B,,60,,,,t1
,B,,60,,,,
A,,,60,,,,
A,A,,60,,,,
A,E,,60,,,,
";

fn joined(alloc: Global) -> Result<Feed, Fail> {
    let mut files = city_with(alloc, 0, STOPS)?;
    put(alloc, &mut files, 7, TRANSFERS)?;
    feed_of(alloc, &files)
}

// A is stop 0 and B stop 1, T is station 0 and S station 1.
#[test]
fn transfers_lead_from_side_to_side(rt: HostRuntime) -> Result<(), Fail> {
    let feed = joined(rt.alloc())?;
    let want = [
        transfer(Side::Stop(0), Side::Stop(1), false, 120),
        transfer(Side::Stop(1), Side::Stop(0), true, 60),
        transfer(Side::Stop(1), Side::Station(1), false, 90),
    ];
    assert!(rt; feed.transfers() == want.as_slice());
    assert_eq!(rt; feed.aside().transfers, 10);
    Ok(())
}

fn transfer(from: Side, to: Side, barred: bool, seconds: u64) -> Transfer {
    Transfer {
        from,
        to,
        barred,
        seconds,
    }
}

#[test]
fn a_stop_may_belong_to_a_station(rt: HostRuntime) -> Result<(), Fail> {
    let feed = joined(rt.alloc())?;
    assert!(rt; is_stop(&feed, 0, "A", Some(1)));
    assert!(rt; is_stop(&feed, 1, "B", None));
    assert_eq!(rt; feed.stops().len(), 2);
    Ok(())
}
