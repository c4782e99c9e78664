//! The walks of a small feed, worked out by docs/FORMATS.md.

use super::*;
use feed_reader::Files;
use gtfs_rows::Blob;
use std::test::Fail;

// The stops A to F are numbered 0 to 5. A and B belong to the station P, C and D to Q, E and F to
// none.
const STOPS: &str = "\
stop_id,location_type,parent_station
P,1,
Q,1,
A,0,P
B,0,P
C,0,Q
D,0,Q
E,0,
F,0,
";

const TRIPS: &str = "route_id,service_id,trip_id\n";

const CALLS: &str = "trip_id,arrival_time,departure_time,stop_id,stop_sequence\n";

const CALENDAR: &str = "\
service_id,monday,tuesday,wednesday,thursday,friday,saturday,sunday,start_date,end_date
";

// Of two rows that cover a way the first decides: for E to F the seconds, for A to C the row of P and
// Q. The row from A to its own station gives no walk to A.
const TRANSFERS: &str = "\
from_stop_id,to_stop_id,transfer_type,min_transfer_time
E,F,2,50
E,F,3,
P,Q,2,300
A,C,2,10
C,D,3,
E,P,2,70
A,P,2,60
F,B,3,
";

// They decide over transfers.txt, and of the rows from B to F the least.
const WALKS: &str = "\
from_stop_id,to_stop_id,walk_secs
F,B,90
B,F,40
B,F,30
A,D,500
B,F,35
";

// Puts a file at a place below 8.
fn put(alloc: Global, files: &mut Files, place: u32, text: &str) -> Result<(), Fail> {
    let bytes = text.as_bytes().to_vec(alloc)?;
    if bytes.as_slice().len() > 1_000_000 || place > 7 {
        return Err("a short file at a place".into());
    }
    files.set(place, Blob::new(bytes));
    Ok(())
}

// The feed of these files.
fn feed_of(alloc: Global) -> Result<Feed, Fail> {
    let mut files = Files::none();
    put(alloc, &mut files, 0, STOPS)?;
    put(alloc, &mut files, 1, "route_id\n")?;
    put(alloc, &mut files, 2, CALENDAR)?;
    put(alloc, &mut files, 4, TRIPS)?;
    put(alloc, &mut files, 5, CALLS)?;
    put(alloc, &mut files, 7, TRANSFERS)?;
    Feed::read(alloc, &files).map_err(|_| "a feed".into())
}

// The walks between its stops.
fn walks_found(alloc: Global) -> Result<StopWalks, Fail> {
    let feed = feed_of(alloc)?;
    let Ok(walks) = Walks::read(alloc, WALKS.as_bytes(), &feed) else {
        return Err("walks".into());
    };
    stop_walks(alloc, &feed, &walks).map_err(|_| "walks".into())
}

// Whether these are the walks from a stop, each to a stop in some seconds.
fn leads(found: &StopWalks, from: u32, walks: &[(u32, u64)]) -> bool {
    if from as usize >= found.stops() {
        return false;
    }
    let list = found.of(from);
    list.len() == walks.len()
        && (0..list.len()).all(|place| {
            let walk = list[place];
            walk.from == from && (walk.to, walk.seconds) == walks[place]
        })
}

#[test]
fn each_stop_has_its_walks(rt: HostRuntime) -> Result<(), Fail> {
    let found = walks_found(rt.alloc())?;
    // C leads to D no more, though both belong to Q.
    let all: [&[(u32, u64)]; 6] = [
        &[(1, 60), (2, 300), (3, 500)],
        &[(0, 120), (2, 300), (3, 300), (5, 30)],
        &[],
        &[(2, 120)],
        &[(0, 70), (1, 70), (5, 50)],
        &[(1, 90)],
    ];
    for stop in 0..6 {
        assert!(rt;
            leads(&found, stop, all[stop as usize]),
            "the walks from {stop}"
        );
    }
    assert_eq!(rt; found.count(), 12);
    Ok(())
}
