//! A city of two stops.

use feed_reader::{Feed, Files};
use gtfs_rows::Blob;
use std::alloc::Global;
use std::test::Fail;

// The stops are A and B, by the numbers 0 and 1; S is a station and none of them.
const FILES: [(u32, &str); 5] = [
    (0, "stop_id,location_type\nA,0\nS,1\nB,0\n"),
    (1, "route_id\nR1\n"),
    (3, "service_id,date,exception_type\nD,20250602,1\n"),
    (4, "route_id,service_id,trip_id\n"),
    (
        5,
        "trip_id,arrival_time,departure_time,stop_id,stop_sequence\n",
    ),
];

/// The feed of the city.
pub fn small_city(alloc: Global) -> Result<Feed, Fail> {
    let mut files = Files::none();
    for (place, text) in FILES {
        put(alloc, &mut files, place, text)?;
    }
    Feed::read(alloc, &files).map_err(|_| "a feed".into())
}

// Puts a short file at a place below 8.
fn put(alloc: Global, files: &mut Files, place: u32, text: &str) -> Result<(), Fail> {
    let bytes = text.as_bytes().to_vec(alloc)?;
    if bytes.as_slice().len() > 1000 || place > 7 {
        return Err("a short file at a place".into());
    }
    files.set(place, Blob::new(bytes));
    Ok(())
}
