//! Files that are not there, or whose header is not good.

use super::*;

// The files of the small city without that at a place.
fn city_without(alloc: Global, missing: u32) -> Result<Files, Fail> {
    let mut files = Files::none();
    for (place, text) in CITY {
        if place != missing {
            put(alloc, &mut files, place, text)?;
        }
    }
    Ok(files)
}

// Whether the small city without the file at a place is refused, as the file of this name is missing.
fn is_missing(alloc: Global, place: u32, name: &str) -> Result<bool, Fail> {
    let files = city_without(alloc, place)?;
    let fault = fault_of(alloc, &files)?;
    Ok(is_without(&fault, name))
}

// Whether a fault says that the file of a name is missing.
fn is_without(fault: &FeedFault, name: &str) -> bool {
    match fault {
        FeedFault::MissingFile(file) => file.as_str() == name,
        _ => false,
    }
}

const NEEDED: [(u32, &str); 5] = [
    (0, "stops.txt"),
    (1, "routes.txt"),
    (2, "calendar.txt"),
    (4, "trips.txt"),
    (5, "stop_times.txt"),
];

#[test]
fn a_file_that_has_to_be_there_is_missing(rt: HostRuntime) -> Result<(), Fail> {
    for (place, name) in NEEDED {
        assert!(rt; is_missing(rt.alloc(), place, name)?, "{name}");
    }
    Ok(())
}

#[test]
fn other_files_need_not_be_there(rt: HostRuntime) -> Result<(), Fail> {
    let files = city_without(rt.alloc(), 6)?;
    let feed = feed_of(rt.alloc(), &files)?;
    assert_eq!(rt; feed.bands().len(), 0);
    // Of the two calendars one is enough.
    let mut files = city_without(rt.alloc(), 2)?;
    put(
        rt.alloc(),
        &mut files,
        3,
        "service_id,date,exception_type\n",
    )?;
    let feed = feed_of(rt.alloc(), &files)?;
    assert_eq!(rt; feed.weeks().len(), 0);
    assert_eq!(rt; feed.services().len(), 1);
    Ok(())
}

// The first column of each file.
const COLUMNS: [(u32, &str); 8] = [
    (0, "stop_id"),
    (1, "route_id"),
    (2, "service_id"),
    (3, "service_id"),
    (4, "route_id"),
    (5, "trip_id"),
    (6, "trip_id"),
    (7, "from_stop_id"),
];

#[test]
fn a_column_is_missing(rt: HostRuntime) -> Result<(), Fail> {
    for (place, column) in COLUMNS {
        let want = (1, column, "");
        let is = has_fault(rt.alloc(), place, "x\n1\n", Kind::MissingColumn, want)?;
        assert!(rt; is, "at {place}");
    }
    Ok(())
}
