//! Feeds of folders in memory.

use super::*;
use desk_io::MemoryFolder;
use std::test::Fail;

// A file of a folder.
fn file(
    alloc: Global,
    path: &str,
    text: &str,
) -> Result<(desk_io::Name, desk_io::Blob), AllocError> {
    let name = desk_io::Name::new(String::from_str(alloc, path)?);
    Ok((name, desk_io::Blob::new(text.as_bytes().to_vec(alloc)?)))
}

// A folder f with 5 bytes of stops, 5 bytes of trips and a file that is not read, in which the calls
// of these numbers fail.
fn folder(alloc: Global, failing: &[u64]) -> Result<MemoryFolder, Fail> {
    let mut files = Vec::new(alloc);
    files.push(file(alloc, "f/trips.txt", "trips")?)?;
    files.push(file(alloc, "f/shapes.txt", "shapes")?)?;
    files.push(file(alloc, "f/stops.txt", "stops")?)?;
    files.push(file(alloc, "routes.txt", "routes")?)?;
    if !MemoryFolder::has_distinct_paths(&files) {
        return Err("distinct paths".into());
    }
    Ok(MemoryFolder::new(files, 4, failing.to_vec(alloc)?))
}

// Whether the file at a place below 8 has these bytes.
fn has(files: &Files, place: u32, want: &[u8]) -> bool {
    if place > 7 {
        return false;
    }
    match files.get(place) {
        Some(body) => body.as_slice() == want,
        None => false,
    }
}

#[test]
fn files_are_fetched_from_a_folder(rt: HostRuntime) -> Result<(), Fail> {
    let mut folder = folder(rt.alloc(), &[])?;
    let files = fetch(rt.alloc(), &mut folder, "f")?;
    assert!(rt; has(&files, 0, b"stops"));
    assert!(rt; has(&files, 4, b"trips"));
    assert!(rt; files.get(1).is_none() && files.get(7).is_none());
    assert_eq!(rt; files.length(), 10);
    Ok(())
}

// Call 0 begins stops.txt, and 1 to 3 read it: 4 bytes, 1 byte and none. Call 4 begins routes.txt,
// which the folder does not have.
#[test]
fn a_call_that_fails_is_a_read_fault(rt: HostRuntime) -> Result<(), Fail> {
    for call in 0..5 {
        let mut folder = folder(rt.alloc(), &[call])?;
        let fault = fetch(rt.alloc(), &mut folder, "f").err();
        assert_eq!(rt; fault, Some(FetchFault::ReadFault), "at {call}");
    }
    Ok(())
}

// The limits of a file and of all files, and what is answered of two files of 5 bytes.
const LIMITS: [(usize, u64, Option<FetchFault>); 4] = [
    (5, 10, None),
    (4, 10, Some(PAST_FILE)),
    (5, 9, Some(PAST_FILES)),
    (4, 4, Some(PAST_FILE)),
];

const PAST_FILE: FetchFault = FetchFault::Range {
    limit: FetchLimit::File,
    count: 5,
};

const PAST_FILES: FetchFault = FetchFault::Range {
    limit: FetchLimit::Files,
    count: 10,
};

#[test]
fn files_are_within_their_limits(rt: HostRuntime) -> Result<(), Fail> {
    for (of_file, of_files, want) in LIMITS {
        let mut folder = folder(rt.alloc(), &[])?;
        let found = fetch_within(rt.alloc(), &mut folder, "f", of_file, of_files);
        assert_eq!(rt; found.err(), want);
    }
    Ok(())
}
