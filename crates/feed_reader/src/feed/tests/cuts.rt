//! The calls of the small city, cut off.

use super::*;

// Whether the city with this front of its calls is read, or refused for that file.
fn is_judged(alloc: Global, front: &str) -> Result<bool, Fail> {
    let files = city_with(alloc, 5, front)?;
    let fault = Feed::read(alloc, &files).err();
    Ok(is_none_or_of_calls(&fault))
}

fn is_none_or_of_calls(fault: &Option<FeedFault>) -> bool {
    match fault {
        Some(fault) => is_of_calls(fault),
        None => true,
    }
}

// Whether a fault has its place in stop_times.txt.
fn is_of_calls(fault: &FeedFault) -> bool {
    match place_of(fault) {
        Some(place) => place.file.as_str() == "stop_times.txt",
        None => false,
    }
}

#[test]
fn each_front_of_the_calls_is_read_or_refused(rt: HostRuntime) -> Result<(), Fail> {
    for cut in 0..=CALLS.len() {
        let front = CALLS.get(..cut).ok_or("a front")?;
        assert!(rt; is_judged(rt.alloc(), front)?, "at {cut}");
    }
    Ok(())
}
