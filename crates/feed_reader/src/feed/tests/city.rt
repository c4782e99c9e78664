//! The small city.

use super::*;
use gtfs_rows::date;
use std::process::Abort;

// That a feed has the lists of the small city. Its times are 6 hours, 10 minutes and 14 minutes
// later, and 22 hours: 21600, 22200, 22440 and 79200 seconds.
pub(super) fn expect_city(rt: &impl Abort, feed: &Feed) {
    expect_counts(rt, feed);
    expect_trips(rt, feed);
    expect_calls(rt, feed);
    expect_bands(rt, feed);
    expect_week(rt, feed);
}

fn expect_counts(rt: &impl Abort, feed: &Feed) {
    assert_eq!(rt; feed.stops().len(), 2);
    assert_eq!(rt; feed.routes().len(), 2);
    assert_eq!(rt; feed.services().len(), 1);
    assert_eq!(rt; feed.trips().len(), 2);
    assert_eq!(rt; feed.exceptions().len(), 0);
    assert_eq!(rt; feed.transfers().len(), 0);
    assert_eq!(rt; feed.aside().trips, 0);
}

fn expect_trips(rt: &impl Abort, feed: &Feed) {
    assert!(rt; is_stop(feed, 0, "A", None));
    assert!(rt; is_stop(feed, 1, "B", None));
    assert!(rt; is_trip(feed, 0, "t1", 0, 0));
    assert!(rt; is_trip(feed, 1, "t2", 1, 0));
}

fn expect_calls(rt: &impl Abort, feed: &Feed) {
    assert_eq!(rt; calls_of(feed, 0), 2);
    assert!(rt; is_call(feed, 0, 0, 0, 21_600));
    assert!(rt; is_call(feed, 0, 1, 1, 22_200));
    assert_eq!(rt; calls_of(feed, 1), 2);
    assert!(rt; is_call(feed, 1, 0, 0, 21_600));
    assert!(rt; is_call(feed, 1, 1, 1, 22_440));
}

fn expect_bands(rt: &impl Abort, feed: &Feed) {
    let want = [band(0, 600), band(1, 900)];
    assert!(rt; feed.bands() == want.as_slice());
}

// From Monday to Friday: 1 + 2 + 4 + 8 + 16.
fn expect_week(rt: &impl Abort, feed: &Feed) {
    assert_eq!(rt; feed.weeks().len(), 1);
    for week in feed.weeks() {
        assert_eq!(rt; week.service, 0);
        assert_eq!(rt; week.days, 31);
        assert!(rt; Some(week.first) == date(b"20250101"));
        assert!(rt; Some(week.last) == date(b"20251231"));
    }
}

// The band of a trip from 6 to 22 hours.
fn band(trip: u32, headway: u32) -> Band {
    Band {
        trip,
        begins: 21_600,
        ends: 79_200,
        headway,
        exact: false,
    }
}

#[test]
fn the_small_city_is_read(rt: HostRuntime) -> Result<(), Fail> {
    let files = files_of(rt.alloc(), &CITY)?;
    let feed = feed_of(rt.alloc(), &files)?;
    expect_city(&rt, &feed);
    Ok(())
}
