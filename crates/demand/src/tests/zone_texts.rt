//! Zones of texts.

use super::city::small_city;
use super::told::{push_three, told};
use crate::{ZoneLink, Zones};
use feed_reader::Feed;
use std::alloc::{AllocError, Global};
use std::test::Fail;

// Each zone's id, and each link, or the fault.
fn shown(alloc: Global, feed: &Feed, text: &str) -> Result<String, AllocError> {
    let zones = match Zones::read(alloc, text.as_bytes(), feed) {
        Ok(zones) => zones,
        Err(fault) => return told(alloc, fault),
    };
    let mut shown = String::new(alloc);
    for name in zones.names() {
        shown.push_str(name.as_str())?;
        shown.push(' ')?;
    }
    for link in zones.links() {
        push_three(&mut shown, link.zone, link.stop, link.seconds)?;
    }
    Ok(shown)
}

const ROWS: [(&str, &str); 10] = [
    // X appears first, and its second row begins no zone. Blanks are no part of an id.
    ("X,B,60\nY,A,0\n X,A,007\n", "X Y 0-1:60 1-0:0 0-0:7 "),
    // Equal rows are two links.
    ("X,A,1\nX,A,1\n", "X 0-0:1 0-0:1 "),
    ("", ""),
    // The empty zone comes before the unknown stop, and that before the seconds.
    ("X,A,1\n,C,x\n", "bad field: zones 3 zone_id "),
    ("X,C,x\n", "unknown stop: zones 2 stop_id C"),
    ("X,,1\n", "unknown stop: zones 2 stop_id "),
    // A station is no stop.
    ("X,S,1\n", "unknown stop: zones 2 stop_id S"),
    ("X,A,-1\n", "bad field: zones 2 walk_secs -1"),
    ("X,A,\n", "bad field: zones 2 walk_secs "),
    // The width of a row is judged before any field.
    (",C,x\nX,A\n", "row width: zones 3  "),
];

#[test]
fn zones_are_numbered_by_first_appearance(rt: HostRuntime) -> Result<(), Fail> {
    let feed = small_city(rt.alloc())?;
    for (rows, want) in ROWS {
        let text = format!(in rt.alloc(); "zone_id,stop_id,walk_secs\n{rows}")?;
        assert_eq!(rt; shown(rt.alloc(), &feed, text.as_str())?.as_str(), want);
    }
    Ok(())
}

const SHEETS: [(&str, &str); 2] = [
    ("", "no header: zones 0  "),
    (
        "zone_id,stop_id\nX,A\n",
        "missing column: zones 1 walk_secs ",
    ),
];

#[test]
fn zones_have_three_columns(rt: HostRuntime) -> Result<(), Fail> {
    let feed = small_city(rt.alloc())?;
    for (text, want) in SHEETS {
        assert_eq!(rt; shown(rt.alloc(), &feed, text)?.as_str(), want);
    }
    Ok(())
}

#[test]
fn a_zone_is_found_by_its_id(rt: HostRuntime) -> Result<(), Fail> {
    let feed = small_city(rt.alloc())?;
    let Ok(zones) = Zones::read(
        rt.alloc(),
        b"zone_id,stop_id,walk_secs\nX,A,0\nY,B,5\n",
        &feed,
    ) else {
        return Err("refused".into());
    };
    assert_eq!(rt; zones.number("Y"), Some(1));
    assert_eq!(rt; zones.number("y"), None);
    let link = ZoneLink {
        zone: 1,
        stop: 1,
        seconds: 5,
    };
    assert_eq!(rt; zones.links().last(), Some(&link));
    Ok(())
}

// So many zones, each with one link.
fn many_zones(alloc: Global, count: u32) -> Result<String, AllocError> {
    let mut text = String::from_str(alloc, "zone_id,stop_id,walk_secs\n")?;
    for number in 0..count {
        text.push_str(format!(in alloc; "z{number},A,1\n")?.as_str())?;
    }
    Ok(text)
}

#[test]
fn there_are_4096_zones_at_most(rt: HostRuntime) -> Result<(), Fail> {
    let feed = small_city(rt.alloc())?;
    let text = many_zones(rt.alloc(), 4096)?;
    let Ok(zones) = Zones::read(rt.alloc(), text.as_bytes(), &feed) else {
        return Err("refused".into());
    };
    assert_eq!(rt; zones.names().len(), 4096);
    let text = many_zones(rt.alloc(), 4097)?;
    let shown = shown(rt.alloc(), &feed, text.as_str())?;
    assert_eq!(rt; shown.as_str(), "range: Zones 4097");
    Ok(())
}
