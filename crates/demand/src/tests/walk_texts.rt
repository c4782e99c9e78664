//! Walks of texts.

use super::city::small_city;
use super::told::{push_three, told};
use crate::Walks;
use feed_reader::Feed;
use std::alloc::{AllocError, Global};
use std::test::Fail;

// Each walk, or the fault.
fn shown(alloc: Global, feed: &Feed, text: &str) -> Result<String, AllocError> {
    let walks = match Walks::read(alloc, text.as_bytes(), feed) {
        Ok(walks) => walks,
        Err(fault) => return told(alloc, fault),
    };
    let mut shown = String::new(alloc);
    for walk in walks.list() {
        push_three(&mut shown, walk.from, walk.to, walk.seconds)?;
    }
    Ok(shown)
}

const ROWS: [(&str, &str); 7] = [
    // The walk from A to itself adds nothing, and a repeated one is there twice.
    ("A,B,7\nA,A,9\nB,A,8\nA,B,7\n", "0-1:7 1-0:8 0-1:7 "),
    ("", ""),
    ("C,D,x\n", "unknown stop: walks 2 from_stop_id C"),
    ("A,S,x\n", "unknown stop: walks 2 to_stop_id S"),
    ("A,B,x\n", "bad field: walks 2 walk_secs x"),
    // The seconds are judged also where the walk would add nothing.
    ("A,B,1\nA,A,\n", "bad field: walks 3 walk_secs "),
    // 19 digits.
    (
        "A,B,1000000000000000000\n",
        "bad field: walks 2 walk_secs 1000000000000000000",
    ),
];

#[test]
fn a_walk_leads_from_a_stop_to_another(rt: HostRuntime) -> Result<(), Fail> {
    let feed = small_city(rt.alloc())?;
    for (rows, want) in ROWS {
        let text = format!(in rt.alloc(); "from_stop_id,to_stop_id,walk_secs\n{rows}")?;
        assert_eq!(rt; shown(rt.alloc(), &feed, text.as_str())?.as_str(), want);
    }
    assert_eq!(rt; Walks::none(rt.alloc()).list().len(), 0);
    Ok(())
}

const SHEETS: [(&str, &str); 2] = [
    ("", "no header: walks 0  "),
    (
        "from_stop_id,walk_secs\nA,7\n",
        "missing column: walks 1 to_stop_id ",
    ),
];

#[test]
fn walks_have_three_columns(rt: HostRuntime) -> Result<(), Fail> {
    let feed = small_city(rt.alloc())?;
    for (text, want) in SHEETS {
        assert_eq!(rt; shown(rt.alloc(), &feed, text)?.as_str(), want);
    }
    Ok(())
}
