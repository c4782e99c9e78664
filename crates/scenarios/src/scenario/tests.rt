//! Scenarios of texts over a feed of the routes R1 and R2 and the stops A, B and C.

ghost use Rattle.scenarios.specs.Feeds.{IsOfFeed};

use super::*;
use crate::fare::TimeFare;
use feed_reader::Files;
use gtfs_rows::{Blob, Place, RowFault};
use std::alloc::AllocError;
use std::str::from_utf8;
use std::test::Fail;

const FILES: [(u32, &str); 5] = [
    (0, "stop_id\nA\nB\nC\n"),
    (1, "route_id\nR1\nR2\n"),
    (3, "service_id,date,exception_type\nD,20250602,1\n"),
    (4, "route_id,service_id,trip_id\n"),
    (
        5,
        "trip_id,arrival_time,departure_time,stop_id,stop_sequence\n",
    ),
];

// The feed of these files.
fn small_city(alloc: Global) -> Result<Feed, Fail> {
    let mut files = Files::none();
    for (place, text) in FILES {
        put(alloc, &mut files, place, text)?;
    }
    Feed::read(alloc, &files).map_err(|_| "a feed".into())
}

// Puts a short file at a place below 8.
fn put(alloc: Global, files: &mut Files, place: u32, text: &str) -> Result<(), Fail> {
    let bytes = text.as_bytes().to_vec(alloc)?;
    if bytes.as_slice().len() > 1000 || place > 7 {
        return Err("a short file at a place".into());
    }
    files.set(place, Blob::new(bytes));
    Ok(())
}

// The wait and the pace; for each route the weight of 999 and the ticks of a first and a later
// boarding; and a dot for each open stop, an x for each closed one.
fn shown(alloc: Global, feed: &Feed, scenario: &Scenario) -> Result<String, AllocError>
    requires size { IsOfFeed feed.now scenario.now }
{
    let mut text = format!(in alloc; "{} {}", scenario.wait(), scenario.pace())?;
    for route in 0..feed.routes().len() as u32 {
        let weight = scenario.weight(route, 999);
        let first = scenario.ticks(route, Layer::First);
        let later = scenario.ticks(route, Layer::Later);
        text.push_str(format!(in alloc; "/{weight} {first} {later}")?.as_str())?;
    }
    text.push('/')?;
    for stop in 0..feed.stops().len() as u32 {
        text.push(if scenario.closed(stop) { 'x' } else { '.' })?;
    }
    Ok(text)
}

// The name of a fault, and its row, column and field.
fn told(alloc: Global, name: &str, place: &Place) -> Result<String, AllocError> {
    let file = place.file.as_str();
    let column = place.column.as_str();
    let field = from_utf8(place.field.as_slice()).unwrap_or("?");
    format!(in alloc; "{name}: {file} {} {column} {field}", place.row)
}

// What is read of a text: what the scenario says, or the fault.
fn said(alloc: Global, feed: &Feed, text: &str) -> Result<String, AllocError> {
    match Scenario::read(alloc, text.as_bytes(), feed) {
        Ok(scenario) => shown(alloc, feed, &scenario),
        Err(ScenarioFault::Row(fault)) => row_told(alloc, fault),
        Err(ScenarioFault::UnknownId(place)) => told(alloc, "unknown id", &place),
        Err(ScenarioFault::BadValue(place)) => told(alloc, "bad value", &place),
        Err(ScenarioFault::NoMemory) => Err(AllocError),
    }
}

// What a fault of the sheet tells.
fn row_told(alloc: Global, fault: RowFault) -> Result<String, AllocError> {
    match fault {
        RowFault::NoHeader(place) => told(alloc, "no header", &place),
        RowFault::MissingColumn(place) => told(alloc, "missing column", &place),
        RowFault::RowWidth(place) => told(alloc, "row width", &place),
        _ => String::from_str(alloc, "another fault"),
    }
}

// What is read of the rows below the header.
fn rows_said(alloc: Global, feed: &Feed, rows: &str) -> Result<String, AllocError> {
    let text = format!(in alloc; "edit,target,value\n{rows}")?;
    said(alloc, feed, text.as_str())
}

const EDITS: [(&str, &str); 14] = [
    ("", "50 100/999 1 1/999 1 1/..."),
    // The whole part of 999 * 50 / 100.
    ("scale,R2,50\n", "50 100/999 1 1/499 1 1/..."),
    ("fare,R2,100\n", "50 100/999 1 1/999 100000 100000/..."),
    ("drop,R1,\n", "50 100/0 1 1/999 1 1/..."),
    ("close,B,\n", "50 100/999 1 1/999 1 1/.x."),
    ("transfer,,300\n", "50 100/999 1 300000/999 1 300000/..."),
    ("wait,,100\n", "100 100/999 1 1/999 1 1/..."),
    ("pace,,200\n", "50 200/999 1 1/999 1 1/..."),
    // A transfer adds to the fare of a later boarding.
    (
        "fare,R1,100\ntransfer,,30\n",
        "50 100/999 100000 130000/999 1 30000/...",
    ),
    // The last row of an edit and target holds, and other targets keep theirs.
    (
        "fare,R1,5\nfare,R2,6\nfare,R1,7\n",
        "50 100/999 7000 7000/999 6000 6000/...",
    ),
    (
        "wait,,60\npace,,90\nwait,,070\n",
        "70 90/999 1 1/999 1 1/...",
    ),
    // A dropped route stays dropped, whatever its scale.
    ("drop,R2,\nscale,R2,200\n", "50 100/999 1 1/0 1 1/..."),
    // The edges of each range.
    (
        "scale,R1,0\nscale,R2,1000\nwait,,1\npace,,1\n",
        "1 1/0 1 1/9990 1 1/...",
    ),
    (
        "fare,R1,500000\nfare,R2,0\ntransfer,,500000\nwait,,200\npace,,1000\n",
        "200 1000/999 500000000 1000000000/999 1 500000000/...",
    ),
];

#[test]
fn says_what_the_last_row_of_each_edit_and_target_says(rt: HostRuntime) -> Result<(), Fail> {
    let feed = small_city(rt.alloc())?;
    for (rows, want) in EDITS {
        assert_eq!(rt;
            rows_said(rt.alloc(), &feed, rows)?.as_str(),
            want,
            "at {rows}"
        );
    }
    Ok(())
}

const FAULTS: [(&str, &str); 18] = [
    ("wait,,201\n", "bad value: scenario 2 value 201"),
    ("wait,,0\n", "bad value: scenario 2 value 0"),
    ("pace,,1001\n", "bad value: scenario 2 value 1001"),
    ("pace,,0\n", "bad value: scenario 2 value 0"),
    ("scale,R1,1001\n", "bad value: scenario 2 value 1001"),
    ("fare,R1,500001\n", "bad value: scenario 2 value 500001"),
    ("transfer,,500001\n", "bad value: scenario 2 value 500001"),
    // No number of 1 to 18 digits.
    ("fare,R1,\n", "bad value: scenario 2 value "),
    ("fare,R1,-1\n", "bad value: scenario 2 value -1"),
    (
        "fare,R1,0000000000000000001\n",
        "bad value: scenario 2 value 0000000000000000001",
    ),
    // A value that has to be empty.
    ("drop,R1,1\n", "bad value: scenario 2 value 1"),
    ("scale,R9,50\n", "unknown id: scenario 2 target R9"),
    // A route is no stop.
    ("close,R1,\n", "unknown id: scenario 2 target R1"),
    ("Fare,R9,x\n", "bad value: scenario 2 edit Fare"),
    // The target is tried before the value.
    ("pace,R1,0\n", "bad value: scenario 2 target R1"),
    ("scale,,1001\n", "unknown id: scenario 2 target "),
    // The first of two rows at fault.
    (
        "wait,,50\nwait,,201\nscale,R9,5\n",
        "bad value: scenario 3 value 201",
    ),
    // The width of a row is judged before any field.
    ("wait,,201\nwait\n", "row width: scenario 3  "),
];

#[test]
fn names_the_first_fault(rt: HostRuntime) -> Result<(), Fail> {
    let feed = small_city(rt.alloc())?;
    for (rows, want) in FAULTS {
        assert_eq!(rt;
            rows_said(rt.alloc(), &feed, rows)?.as_str(),
            want,
            "at {rows}"
        );
    }
    Ok(())
}

const SHEETS: [(&str, &str); 2] = [
    ("", "no header: scenario 0  "),
    (
        "edit,target\nclose,B\n",
        "missing column: scenario 1 value ",
    ),
];

#[test]
fn a_scenario_has_three_columns(rt: HostRuntime) -> Result<(), Fail> {
    let feed = small_city(rt.alloc())?;
    for (text, want) in SHEETS {
        assert_eq!(rt; said(rt.alloc(), &feed, text)?.as_str(), want);
    }
    Ok(())
}

#[test]
fn the_plain_scenario_changes_nothing(rt: HostRuntime) -> Result<(), Fail> {
    let feed = small_city(rt.alloc())?;
    let Ok(scenario) = Scenario::plain(rt.alloc(), &feed) else {
        return Err("refused".into());
    };
    let shown = shown(rt.alloc(), &feed, &scenario)?;
    assert_eq!(rt; shown.as_str(), "50 100/999 1 1/999 1 1/...");
    Ok(())
}

#[test]
fn a_stored_function_answers_the_ticks(rt: HostRuntime) -> Result<(), Fail> {
    let feed = small_city(rt.alloc())?;
    let text = "edit,target,value\nfare,R2,100\ntransfer,,30\n";
    let Ok(scenario) = Scenario::read(rt.alloc(), text.as_bytes(), &feed) else {
        return Err("refused".into());
    };
    if feed.routes().len() != 2 {
        return Err("another number of routes".into());
    }
    let fare = TimeFare::new(
        &scenario,
        |route: u32, layer: Layer| scenario.ticks(route, layer),
    );
    assert_eq!(rt; fare.ask(0, Layer::First), 1);
    assert_eq!(rt; fare.ask(0, Layer::Later), 30_000);
    assert_eq!(rt; fare.ask(1, Layer::First), 100_000);
    assert_eq!(rt; fare.ask(1, Layer::Later), 130_000);
    Ok(())
}
