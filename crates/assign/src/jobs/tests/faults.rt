//! Jobs that are refused, and sinks that fail.

use super::city::{CITY, TEXTS};
use super::{Texts, files_of, written};
use std::test::Fail;

const BAD_ZONES: &str = "zone_id,stop_id,walk_secs\nX,C,60\n";

const BAD_WALKS: &str = "from_stop_id,to_stop_id,walk_secs\nA,C,60\n";

const BAD_DEMAND: &str = "origin,destination,trips\nX,Q,1\n";

const BAD_SCENARIO: &str = "edit,target,value\nscale,R9,50\n";

// Both pairs lack a way; the one to X, the first zone, is named.
const BACK: &str = "origin,destination,trips\nX,Y,1\nY,X,1\n";

// Of tables with faults, the first in order is answered, and nothing is written.
const REFUSED: [(Texts<'static>, &str); 9] = [
    (
        Texts {
            zones: BAD_ZONES,
            walks: Some(BAD_WALKS),
            demand: BAD_DEMAND,
            scenario: Some(BAD_SCENARIO),
            ..TEXTS
        },
        "unknown stop zones 2 stop_id C",
    ),
    (
        Texts {
            walks: Some(BAD_WALKS),
            demand: BAD_DEMAND,
            scenario: Some(BAD_SCENARIO),
            ..TEXTS
        },
        "unknown stop walks 2 to_stop_id C",
    ),
    (
        Texts {
            demand: BAD_DEMAND,
            scenario: Some(BAD_SCENARIO),
            ..TEXTS
        },
        "unknown zone demand 2 destination Q",
    ),
    (
        Texts {
            demand: BACK,
            scenario: Some(BAD_SCENARIO),
            ..TEXTS
        },
        "unknown id scenario 2 target R9",
    ),
    (
        Texts {
            scenario: Some("edit,target,value\nwait,,201\n"),
            ..TEXTS
        },
        "bad value scenario 2 value 201",
    ),
    (
        Texts {
            demand: "origin,destination,trips\nX,Y,1000000000\nX,Y,0.000001\n",
            ..TEXTS
        },
        "range Units 1000000000000001",
    ),
    (
        Texts {
            zones: "zone_id,stop_id,walk_secs\nX,A,1000001\nY,B,30\n",
            demand: BACK,
            ..TEXTS
        },
        "range Cost 1000001000",
    ),
    (
        Texts {
            demand: BACK,
            scenario: Some("edit,target,value\nclose,B,\n"),
            ..TEXTS
        },
        "unreachable Y X",
    ),
    (
        Texts {
            scenario: Some("edit,target,value\nclose,B,\n"),
            ..TEXTS
        },
        "unreachable X Y",
    ),
];

#[test]
fn the_first_fault_of_the_tables_is_answered(rt: HostRuntime) -> Result<(), Fail> {
    let files = files_of(rt.alloc(), &CITY)?;
    for (texts, want) in REFUSED {
        let text = written(rt.alloc(), &files, &texts, 1000)?;
        assert_eq!(rt; text.as_str(), want);
    }
    Ok(())
}

#[test]
fn a_fault_of_the_feed_comes_first(rt: HostRuntime) -> Result<(), Fail> {
    let files = files_of(rt.alloc(), &CITY[..4])?;
    let texts = Texts {
        zones: BAD_ZONES,
        ..TEXTS
    };
    let text = written(rt.alloc(), &files, &texts, 1000)?;
    assert_eq!(rt; text.as_str(), "missing file stop_times.txt");
    Ok(())
}

#[test]
fn a_sink_with_little_room_has_the_first_bytes(rt: HostRuntime) -> Result<(), Fail> {
    let files = files_of(rt.alloc(), &CITY)?;
    for (room, want) in [(5, "nodeswrite fault 5"), (0, "write fault 0")] {
        let text = written(rt.alloc(), &files, &TEXTS, room)?;
        assert_eq!(rt; text.as_str(), want);
    }
    Ok(())
}
