//! What jobs print beside summaries.

use super::city::{CHANGE, CHANGE_TEXTS, CITY, TEXTS};
use super::{Texts, files_of, job_of, told, written};
use crate::documents::{Unfit, all_reports};
use crate::preparing::prepare;
use crate::print::Print;
use crate::reports::report;
use crate::running::totals_of;
use certificate::{Verdict, check_text};
use std::str::from_utf8;
use std::test::Fail;

// 10 units share the two lines by 6000 and 4000. Of 6 the ride takes 600,000 ticks, of 4 840,000.
const LINES: &str = "\
line,route_id,weight,boardings,transfers,max_load,unit_ticks
0,R1,6000,6,0,6,3600000
1,R2,4000,4,0,4,3360000
";

const STOPS: &str = "\
stop_id,first_boardings,later_boardings,alightings,access,egress
A,10,0,0,10,0
B,0,0,10,0,10
";

const SEGMENTS: &str = "\
line,position,from_stop_id,to_stop_id,boarded,alighted,load
0,0,A,B,6,0,6
1,0,A,B,4,0,4
";

// Walks of 60 and 30 seconds, a wait of K / 10,000, rides of 600,000 by 6000 and 840,000 by 4000,
// and a tick each to board and to alight. No way leads from Y to X.
const SKIMS: &str = "\
origin,destination,label,walk,wait,ride,board
X,Y,966002,90000,180000,696000,2
";

const NO_SKIMS: &str = "origin,destination,label,walk,wait,ride,board\n";

#[test]
fn a_job_prints_the_table_that_is_asked_for(rt: HostRuntime) -> Result<(), Fail> {
    let files = files_of(rt.alloc(), &CITY)?;
    let cases = [
        (Print::Lines, None, LINES),
        (Print::Stops, None, STOPS),
        (Print::Segments, None, SEGMENTS),
        (Print::Skims, None, SKIMS),
        (Print::Skims, Some("Y"), SKIMS),
        (Print::Skims, Some("X"), NO_SKIMS),
    ];
    for (print, to_zone, want) in cases {
        let texts = Texts {
            print,
            to_zone,
            ..TEXTS
        };
        let text = written(rt.alloc(), &files, &texts, 1000)?;
        assert_eq!(rt; text.as_str(), want, "{print:?}");
    }
    Ok(())
}

// All boardings of P2 are transfers; the tables of a change of lines, where a walk of 120 seconds
// stands between the lines.
const CHANGE_LINES: &str = "\
line,route_id,weight,boardings,transfers,max_load,unit_ticks
0,R1,6000,1000000,0,1000000,600000000000
1,R2,6000,1000000,1000000,1000000,600000000000
";

const CHANGE_SKIMS: &str = "\
origin,destination,label,walk,wait,ride,board
X,Y,2010004,210000,600000,1200000,4
";

#[test]
fn a_change_of_lines_is_in_the_tables(rt: HostRuntime) -> Result<(), Fail> {
    let files = files_of(rt.alloc(), &CHANGE)?;
    for (print, want) in [(Print::Lines, CHANGE_LINES), (Print::Skims, CHANGE_SKIMS)] {
        let texts = Texts {
            print,
            ..CHANGE_TEXTS
        };
        let text = written(rt.alloc(), &files, &texts, 1000)?;
        assert_eq!(rt; text.as_str(), want);
    }
    Ok(())
}

// The certificate of Y has all demand; that of X, to which nobody goes, costs nothing.
#[test]
fn a_certificate_is_accepted_with_its_cost_and_bound(rt: HostRuntime) -> Result<(), Fail> {
    let files = files_of(rt.alloc(), &CITY)?;
    let cases = [
        (
            "Y",
            Verdict {
                units: 10,
                cost: 9_660_020,
                bound: 9_660_020,
                slack: 1_800_020,
            },
        ),
        (
            "X",
            Verdict {
                units: 0,
                cost: 0,
                bound: 0,
                slack: 0,
            },
        ),
    ];
    for (zone, want) in cases {
        let texts = Texts {
            print: Print::Certificate,
            to_zone: Some(zone),
            ..TEXTS
        };
        let text = written(rt.alloc(), &files, &texts, 1000)?;
        assert!(rt;
            check_text(rt.alloc(), text.as_bytes()) == Ok(want),
            "{zone}"
        );
    }
    Ok(())
}

#[test]
fn a_report_is_all_tables_one_after_the_other(rt: HostRuntime) -> Result<(), Fail> {
    let files = files_of(rt.alloc(), &CITY)?;
    let summary = written(rt.alloc(), &files, &TEXTS, 1000)?;
    let want = format!(in rt.alloc(); "{}{LINES}{STOPS}{SEGMENTS}", summary.as_str())?;
    let texts = Texts {
        print: Print::All,
        ..TEXTS
    };
    let text = written(rt.alloc(), &files, &texts, 1000)?;
    assert_eq!(rt; text.as_str(), want.as_str());
    let job = job_of(&files, &TEXTS)?;
    match report(rt.alloc(), &job) {
        Ok(found) => assert_eq!(rt; from_utf8(found.as_slice()).unwrap_or("?"), want.as_str()),
        Err(fault) => return Err(told(rt.alloc(), &fault)?.as_str().into()),
    }
    Ok(())
}

#[test]
fn a_report_is_within_its_limit(rt: HostRuntime) -> Result<(), Fail> {
    let files = files_of(rt.alloc(), &CITY)?;
    let job = job_of(&files, &TEXTS)?;
    let Ok(whole) = report(rt.alloc(), &job) else {
        return Err("a report".into());
    };
    let Ok(prepared) = prepare(rt.alloc(), &job) else {
        return Err("a city".into());
    };
    let tables = &prepared.tables;
    let Ok(totals) = totals_of(
        rt.alloc(),
        &prepared.city,
        &tables.demand,
        tables.zones.names(),
    ) else {
        return Err("totals".into());
    };
    let length = whole.as_slice().len();
    let Ok(text) = all_reports(rt.alloc(), &prepared, &totals, length) else {
        return Err("a text".into());
    };
    assert_eq!(rt; text.as_slice(), whole.as_slice());
    // A byte less does not hold it.
    let limit = length.saturating_sub(1);
    let Err(unfit) = all_reports(rt.alloc(), &prepared, &totals, limit) else {
        return Err("no text".into());
    };
    assert_eq!(rt; unfit, Unfit::TooLong);
    Ok(())
}

// The zone is judged with every print, behind the tables and before the reach.
#[test]
fn an_unknown_zone_is_refused(rt: HostRuntime) -> Result<(), Fail> {
    let files = files_of(rt.alloc(), &CITY)?;
    for print in [Print::Summary, Print::Skims, Print::Certificate] {
        let texts = Texts {
            demand: "origin,destination,trips\nY,X,1\n",
            print,
            to_zone: Some("Q"),
            ..TEXTS
        };
        let text = written(rt.alloc(), &files, &texts, 1000)?;
        assert_eq!(rt;
            text.as_str(),
            "unknown zone words 0 to-zone Q",
            "{print:?}"
        );
    }
    Ok(())
}

// The second piece is cut: behind a header, and behind the first zone's rows.
#[test]
fn a_print_is_cut_short_where_there_is_no_room(rt: HostRuntime) -> Result<(), Fail> {
    let files = files_of(rt.alloc(), &CITY)?;
    for (print, whole) in [(Print::Lines, LINES), (Print::Skims, SKIMS)] {
        let texts = Texts { print, ..TEXTS };
        for room in [0, 12, 70] {
            let text = written(rt.alloc(), &files, &texts, room)?;
            let want = format!(in rt.alloc();
                "{}write fault {room}",
                whole.get(..room).unwrap_or("?")
            )?;
            assert_eq!(rt; text.as_str(), want.as_str());
        }
    }
    Ok(())
}
