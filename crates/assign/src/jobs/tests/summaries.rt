//! Summaries of jobs.

use super::city::{BARRED, CHANGE, CHANGE_TEXTS, CITY, TEXTS};
use super::{Texts, files_of, put, written};
use std::alloc::{AllocError, Global};
use std::fmt::Write;
use std::test::Fail;

// From A the goal of Y is 630,002 ticks away by R1 and 870,002 by R2, without the wait. Both are
// taken: 6000 * (906,002 - 630,002) + 4000 * (906,002 - 870,002) is the wait constant 1,800,000,000.
// The walk to A takes 60,000 more. The cost is 10 times 966,002, and the slack 2 * (10 + 2 * 450,000).
const SUMMARY: &str = "\
nodes 12
arcs 14
zones 2
lines 2
trips-counted 2
trips-aside 0
transfers-aside 0
pairs 1
inside-zone 1000000
digits-dropped 0
boarding-stops 2
longest-wait 450000
destinations 1
units 10
boardings 10
transfers 0
cost 9660020
bound 9660020
gap 0
slack 1800020
";

#[test]
fn a_job_writes_the_summary_of_its_assignment(rt: HostRuntime) -> Result<(), Fail> {
    let files = files_of(rt.alloc(), &CITY)?;
    let text = written(rt.alloc(), &files, &TEXTS, 1000)?;
    assert_eq!(rt; text.as_str(), SUMMARY);
    Ok(())
}

const WORDS: [&str; 20] = [
    "nodes",
    "arcs",
    "zones",
    "lines",
    "trips-counted",
    "trips-aside",
    "transfers-aside",
    "pairs",
    "inside-zone",
    "digits-dropped",
    "boarding-stops",
    "longest-wait",
    "destinations",
    "units",
    "boardings",
    "transfers",
    "cost",
    "bound",
    "gap",
    "slack",
];

// The summary with these numbers.
fn summary_with(alloc: Global, numbers: &[u128; 20]) -> Result<String, AllocError> {
    let mut text = String::new(alloc);
    for place in 0..20 {
        writeln!(text, "{} {}", WORDS[place], numbers[place])?;
    }
    Ok(text)
}

// With R1 alone, or where the fare of R2 makes it too slow, a unit takes 60,000 + 630,002 + 300,000
// ticks. Waits of whole headways take 180,000 ticks more, and walks of twice the time 90,000.
const SCENARIOS: [(&str, [u128; 20]); 4] = [
    (
        "drop,R2,",
        [
            10, 10, 2, 1, 2, 0, 0, 1, 1000000, 0, 2, 300000, 1, 10, 10, 0, 9900020, 9900020, 0,
            1200020,
        ],
    ),
    (
        "fare,R2,100",
        [
            12, 14, 2, 2, 2, 0, 0, 1, 1000000, 0, 2, 450000, 1, 10, 10, 0, 9900020, 9900020, 0,
            1800020,
        ],
    ),
    (
        "wait,,100",
        [
            12, 14, 2, 2, 2, 0, 0, 1, 1000000, 0, 2, 900000, 1, 10, 10, 0, 11460020, 11460020, 0,
            3600020,
        ],
    ),
    (
        "pace,,200",
        [
            12, 14, 2, 2, 2, 0, 0, 1, 1000000, 0, 2, 450000, 1, 10, 10, 0, 10560020, 10560020, 0,
            1800020,
        ],
    ),
];

#[test]
fn a_scenario_changes_the_summary(rt: HostRuntime) -> Result<(), Fail> {
    let files = files_of(rt.alloc(), &CITY)?;
    for (row, numbers) in SCENARIOS {
        let scenario = format!(in rt.alloc(); "edit,target,value\n{row}\n")?;
        let texts = Texts {
            scenario: Some(scenario.as_str()),
            ..TEXTS
        };
        let text = written(rt.alloc(), &files, &texts, 1000)?;
        let want = summary_with(rt.alloc(), &numbers)?;
        assert_eq!(rt; text.as_str(), want.as_str(), "{row}");
    }
    Ok(())
}

// No demand; ten units and a half, of which the half is dropped; and as much as there may be.
const DEMANDS: [(&str, [u128; 20]); 3] = [
    (
        "",
        [
            12, 14, 2, 2, 2, 0, 0, 0, 0, 0, 2, 450000, 0, 0, 0, 0, 0, 0, 0, 0,
        ],
    ),
    (
        "X,Y,0.0000105\nX,X,1\n",
        [
            12, 14, 2, 2, 2, 0, 0, 1, 1000000, 1, 2, 450000, 1, 10, 10, 0, 9660020, 9660020, 0,
            1800020,
        ],
    ),
    (
        "X,Y,1000000000\n",
        [
            12,
            14,
            2,
            2,
            2,
            0,
            0,
            1,
            0,
            0,
            2,
            450000,
            1,
            1000000000000000,
            1000000000000000,
            0,
            966002000000000000000,
            966002000000000000000,
            0,
            2000000001800000,
        ],
    ),
];

#[test]
fn a_demand_is_counted_and_assigned(rt: HostRuntime) -> Result<(), Fail> {
    let files = files_of(rt.alloc(), &CITY)?;
    for (rows, numbers) in DEMANDS {
        let demand = format!(in rt.alloc(); "origin,destination,trips\n{rows}")?;
        let texts = Texts {
            demand: demand.as_str(),
            ..TEXTS
        };
        let text = written(rt.alloc(), &files, &texts, 1000)?;
        let want = summary_with(rt.alloc(), &numbers)?;
        assert_eq!(rt; text.as_str(), want.as_str(), "{rows}");
    }
    Ok(())
}

// To C it takes two boardings at 1 tick, two waits of 300,000, two rides of 600,000, two times 1
// to alight, and walks of 60, 120 and 30 seconds: 2,010,004 ticks. A transfer of 300 seconds costs
// 299,999 more than none.
const CHANGES: [(Option<&str>, [u128; 20]); 2] = [
    (
        None,
        [
            16,
            18,
            2,
            2,
            2,
            0,
            0,
            1,
            0,
            0,
            4,
            300000,
            1,
            1000000,
            2000000,
            1000000,
            2010004000000,
            2010004000000,
            0,
            6400000,
        ],
    ),
    (
        Some("edit,target,value\ntransfer,,300\n"),
        [
            16,
            18,
            2,
            2,
            2,
            0,
            0,
            1,
            0,
            0,
            4,
            300000,
            1,
            1000000,
            2000000,
            1000000,
            2310003000000,
            2310003000000,
            0,
            6400000,
        ],
    ),
];

#[test]
fn a_change_of_lines_is_a_transfer(rt: HostRuntime) -> Result<(), Fail> {
    let files = files_of(rt.alloc(), &CHANGE)?;
    for (scenario, numbers) in CHANGES {
        let texts = Texts {
            scenario,
            ..CHANGE_TEXTS
        };
        let text = written(rt.alloc(), &files, &texts, 1000)?;
        let want = summary_with(rt.alloc(), &numbers)?;
        assert_eq!(rt; text.as_str(), want.as_str());
    }
    Ok(())
}

// A row of transfers.txt bars the walk between the platforms, and then one of the walks makes
// it take 60 seconds in place of 120.
#[test]
fn a_walk_stands_before_a_barred_transfer(rt: HostRuntime) -> Result<(), Fail> {
    let mut files = files_of(rt.alloc(), &CHANGE)?;
    put(rt.alloc(), &mut files, 7, BARRED)?;
    let barred = written(rt.alloc(), &files, &CHANGE_TEXTS, 1000)?;
    assert_eq!(rt; barred.as_str(), "unreachable X Y");
    let texts = Texts {
        walks: Some("from_stop_id,to_stop_id,walk_secs\nP1,P2,60\n"),
        ..CHANGE_TEXTS
    };
    let walked = written(rt.alloc(), &files, &texts, 1000)?;
    assert!(rt; walked.as_str().contains("\ncost 1950004000000\n"));
    Ok(())
}
