//! What `assign` prints, by `--print` and `--to-zone`.

use super::super::city::{ASSIGN, CITY, SUMMARY, expect_changed, expect_city};
use super::super::running::{Ending, Trial, expect, expect_on, output_of};
use std::alloc::AllocError;
use std::process::Abort;
use std::test::Fail;

// Of ten units the weights 6000 and 4000 take six and four. They ride 600000 and 840000 ticks.
const LINES: &str = "line,route_id,weight,boardings,transfers,max_load,unit_ticks
0,R1,6000,6,0,6,3600000
1,R2,4000,4,0,4,3360000
";

const STOPS: &str = "stop_id,first_boardings,later_boardings,alightings,access,egress
A,10,0,0,10,0
B,0,0,10,0,10
";

const SEGMENTS: &str = "line,position,from_stop_id,to_stop_id,boarded,alighted,load
0,0,A,B,6,0,6
1,0,A,B,4,0,4
";

// Walks of 60000 and 30000 ticks, a wait of K / 10000, six tenths of 600000 and four of 840000, and
// a tick to board and one to alight. No way leads from Y to X.
const SKIMS: &str = "origin,destination,label,walk,wait,ride,board
X,Y,966002,90000,180000,696000,2
";

const NO_SKIMS: &str = "origin,destination,label,walk,wait,ride,board\n";

// The words of an assignment of the city, with more words behind.
fn words_with(rt: &impl AllocGlobal, more: &str) -> Result<String, AllocError> {
    format!(in rt.alloc(); "{ASSIGN} {more}")
}

// Asserts that the assignment of the city with more words ends so.
fn expect_with(
    rt: &(impl Abort + AllocGlobal),
    more: &str,
    ending: Ending<'_>,
) -> Result<(), AllocError> {
    let words = words_with(rt, more)?;
    expect_city(rt, &CITY, words.as_str(), ending)
}

#[test]
fn prints_what_the_words_ask_for(rt: HostRuntime) -> Result<(), Fail> {
    let cases = [
        ("--print summary", SUMMARY),
        ("--print lines", LINES),
        ("--print stops", STOPS),
        ("--print segments", SEGMENTS),
        ("--print skims", SKIMS),
        ("--print skims --to-zone Y", SKIMS),
        ("--to-zone=X --print=skims", NO_SKIMS),
    ];
    for (more, text) in cases {
        expect_with(&rt, more, Ending::printed(text))?;
    }
    Ok(())
}

#[test]
fn refuses_a_print_that_does_not_go_with_the_zone(rt: HostRuntime) -> Result<(), Fail> {
    let cases = [
        "--print summary --to-zone Y",
        "--print lines --to-zone Y",
        "--print stops --to-zone Y",
        "--print segments --to-zone Y",
        "--print certificate",
        "--to-zone Y",
        // No words of a print.
        "--print all",
        "--print Lines",
        "--print line",
        "--print=",
        // Nor are these options with one value.
        "--print",
        "--print skims --to-zone",
        "--print lines --print lines",
        "--print skims --to-zone Y --to-zone Y",
    ];
    for more in cases {
        expect_with(&rt, more, Ending::refused(2, "error 2: usage words\n"))?;
    }
    Ok(())
}

#[test]
fn check_accepts_the_certificate_of_a_zone(rt: HostRuntime) -> Result<(), Fail> {
    // The verdict is that of the demand to the zone alone: nobody goes to X.
    let cases = [
        (
            "Y",
            "valid\nunits 10\ncost 9660020\nbound 9660020\ngap 0\nslack 1800020\n",
        ),
        ("X", "valid\nunits 0\ncost 0\nbound 0\ngap 0\nslack 0\n"),
    ];
    for (zone, verdict) in cases {
        let certificate = certificate_of(&rt, zone)?;
        let file = ("c", certificate.as_str());
        expect_on(&rt, file, &["check", "c"], Ending::printed(verdict))?;
    }
    Ok(())
}

// The certificate of a zone of the city.
fn certificate_of(rt: &(impl Abort + AllocGlobal), zone: &str) -> Result<String, AllocError> {
    let words = format!(in rt.alloc(); "{ASSIGN} --print certificate --to-zone {zone}")?;
    let words: Vec<&str> = words.as_str().split_whitespace().collect(rt.alloc())?;
    output_of(rt, Trial::new(&CITY, words.as_slice()))
}

#[test]
fn tells_that_a_zone_is_unknown(rt: HostRuntime) -> Result<(), Fail> {
    let unknown = "error 4: demand unknown-zone file words row 0 column to-zone field Q\n";
    let empty = "error 4: demand unknown-zone file words row 0 column to-zone field -\n";
    let cases = [
        ("--print certificate --to-zone Q", unknown),
        ("--print skims --to-zone Q", unknown),
        ("--print skims --to-zone=", empty),
    ];
    for (more, fault) in cases {
        expect_with(&rt, more, Ending::refused(4, fault))?;
    }
    // It comes behind the tables and the scenario, and before the reach of the pairs.
    let words = words_with(&rt, "--scenario s --print skims --to-zone Q")?;
    let changes = [
        (
            ("d", "X,X,1", "Q,X,1"),
            4,
            "error 4: demand unknown-zone file demand row 3 column origin field Q\n",
        ),
        (
            ("s", "value\n", "value\nwait,,201\n"),
            5,
            "error 5: scenario bad-value file scenario row 2 column value field 201\n",
        ),
        (("d", "X,X,1", "Y,X,1"), 4, unknown),
    ];
    for (change, code, fault) in changes {
        expect_changed(&rt, words.as_str(), change, Ending::refused(code, fault))?;
    }
    Ok(())
}

#[test]
fn tells_how_much_of_a_table_was_written(rt: HostRuntime) -> Result<(), Fail> {
    // The room of the output, what it holds, and the fault text.
    let cases = [
        ("lines", 5, "line,", "error 9: write fault 5\n"),
        ("skims", 46, NO_SKIMS, "error 9: write fault 46\n"),
        (
            "skims",
            48,
            "origin,destination,label,walk,wait,ride,board\nX,",
            "error 9: write fault 48\n",
        ),
    ];
    for (print, room, out, err) in cases {
        let words = format!(in rt.alloc(); "{ASSIGN} --print {print}")?;
        let words: Vec<&str> = words.as_str().split_whitespace().collect(rt.alloc())?;
        let trial = Trial {
            room,
            ..Trial::new(&CITY, words.as_slice())
        };
        expect(&rt, trial, Ending { code: 9, out, err })?;
    }
    Ok(())
}
