//! Runs of `gen`.

use super::running::{Ending, Trial, expect};
use std::test::Fail;

// 40 nodes of zones and as many goals, two for each of 200 stops, and twice 398 and 28 times 22 of
// lines. Each line has one trip. The pairs, the units and what follows were computed by a second
// program from the rules of docs/FORMATS.md alone.
const SUMMARY: &str = "nodes 1892
arcs 3740
zones 40
lines 30
trips-counted 30
trips-aside 0
transfers-aside 0
pairs 325
inside-zone 0
digits-dropped 0
boarding-stops 400
longest-wait 582054
destinations 40
units 8046000000
boardings 17092402310
transfers 9262402310
cost 17470007867530298
bound 17469998371000000
gap 9496530298
slack 3237025728000
";

#[test]
fn prints_the_summary_of_a_generated_city(rt: HostRuntime) -> Result<(), Fail> {
    let words = ["gen", "7", "200", "30", "40"];
    // Each call of the folder fails: none is made.
    let trial = Trial {
        failing: Some(0),
        ..Trial::new(&[], &words)
    };
    expect(&rt, trial, Ending::printed(SUMMARY))?;
    Ok(())
}

#[test]
fn refuses_other_numbers(rt: HostRuntime) -> Result<(), Fail> {
    let cases = [
        "gen",
        "gen 7 200 30",
        "gen 7 200 30 40 50",
        "gen 7 7 2 2",
        "gen 7 5001 30 40",
        "gen 7 200 1 40",
        "gen 7 200 501 40",
        "gen 7 200 30 1",
        "gen 7 200 30 1001",
        // Beyond 32 bits, and of 19 digits.
        "gen 7 4294967496 30 40",
        "gen 1000000000000000000 200 30 40",
        "gen +7 200 30 40",
        "gen -7 200 30 40",
        "gen 7.0 200 30 40",
        "gen seven 200 30 40",
        "gen 7 200 30 --help",
    ];
    for words in cases {
        let words: Vec<&str> = words.split_whitespace().collect(rt.alloc())?;
        let ending = Ending::refused(2, "error 2: usage words\n");
        expect(&rt, Trial::new(&[], words.as_slice()), ending)?;
    }
    Ok(())
}
