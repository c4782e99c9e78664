//! Runs of `assign`.

mod faults;
mod prints;
mod stations;
mod usual;

use super::city::{ASSIGN, CITY, IN_SCENARIO, SUMMARY, expect_city, expect_summary};
use super::running::{Ending, Trial, expect};
use super::texts::replaced;
use std::test::Fail;

#[test]
fn assigns_a_small_city(rt: HostRuntime) -> Result<(), Fail> {
    let alloc = rt.alloc();
    expect_city(&rt, &CITY, ASSIGN, Ending::printed(SUMMARY))?;
    // Files that come in pieces of seven bytes.
    let words: Vec<&str> = ASSIGN.split_whitespace().collect(alloc)?;
    let trial = Trial {
        in_pieces: true,
        ..Trial::new(&CITY, words.as_slice())
    };
    expect(&rt, trial, Ending::printed(SUMMARY))?;
    Ok(())
}

#[test]
fn takes_words_in_other_orders(rt: HostRuntime) -> Result<(), Fail> {
    let cases = [
        "assign --zones z --demand d --to 08:00:00 --from 07:00:00 f --date 20250602",
        "assign f --date=20250602 --from=07:00:00 --to=08:00:00 --zones=z --demand=d",
        "assign --date 20250602 --from 07:00:00 --to 08:00:00 --zones z --demand d -- f",
        // Walks and edits of no rows change nothing.
        "assign f --date 20250602 --from 07:00:00 --to 08:00:00 --zones z --demand d --walks w --scenario s",
    ];
    for words in cases {
        expect_city(&rt, &CITY, words, Ending::printed(SUMMARY))?;
    }
    Ok(())
}

#[test]
fn reads_tables_of_demand(rt: HostRuntime) -> Result<(), Fail> {
    // A part of the demand, another in its place, and the lines of the summary that change.
    let cases: [(&str, &str, &[(&str, &str)]); 3] = [
        // No rows.
        (
            "X,Y,0.000010\nX,X,1\n",
            "",
            &[
                ("pairs 1\n", "pairs 0\n"),
                ("inside-zone 1000000\n", "inside-zone 0\n"),
                ("destinations 1\n", "destinations 0\n"),
                ("units 10\n", "units 0\n"),
                ("boardings 10\n", "boardings 0\n"),
                ("cost 9660020\n", "cost 0\n"),
                ("bound 9660020\n", "bound 0\n"),
                ("slack 1800020\n", "slack 0\n"),
            ],
        ),
        // The seventh digit is dropped.
        (
            "0.000010",
            "0.0000105",
            &[("digits-dropped 0\n", "digits-dropped 1\n")],
        ),
        // 10^15 units of 966002 ticks; 2 * (10^15 + 2 * 450000).
        (
            "0.000010\nX,X,1\n",
            "1000000000\n",
            &[
                ("inside-zone 1000000\n", "inside-zone 0\n"),
                ("units 10\n", "units 1000000000000000\n"),
                ("boardings 10\n", "boardings 1000000000000000\n"),
                ("cost 9660020\n", "cost 966002000000000000000\n"),
                ("bound 9660020\n", "bound 966002000000000000000\n"),
                ("slack 1800020\n", "slack 2000000001800000\n"),
            ],
        ),
    ];
    for (part, changed, lines) in cases {
        expect_summary(&rt, ASSIGN, ("d", part, changed), lines)?;
    }
    Ok(())
}

#[test]
fn applies_the_edits_of_a_scenario(rt: HostRuntime) -> Result<(), Fail> {
    // An edit, and the lines of the summary that change.
    let cases: [(&str, &[(&str, &str)]); 4] = [
        // R1 alone: 630002 + 300000 ticks from A, and 60000 to A; 2 * (10 + 2 * 300000).
        (
            "drop,R2,",
            &[
                ("nodes 12\n", "nodes 10\n"),
                ("arcs 14\n", "arcs 10\n"),
                ("lines 2\n", "lines 1\n"),
                ("longest-wait 450000\n", "longest-wait 300000\n"),
                ("cost 9660020\n", "cost 9900020\n"),
                ("bound 9660020\n", "bound 9900020\n"),
                ("slack 1800020\n", "slack 1200020\n"),
            ],
        ),
        // At a fare of 100 seconds R2 is not boarded.
        (
            "fare,R2,100",
            &[
                ("cost 9660020\n", "cost 9900020\n"),
                ("bound 9660020\n", "bound 9900020\n"),
            ],
        ),
        // K doubles: 6000 * (1086002 - 630002) + 4000 * (1086002 - 870002) is 3600000000.
        (
            "wait,,100",
            &[
                ("longest-wait 450000\n", "longest-wait 900000\n"),
                ("cost 9660020\n", "cost 11460020\n"),
                ("bound 9660020\n", "bound 11460020\n"),
                ("slack 1800020\n", "slack 3600020\n"),
            ],
        ),
        // The walks take 120 and 60 seconds in place of 60 and 30.
        (
            "pace,,200",
            &[
                ("cost 9660020\n", "cost 10560020\n"),
                ("bound 9660020\n", "bound 10560020\n"),
            ],
        ),
    ];
    for (edit, lines) in cases {
        let rows = replaced(rt.alloc(), "value\nEDIT\n", "EDIT", edit)?;
        expect_summary(&rt, IN_SCENARIO, ("s", "value\n", rows.as_str()), lines)?;
    }
    Ok(())
}

// The city as an agency exports it: byte order marks, CR LF, quotes, further columns and an unread
// file, rows and sequences in another order, hours of one digit.
const EXPORTED: [(&str, &str); 9] = [
    (
        "f/stops.txt",
        "\u{feff}stop_id,stop_name,stop_lat\r\nA,\"Ash Street, north\",1.5\r\nB,Bay Road,2.5\r\n",
    ),
    ("f/routes.txt", "\u{feff}route_id\r\nR1\r\nR2\r\n"),
    (
        "f/calendar.txt",
        "\u{feff}service_id,monday,tuesday,wednesday,thursday,friday,saturday,sunday,start_date,end_date\r\nWK,1,1,1,1,1,0,0,20250101,20251231\r\n",
    ),
    (
        "f/trips.txt",
        "\u{feff}route_id,service_id,trip_id\r\nR1,WK,t1\r\nR2,WK,t2\r\n",
    ),
    (
        "f/stop_times.txt",
        "\u{feff}trip_id,arrival_time,departure_time,stop_id,stop_sequence,timepoint\r\nt2,6:14:00,6:14:00,B,25,1\r\nt2,6:00:00,6:00:00,A,10,1\r\nt1,6:10:00,6:10:00,B,25,1\r\nt1,6:00:00,6:00:00,A,10,1\r\n",
    ),
    (
        "f/frequencies.txt",
        "\u{feff}trip_id,start_time,end_time,headway_secs\r\nt1,6:00:00,22:00:00,600\r\nt2,6:00:00,22:00:00,900\r\n",
    ),
    ("f/shapes.txt", "\u{feff}shape_id\r\n"),
    (
        "z",
        "\u{feff}zone_id,stop_id,walk_secs\r\nX,A,60\r\nY,B,30\r\n",
    ),
    (
        "d",
        "\u{feff}origin,destination,trips\r\nX,Y,0.000010\r\nX,X,1\r\n",
    ),
];

#[test]
fn reads_a_feed_as_agencies_export_it(rt: HostRuntime) -> Result<(), Fail> {
    expect_city(&rt, &EXPORTED, ASSIGN, Ending::printed(SUMMARY))?;
    Ok(())
}
