//! A small city: two lines between two stops, each the stop of one zone.

use super::running::{Ending, Trial, expect};
use super::texts::{replaced, replaced_all};
use std::alloc::{AllocError, Global};
use std::process::Abort;

/// A feed, tables of zones and demand, and tables of walks and edits that have no rows.
///
/// Rides take 600 and 840 seconds, and headways are 600 and 900 seconds. So in an hour the lines
/// have the weights 6000 and 4000.
pub const CITY: [(&str, &str); 10] = [
    (
        "f/stops.txt",
        "stop_id,stop_name\nA,Ash Street\nB,Bay Road\n",
    ),
    ("f/routes.txt", "route_id\nR1\nR2\n"),
    (
        "f/calendar.txt",
        "service_id,monday,tuesday,wednesday,thursday,friday,saturday,sunday,start_date,end_date\nWK,1,1,1,1,1,0,0,20250101,20251231\n",
    ),
    (
        "f/trips.txt",
        "route_id,service_id,trip_id\nR1,WK,t1\nR2,WK,t2\n",
    ),
    (
        "f/stop_times.txt",
        "trip_id,arrival_time,departure_time,stop_id,stop_sequence
t1,06:00:00,06:00:00,A,1
t1,06:10:00,06:10:00,B,2
t2,06:00:00,06:00:00,A,1
t2,06:14:00,06:14:00,B,2
",
    ),
    (
        "f/frequencies.txt",
        "trip_id,start_time,end_time,headway_secs
t1,06:00:00,22:00:00,600
t2,06:00:00,22:00:00,900
",
    ),
    ("z", "zone_id,stop_id,walk_secs\nX,A,60\nY,B,30\n"),
    ("d", "origin,destination,trips\nX,Y,0.000010\nX,X,1\n"),
    ("w", "from_stop_id,to_stop_id,walk_secs\n"),
    ("s", "edit,target,value\n"),
];

/// The words of an assignment of the city.
pub const ASSIGN: &str =
    "assign f --date 20250602 --from 07:00:00 --to 08:00:00 --zones z --demand d";

/// The words of an assignment of the city in a scenario.
pub const IN_SCENARIO: &str =
    "assign f --date 20250602 --from 07:00:00 --to 08:00:00 --zones z --demand d --scenario s";

/// The summary of the city: ten units from A to B, and one trip inside of X.
///
/// From A the lines lead to the goal of Y in 630002 and 870002 ticks: a tick to board, the ride, a
/// tick to alight and a walk of 30000. With K = 10000 * 50 * 3600 the label of A is 906002, since
/// 6000 * (906002 - 630002) + 4000 * (906002 - 870002) is K. The walk to A is 60000, so the label of X
/// is 966002, ten times of which is the bound. The slack is 2 * (10 + 2 * 450000), for two stops with
/// boardings and the longest wait K / 4000.
pub const SUMMARY: &str = "nodes 12
arcs 14
zones 2
lines 2
trips-counted 2
trips-aside 0
transfers-aside 0
pairs 1
inside-zone 1000000
digits-dropped 0
boarding-stops 2
longest-wait 450000
destinations 1
units 10
boardings 10
transfers 0
cost 9660020
bound 9660020
gap 0
slack 1800020
";

/// Asserts that a run over the files ends so.
pub fn expect_city(
    rt: &(impl Abort + AllocGlobal),
    files: &[(&str, &str)],
    words: &str,
    ending: Ending<'_>,
) -> Result<(), AllocError> {
    let words: Vec<&str> = words.split_whitespace().collect(rt.alloc())?;
    expect(rt, Trial::new(files, words.as_slice()), ending)
}

/// Asserts that a run over the city, with another part in place of one of one of its files, prints
/// its summary with these other lines in place of some. `change` is the path, the part and the other.
pub fn expect_summary(
    rt: &(impl Abort + AllocGlobal),
    words: &str,
    change: (&str, &str, &str),
    lines: &[(&str, &str)],
) -> Result<(), AllocError> {
    let summary = replaced_all(rt.alloc(), SUMMARY, lines)?;
    expect_changed(rt, words, change, Ending::printed(summary.as_str()))
}

/// Asserts that a run over the city, with another part in place of one of one of its files, ends so.
/// `change` is the path, the part and the other.
pub fn expect_changed(
    rt: &(impl Abort + AllocGlobal),
    words: &str,
    change: (&str, &str, &str),
    ending: Ending<'_>,
) -> Result<(), AllocError> {
    let text = replaced(rt.alloc(), text_at(&CITY, change.0), change.1, change.2)?;
    let files = with_file(rt.alloc(), &CITY, change.0, text.as_str())?;
    expect_city(rt, files.as_slice(), words, ending)
}

/// The text of the file at a path, and an empty one where there is none.
pub fn text_at<'f>(files: &[(&'f str, &'f str)], path: &str) -> &'f str {
    for file in files {
        if file.0 == path {
            return file.1;
        }
    }
    ""
}

/// The files with this text at a path.
pub fn with_file<'f>(
    alloc: Global,
    files: &[(&'f str, &'f str)],
    path: &'f str,
    text: &'f str,
) -> Result<Vec<(&'f str, &'f str)>, AllocError> {
    let mut made = without(alloc, files, path)?;
    made.push((path, text))?;
    Ok(made)
}

/// The files without the one at a path.
pub fn without<'f>(
    alloc: Global,
    files: &[(&'f str, &'f str)],
    path: &str,
) -> Result<Vec<(&'f str, &'f str)>, AllocError> {
    let mut made = Vec::new(alloc);
    for file in files {
        if file.0 != path {
            made.push(*file)?;
        }
    }
    Ok(made)
}
