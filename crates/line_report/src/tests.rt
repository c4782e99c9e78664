//! The tables of small cities, worked out by hand by docs/FORMATS.md.

pub(crate) mod city;

use super::*;
use city::{A_CHANGE, THREE_STOPS, TWO_LINES, Texts, sample_of};
use desk_io::MemorySink;
use loading::{Totals, Volumes};
use std::alloc::Global;
use std::str::from_utf8;
use std::test::Fail;

// The reports with a row for each line, stop or segment.
#[derive(Clone, Copy, Debug, Drop, PartialEq, Eq)]
enum Kind {
    Lines,
    Stops,
    Segments,
}

// Ten units go from A to B, of which 6 take the first line and 4 the second one, which rides for
// 840000 ticks: 6 * 600000 and 4 * 840000 ticks.
const TWO_LINES_VOLUMES: [u64; 14] = [10, 0, 0, 6, 4, 0, 0, 0, 0, 10, 6, 6, 4, 4];

const TWO_LINES_TEXTS: [(Kind, &str); 3] = [
    (
        Kind::Lines,
        "line,route_id,weight,boardings,transfers,max_load,unit_ticks
0,R1,6000,6,0,6,3600000
1,R2,4000,4,0,4,3360000
",
    ),
    (
        Kind::Stops,
        "stop_id,first_boardings,later_boardings,alightings,access,egress
A,10,0,0,10,0
B,0,0,10,0,10
",
    ),
    (
        Kind::Segments,
        "line,position,from_stop_id,to_stop_id,boarded,alighted,load
0,0,A,B,6,0,6
1,0,A,B,4,0,4
",
    ),
];

// Eight units go from A to P1, walk to P2, and go on to C: just these board the second line as a
// transfer, and leave for their zone by the later node of C. The arcs are, by their tails: an access
// for each zone; at A an egress and a boarding in each layer; a walk from P1 in each layer; a walk
// and a boarding from P2 in each layer; an egress from C in each layer; on each line a ride and an
// alighting.
const A_CHANGE_VOLUMES: [u64; 18] = [8, 0, 0, 8, 0, 0, 0, 8, 0, 0, 0, 8, 0, 8, 8, 8, 8, 8];

const A_CHANGE_TEXTS: [(Kind, &str); 3] = [
    (
        Kind::Lines,
        "line,route_id,weight,boardings,transfers,max_load,unit_ticks
0,R1,6000,8,0,8,4800000
1,R2,6000,8,8,8,4800000
",
    ),
    (
        Kind::Stops,
        "stop_id,first_boardings,later_boardings,alightings,access,egress
A,8,0,0,8,0
P1,0,0,8,0,0
P2,0,8,0,0,0
C,0,0,8,0,8
",
    ),
    (
        Kind::Segments,
        "line,position,from_stop_id,to_stop_id,boarded,alighted,load
0,0,A,P1,8,0,8
1,0,P2,C,8,0,8
",
    ),
];

// From X 10 units board, and 5 walk to W by the first node of A; 4 of the 10 alight at B, where 12
// board, so that 6 dwell and 18 ride on. The ticks are 10 * 600000 + 6 * 60000 + 18 * 540000. The
// arcs are, by their tails: an access for each of four zones; at A two egresses and a boarding in
// each layer; at B an egress and a boarding in each layer; at C an egress in each layer; a ride, a
// dwell and an alighting, a ride and an alighting.
const THREE_STOPS_VOLUMES: [u64; 21] = [
    15, 0, 12, 0, 0, 5, 10, 0, 0, 0, 0, 12, 4, 0, 0, 18, 10, 6, 4, 18, 18,
];

const THREE_STOPS_TEXTS: [(Kind, &str); 3] = [
    (
        Kind::Lines,
        "line,route_id,weight,boardings,transfers,max_load,unit_ticks
0,R1,6000,22,0,18,16080000
",
    ),
    (
        Kind::Stops,
        "stop_id,first_boardings,later_boardings,alightings,access,egress
A,10,0,0,15,5
B,12,0,4,12,4
\"C,\"\"1\"\"\",0,0,18,0,18
",
    ),
    (
        Kind::Segments,
        "line,position,from_stop_id,to_stop_id,boarded,alighted,load
0,0,A,B,10,0,10
0,1,B,\"C,\"\"1\"\"\",12,4,18
",
    ),
];

// Writes a table of the city of these texts, with these volumes, into so much room.
fn write(
    alloc: Global,
    texts: &Texts,
    volumes: &[u64],
    kind: Kind,
    sink: &mut MemorySink,
) -> Result<Result<(), ReportFault>, Fail> {
    let sample = sample_of(alloc, texts)?;
    let (city, feed, lines) = (&sample.city, &sample.feed, &sample.lines);
    if city.net().arcs() as usize != volumes.len() {
        return Err("a volume for each arc".into());
    }
    let totals = Totals {
        units: 0,
        destinations: 0,
        cost: 0,
        bound: 0,
        slack: 0,
        volumes: Volumes::new(volumes.to_vec(alloc)?),
    };
    Ok(match kind {
        Kind::Lines => super::lines(alloc, sink, city, feed, lines, &totals),
        Kind::Stops => stops(alloc, sink, city, feed, lines, &totals),
        Kind::Segments => segments(alloc, sink, city, feed, lines, &totals),
    })
}

#[test]
fn units_are_told_by_line_stop_and_segment(rt: HostRuntime) -> Result<(), Fail> {
    let cases: [(&Texts, &[u64], &[(Kind, &str)]); 3] = [
        (&TWO_LINES, &TWO_LINES_VOLUMES, &TWO_LINES_TEXTS),
        (&A_CHANGE, &A_CHANGE_VOLUMES, &A_CHANGE_TEXTS),
        (&THREE_STOPS, &THREE_STOPS_VOLUMES, &THREE_STOPS_TEXTS),
    ];
    for (texts, volumes, tables) in cases {
        for (kind, text) in tables {
            let mut sink = MemorySink::new(rt.alloc(), 1000, 7, Vec::new(rt.alloc()))?;
            let answer = write(rt.alloc(), texts, volumes, *kind, &mut sink)?;
            assert_eq!(rt; answer, Ok(()), "{kind:?}");
            assert_eq!(rt; from_utf8(sink.bytes()).unwrap_or("?"), *text, "{kind:?}");
        }
    }
    Ok(())
}

#[test]
fn a_table_may_be_longer_than_a_page(rt: HostRuntime) -> Result<(), Fail> {
    // A page has 1024 rows. Nobody comes to the stops past A and B.
    let mut ids = String::new(rt.alloc());
    let mut rows = String::new(rt.alloc());
    ids.push_str(TWO_LINES.stops)?;
    rows.push_str(TWO_LINES_TEXTS[1].1)?;
    for number in 0..1100 {
        ids.push_str(format!(in rt.alloc(); "S{number}\n")?.as_str())?;
        rows.push_str(format!(in rt.alloc(); "S{number},0,0,0,0,0\n")?.as_str())?;
    }
    let texts = Texts {
        stops: ids.as_str(),
        ..TWO_LINES
    };
    let mut sink = MemorySink::new(rt.alloc(), 40_000, 7, Vec::new(rt.alloc()))?;
    let answer = write(
        rt.alloc(),
        &texts,
        &TWO_LINES_VOLUMES,
        Kind::Stops,
        &mut sink,
    )?;
    assert_eq!(rt; answer, Ok(()));
    assert_eq!(rt; from_utf8(sink.bytes()).unwrap_or("?"), rows.as_str());
    Ok(())
}

#[test]
fn a_fault_tells_how_much_of_a_table_was_sent(rt: HostRuntime) -> Result<(), Fail> {
    // The headers have 61, 65 and 60 bytes.
    for (kind, text) in TWO_LINES_TEXTS {
        let mut sink = MemorySink::new(rt.alloc(), 69, 7, Vec::new(rt.alloc()))?;
        let answer = write(rt.alloc(), &TWO_LINES, &TWO_LINES_VOLUMES, kind, &mut sink)?;
        assert_eq!(rt;
            answer,
            Err(ReportFault::WriteFault { sent: 69 }),
            "{kind:?}"
        );
        let front = text.get(..69).unwrap_or("");
        assert_eq!(rt; from_utf8(sink.bytes()).unwrap_or("?"), front, "{kind:?}");
    }
    Ok(())
}
