//! The summary of a small city, worked out by docs/FORMATS.md.

use super::*;
use crate::tests::city::{TWO_LINES, sample_of};
use desk_io::MemorySink;
use loading::Volumes;
use std::test::Fail;

// Ten units go from A to B, of which 6 take the first line and 4 the second one. Its label is
// 966002 ticks, and a single line is waited for 450000 ticks at most.
const SUMMARY: &str = "\
nodes 12
arcs 14
zones 2
lines 2
trips-counted 2
trips-aside 0
transfers-aside 0
pairs 1
inside-zone 1000000
digits-dropped 0
boarding-stops 2
longest-wait 450000
destinations 1
units 10
boardings 10
transfers 0
cost 9660020
bound 9660020
gap 0
slack 1800020
";

const VOLUMES: [u64; 14] = [10, 0, 0, 6, 4, 0, 0, 0, 0, 10, 6, 6, 4, 4];

const COUNTS: Counts = Counts {
    zones: 2,
    counted: 2,
    trips_aside: 0,
    transfers_aside: 0,
    pairs: 1,
    inside: 1_000_000,
    dropped: 0,
};

// Writes the summary to a sink.
fn write(alloc: Global, sink: &mut MemorySink) -> Result<Result<(), ReportFault>, Fail> {
    let sample = sample_of(alloc, &TWO_LINES)?;
    let city = &sample.city;
    if city.net().arcs() != 14 {
        return Err("14 arcs".into());
    }
    let totals = Totals {
        units: 10,
        destinations: 1,
        cost: 9_660_020,
        bound: 9_660_020,
        slack: 1_800_020,
        volumes: Volumes::new(VOLUMES.to_vec(alloc)?),
    };
    Ok(summary(alloc, sink, city, &totals, &COUNTS))
}

#[test]
fn a_summary_has_a_line_for_each_number(rt: HostRuntime) -> Result<(), Fail> {
    let mut sink = MemorySink::new(rt.alloc(), 1000, 7, Vec::new(rt.alloc()))?;
    assert_eq!(rt; write(rt.alloc(), &mut sink)?, Ok(()));
    assert_eq!(rt; sink.bytes(), SUMMARY.as_bytes());
    Ok(())
}

#[test]
fn a_fault_tells_how_much_was_sent(rt: HostRuntime) -> Result<(), Fail> {
    let mut sink = MemorySink::new(rt.alloc(), 5, 1000, Vec::new(rt.alloc()))?;
    let fault = ReportFault::WriteFault { sent: 5 };
    assert_eq!(rt; write(rt.alloc(), &mut sink)?, Err(fault));
    assert_eq!(rt; sink.bytes(), b"nodes".as_slice());
    Ok(())
}
