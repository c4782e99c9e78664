//! A small city assigned, worked out by docs/FORMATS.md.

mod album;
mod city;

use crate::{AssignFault, assign};
use album::Album;
use city::{city_of, demand_of, feed_of, zones_of};
use loading::Totals;
use std::alloc::Global;
use std::test::Fail;

// What becomes of these rows of demand, shown to an album.
fn assigned(
    alloc: Global,
    rows: &str,
    album: &mut Album,
) -> Result<Result<Totals, AssignFault>, Fail> {
    let feed = feed_of(alloc)?;
    let zones = zones_of(alloc, &feed)?;
    let city = city_of(alloc, &feed, &zones)?;
    let demand = demand_of(alloc, rows, &zones)?;
    Ok(assign(alloc, &city, &demand, album))
}

// Zones X and Y are the nodes 0 to 3, A 4 and 5, B 6 and 7, the lines 8 and 9, 10 and 11. From A
// the lines lead to B in 630002 and 870002 ticks with the walk, and
// 6000 * (906002 - 630002) + 4000 * (906002 - 870002) is K. The goal of X does not reach.
const LABELS: [u64; 12] = [
    966_002, 60_000, 966_002, 0, 906_002, 906_002, 30_000, 30_000, 630_001, 30_001, 870_001, 30_001,
];

// The lines share 10 units by 6000 and 4000.
const VOLUMES: [u64; 14] = [10, 0, 0, 6, 4, 0, 0, 0, 0, 10, 6, 6, 4, 4];

// At A passengers wait: K * 6 / 6000 ticks times units, which is K * 4 / 4000.
const WAITS: [u128; 12] = [0, 0, 0, 0, 1_800_000, 0, 0, 0, 0, 0, 0, 0];

#[test]
fn the_demand_of_a_small_city_is_one_visit(rt: HostRuntime) -> Result<(), Fail> {
    let mut album = Album::new(rt.alloc(), false);
    let Ok(totals) = assigned(rt.alloc(), "X,Y,0.000010\nX,X,1\n", &mut album)? else {
        return Err("refused".into());
    };
    assert_eq!(rt; (totals.units, totals.destinations), (10, 1));
    // 10 units times the label at the origin of X.
    assert_eq!(rt; (totals.cost, totals.bound), (9_660_020, 9_660_020));
    // Two nodes with boardings, 10 units, and K / 4000 as the longest wait.
    assert_eq!(rt; totals.slack, 2 * (10 + 2 * 450_000));
    assert_eq!(rt; totals.volumes.as_slice(), VOLUMES.as_slice());
    let [shown] = album.shown() else {
        return Err("no single visit".into());
    };
    assert_eq!(rt; shown.dest, 3);
    assert_eq!(rt;
        shown.demand.as_slice(),
        [10, 0, 0, 0, 0, 0, 0, 0, 0, 0, 0, 0].as_slice()
    );
    assert_eq!(rt; shown.labels.as_slice(), LABELS.as_slice());
    assert_eq!(rt; shown.volumes.as_slice(), VOLUMES.as_slice());
    assert_eq!(rt; shown.waits.as_slice(), WAITS.as_slice());
    Ok(())
}

#[test]
fn a_failed_visit_is_the_visitors(rt: HostRuntime) -> Result<(), Fail> {
    let mut album = Album::new(rt.alloc(), true);
    let answer = assigned(rt.alloc(), "X,Y,0.000010\n", &mut album)?;
    assert!(rt; matches!(answer, Err(AssignFault::VisitorFailed)));
    assert!(rt; album.shown().is_empty());
    Ok(())
}

// No line leads from B to A. The pair to X comes first.
#[test]
fn a_pair_that_does_not_reach_is_named(rt: HostRuntime) -> Result<(), Fail> {
    let mut album = Album::new(rt.alloc(), false);
    let answer = assigned(rt.alloc(), "X,Y,0.000010\nY,X,1\n", &mut album)?;
    let unreachable = AssignFault::Unreachable {
        origin: 1,
        destination: 0,
    };
    assert!(rt; matches!(answer, Err(fault) if fault == unreachable));
    assert!(rt; album.shown().is_empty());
    Ok(())
}
