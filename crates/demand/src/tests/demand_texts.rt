//! Demands of texts, between the zones X and Y.

use super::city::small_city;
use super::told::{push_three, told};
use crate::{Demand, Zones};
use std::alloc::{AllocError, Global};
use std::fmt::Write;
use std::test::Fail;

// The zones X and Y, by the numbers 0 and 1.
fn two_zones(alloc: Global) -> Result<Zones, Fail> {
    let feed = small_city(alloc)?;
    let text = "zone_id,stop_id,walk_secs\nX,A,0\nY,B,0\n";
    Zones::read(alloc, text.as_bytes(), &feed).map_err(|_| "zones".into())
}

// Each pair from its origin to its destination, and the sums.
fn sums_shown(alloc: Global, demand: &Demand) -> Result<String, AllocError> {
    let mut shown = String::new(alloc);
    for pair in demand.pairs() {
        push_three(&mut shown, pair.origin, pair.destination, pair.units)?;
    }
    let (units, inside, dropped) = (demand.units(), demand.inside(), demand.dropped());
    write!(shown, "{units} {inside} {dropped}")?;
    Ok(shown)
}

// What a demand shows, or the fault.
fn shown(alloc: Global, zones: &Zones, text: &str) -> Result<String, AllocError> {
    match Demand::read(alloc, text.as_bytes(), zones) {
        Ok(demand) => sums_shown(alloc, &demand),
        Err(fault) => told(alloc, fault),
    }
}

const ROWS: [(&str, &str); 12] = [
    // 1.5 + 0.5 from X to Y, and 2 from Y to X, whose destination comes first; 3 stay inside X.
    (
        "X,Y,1.5\nX,Y,0.5\nY,X,2\nX,X,3\n",
        "1-0:2000000 0-1:2000000 4000000 3000000 0",
    ),
    // A pair without units is none. Both rows lose a digit, the second one inside Y.
    ("X,Y,0.0000009\nY,Y,1.0000001\n", "0 1000000 2"),
    ("", "0 0 0"),
    // The rows of a pair need not follow each other.
    (
        "X,Y,1\nY,X,1\nX,Y,1\n",
        "1-0:1000000 0-1:2000000 3000000 0 0",
    ),
    ("U,V,x\n", "unknown zone: demand 2 origin U"),
    ("X,V,x\n", "unknown zone: demand 2 destination V"),
    ("X,Y,x\n", "bad field: demand 2 trips x"),
    ("X,Y,1\n,Y,1\n", "unknown zone: demand 3 origin "),
    // 10^9 trips are 10^15 units. What stays inside a zone does not count.
    (
        "X,Y,1000000000\nX,X,9\n",
        "0-1:1000000000000000 1000000000000000 9000000 0",
    ),
    (
        "X,Y,1000000000\nY,X,0.000001\n",
        "range: Units 1000000000000001",
    ),
    // The first row past the limit is told, and a fault of a field before it.
    (
        "X,Y,999999999999\nX,Y,1\n",
        "range: Units 999999999999000000",
    ),
    (
        "X,Y,1000000000\nY,V,1\n",
        "unknown zone: demand 3 destination V",
    ),
];

#[test]
fn amounts_of_a_pair_are_added_up(rt: HostRuntime) -> Result<(), Fail> {
    let zones = two_zones(rt.alloc())?;
    for (rows, want) in ROWS {
        let text = format!(in rt.alloc(); "origin,destination,trips\n{rows}")?;
        assert_eq!(rt; shown(rt.alloc(), &zones, text.as_str())?.as_str(), want);
    }
    Ok(())
}

const SHEETS: [(&str, &str); 2] = [
    ("", "no header: demand 0  "),
    (
        "origin,destination\nX,Y\n",
        "missing column: demand 1 trips ",
    ),
];

#[test]
fn a_demand_has_three_columns(rt: HostRuntime) -> Result<(), Fail> {
    let zones = two_zones(rt.alloc())?;
    for (text, want) in SHEETS {
        assert_eq!(rt; shown(rt.alloc(), &zones, text)?.as_str(), want);
    }
    Ok(())
}
