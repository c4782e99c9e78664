//! A city of two stops and two lines, and what edits of a scenario change.

use super::{
    BANDS, CALLS, NO_EDITS, STOPS, Shown, TRANSFERS, ZONES, built, feed_of, has_arcs, has_nodes,
};
use crate::city::CityNet;
use crate::fault::{BuildFault, Limit};
use crate::kinds::{ArcKind, NodeKind};
use std::alloc::Global;
use std::test::Fail;

// The city in a scenario of these rows.
fn city_in(alloc: Global, rows: &str) -> Result<CityNet, Fail> {
    let feed = feed_of(alloc, STOPS, CALLS, BANDS, TRANSFERS)?;
    built(alloc, &feed, ZONES, rows)?.map_err(|_| "a city".into())
}

// The arcs of the city. Zones X and Y are the nodes 0 to 3, A 4 and 5, B 6 and 7, the lines 8 and 9,
// 10 and 11.
const ARCS: [Shown; 14] = [
    (0, 4, 60_000, None, ArcKind::Access),
    (1, 6, 30_000, None, ArcKind::Access),
    (4, 2, 60_000, None, ArcKind::Egress),
    (4, 8, 1, Some(6_000), ArcKind::BoardFirst),
    (4, 10, 1, Some(4_000), ArcKind::BoardFirst),
    (5, 2, 60_000, None, ArcKind::Egress),
    (5, 8, 1, Some(6_000), ArcKind::BoardLater),
    (5, 10, 1, Some(4_000), ArcKind::BoardLater),
    (6, 3, 30_000, None, ArcKind::Egress),
    (7, 3, 30_000, None, ArcKind::Egress),
    (8, 9, 600_000, None, ArcKind::Ride),
    (9, 7, 1, None, ArcKind::Alight),
    (10, 11, 840_000, None, ArcKind::Ride),
    (11, 7, 1, None, ArcKind::Alight),
];

#[test]
fn a_city_has_the_nodes_and_arcs_of_its_parts(rt: HostRuntime) -> Result<(), Fail> {
    let city = city_in(rt.alloc(), NO_EDITS)?;
    let nodes = [
        NodeKind::Origin { zone: 0 },
        NodeKind::Origin { zone: 1 },
        NodeKind::Goal { zone: 0 },
        NodeKind::Goal { zone: 1 },
        NodeKind::First { stop: 0 },
        NodeKind::Later { stop: 0 },
        NodeKind::First { stop: 1 },
        NodeKind::Later { stop: 1 },
        NodeKind::Leave { line: 0, place: 0 },
        NodeKind::Reach { line: 0, place: 1 },
        NodeKind::Leave { line: 1, place: 0 },
        NodeKind::Reach { line: 1, place: 1 },
    ];
    assert!(rt; has_nodes(&city, &nodes));
    assert!(rt; has_arcs(&city, &ARCS));
    Ok(())
}

#[test]
fn nobody_boards_or_alights_at_a_closed_stop(rt: HostRuntime) -> Result<(), Fail> {
    let city = city_in(rt.alloc(), "edit,target,value\nclose,A,\nclose,B,\n")?;
    let arcs = [
        (0, 4, 60_000, None, ArcKind::Access),
        (1, 6, 30_000, None, ArcKind::Access),
        (4, 2, 60_000, None, ArcKind::Egress),
        (5, 2, 60_000, None, ArcKind::Egress),
        (6, 3, 30_000, None, ArcKind::Egress),
        (7, 3, 30_000, None, ArcKind::Egress),
        (8, 9, 600_000, None, ArcKind::Ride),
        (10, 11, 840_000, None, ArcKind::Ride),
    ];
    assert_eq!(rt; city.net().nodes(), 12);
    assert!(rt; has_arcs(&city, &arcs));
    Ok(())
}

// A dropped route, a fare of the other one with a transfer, and walks of twice the time.
#[test]
fn edits_change_lines_boardings_and_walks(rt: HostRuntime) -> Result<(), Fail> {
    let rows = "edit,target,value\ndrop,R2,\nfare,R1,100\ntransfer,,30\npace,,200\n";
    let city = city_in(rt.alloc(), rows)?;
    let arcs = [
        (0, 4, 120_000, None, ArcKind::Access),
        (1, 6, 60_000, None, ArcKind::Access),
        (4, 2, 120_000, None, ArcKind::Egress),
        (4, 8, 100_000, Some(6_000), ArcKind::BoardFirst),
        (5, 2, 120_000, None, ArcKind::Egress),
        (5, 8, 130_000, Some(6_000), ArcKind::BoardLater),
        (6, 3, 60_000, None, ArcKind::Egress),
        (7, 3, 60_000, None, ArcKind::Egress),
        (8, 9, 600_000, None, ArcKind::Ride),
        (9, 7, 1, None, ArcKind::Alight),
    ];
    assert_eq!(rt; city.net().nodes(), 10);
    assert!(rt; has_arcs(&city, &arcs));
    Ok(())
}

#[test]
fn a_dropped_route_has_no_nodes_and_arcs(rt: HostRuntime) -> Result<(), Fail> {
    let city = city_in(rt.alloc(), "edit,target,value\ndrop,R2,\n")?;
    let arcs = [
        (0, 4, 60_000, None, ArcKind::Access),
        (1, 6, 30_000, None, ArcKind::Access),
        (4, 2, 60_000, None, ArcKind::Egress),
        (4, 8, 1, Some(6_000), ArcKind::BoardFirst),
        (5, 2, 60_000, None, ArcKind::Egress),
        (5, 8, 1, Some(6_000), ArcKind::BoardLater),
        (6, 3, 30_000, None, ArcKind::Egress),
        (7, 3, 30_000, None, ArcKind::Egress),
        (8, 9, 600_000, None, ArcKind::Ride),
        (9, 7, 1, None, ArcKind::Alight),
    ];
    assert_eq!(rt; city.net().nodes(), 10);
    assert!(rt; has_arcs(&city, &arcs));
    Ok(())
}

#[test]
fn a_fare_is_that_of_the_boardings_of_its_route(rt: HostRuntime) -> Result<(), Fail> {
    let city = city_in(rt.alloc(), "edit,target,value\nfare,R2,100\n")?;
    let mut arcs = ARCS;
    arcs[4] = (4, 10, 100_000, Some(4_000), ArcKind::BoardFirst);
    arcs[7] = (5, 10, 100_000, Some(4_000), ArcKind::BoardLater);
    assert_eq!(rt; city.net().nodes(), 12);
    assert!(rt; has_arcs(&city, &arcs));
    Ok(())
}

// The fault of the city with these links, None where there is none.
fn fault_with(alloc: Global, links: &str) -> Result<Option<BuildFault>, Fail> {
    let feed = feed_of(alloc, STOPS, CALLS, BANDS, TRANSFERS)?;
    Ok(built(alloc, &feed, links, NO_EDITS)?.err())
}

// A walk of a million seconds costs 10^9 ticks, which is the limit.
#[test]
fn the_first_arc_past_the_limit_of_costs_is_refused(rt: HostRuntime) -> Result<(), Fail> {
    let most = fault_with(rt.alloc(), "zone_id,stop_id,walk_secs\nX,A,1000000\n")?;
    assert_eq!(rt; most, None);
    let links = "zone_id,stop_id,walk_secs\nX,A,1000001\nX,B,1000002\n";
    let past = fault_with(rt.alloc(), links)?;
    let fault = BuildFault::Range {
        limit: Limit::Cost,
        count: 1_000_001_000,
    };
    assert_eq!(rt; past, Some(fault));
    Ok(())
}
