//! Labels worked out by hand, and those of random networks by the plain program.

use super::{Workspace, labels};
use crate::plain::plain_labels;
use definitions::{COST_LIMIT, K_LIMIT, NetArc, WEIGHT_LIMIT};
use lp_model::Network;
use std::alloc::Global;
use std::test::Fail;

fn arc(tail: u32, head: u32, cost: u32, weight: Option<u32>) -> NetArc {
    NetArc {
        tail,
        head,
        cost,
        weight,
    }
}

// Half an hour of regular headways, in ticks times thousandths of departures.
const HALF_HOUR: u64 = 1_800_000_000;

#[test]
fn labels_are_those_worked_out_by_hand(rt: HostRuntime) -> Result<(), Fail> {
    let cases: [(&str, u32, &[NetArc], u32, &[u64], &[u32]); 8] = [
        // A wait of 1800000000 / 12000 for either line, and walks to their stop.
        (
            "two equal lines and walks",
            4,
            &[
                arc(0, 1, 5, None),
                arc(1, 3, 600_000, Some(6000)),
                arc(1, 3, 600_000, Some(6000)),
                arc(2, 0, 1, None),
            ],
            3,
            &[750_005, 750_000, 750_006, 0],
            &[3, 1, 0, 2],
        ),
        // The first line alone is 900000. With the second it is
        // (1800000000 + 6000 * 600000 + 4000 * 899999) / 10000 = 899999.6.
        (
            "a slower line that is just worth it",
            2,
            &[
                arc(0, 1, 600_000, Some(6000)),
                arc(0, 1, 899_999, Some(4000)),
            ],
            1,
            &[899_999, 0],
            &[1, 0],
        ),
        // Now the second leads on in just the label of the first alone.
        (
            "a slower line in just the label",
            2,
            &[
                arc(0, 1, 600_000, Some(6000)),
                arc(0, 1, 900_000, Some(4000)),
            ],
            1,
            &[900_000, 0],
            &[1, 0],
        ),
        // 600000 + 1800000000 / 18000.
        (
            "three equal lines",
            2,
            &[
                arc(0, 1, 600_000, Some(6000)),
                arc(0, 1, 600_000, Some(6000)),
                arc(0, 1, 600_000, Some(6000)),
            ],
            1,
            &[700_000, 0],
            &[1, 0],
        ),
        // 600000 + 1800000000 / 6000 is just the walk.
        (
            "a walk as good as the line",
            2,
            &[arc(0, 1, 600_000, Some(6000)), arc(0, 1, 900_000, None)],
            1,
            &[900_000, 0],
            &[1, 0],
        ),
        // 60000 + 1800000000 / 7000 = 317142.8; node 2 has the label of the farthest.
        (
            "a node from which no way leads",
            3,
            &[arc(0, 1, 60_000, Some(7000))],
            1,
            &[317_142, 0, 317_142],
            &[1, 0],
        ),
        // (1800000000 + 5 * 4294967295 * 1000000000) / (5 * 4294967295) = 1000000000.08, of a
        // numerator past 2^64 = 18446744073709551616.
        (
            "combined weighted times past 64 bits",
            2,
            &[
                arc(0, 1, 1_000_000_000, Some(4_294_967_295)),
                arc(0, 1, 1_000_000_000, Some(4_294_967_295)),
                arc(0, 1, 1_000_000_000, Some(4_294_967_295)),
                arc(0, 1, 1_000_000_000, Some(4_294_967_295)),
                arc(0, 1, 1_000_000_000, Some(4_294_967_295)),
            ],
            1,
            &[1_000_000_000, 0],
            &[1, 0],
        ),
        // Equal labels stand by number.
        (
            "equal labels",
            4,
            &[arc(0, 3, 2, None), arc(1, 3, 2, None), arc(2, 3, 1, None)],
            3,
            &[2, 2, 1, 0],
            &[3, 2, 0, 1],
        ),
    ];
    for (name, nodes, arcs, dest, want, order) in cases {
        let net = Network::new(nodes, Vec::from_slice(rt.alloc(), arcs)?, HALF_HOUR)?;
        let mut ws = Workspace::new(rt.alloc(), &net)?;
        assert!(rt; dest < net.nodes());
        labels(&net, dest, &mut ws);
        assert_eq!(rt; ws.labels(), want, "{name}");
        assert_eq!(rt; ws.order(), order, "{name}");
        let plain = plain_labels(rt.alloc(), &net, dest)?;
        assert_eq!(rt; plain.labels.as_slice(), want, "{name}");
        assert_eq!(rt; plain.reached.as_slice(), ws.reached(), "{name}");
    }
    Ok(())
}

/// The network of Spiess and Florian's paper (1989): from A (0) to B (3) in 27.75 minutes of 84
/// ticks, from X (1) in 133.5 / 7, from Y (2) in 11.5, from line 2 at X (4) in 17.5, and from line 3
/// at Y (5) in 4.
#[test]
fn four_stops_have_the_labels_of_the_paper(rt: HostRuntime) -> Result<(), Fail> {
    let arcs = vec![in rt.alloc();
        arc(0, 3, 2100, Some(5)),
        arc(0, 4, 588, Some(5)),
        arc(1, 2, 504, Some(5)),
        arc(1, 5, 336, Some(2)),
        arc(2, 3, 336, Some(2)),
        arc(2, 3, 840, Some(10)),
        arc(4, 1, 1, None),
        arc(4, 2, 504, None),
        arc(5, 3, 336, None),
        arc(5, 2, 1, None),
    ]?;
    let net = Network::new(6, arcs, 2520)?;
    let mut ws = Workspace::new(rt.alloc(), &net)?;
    assert_eq!(rt; ws.labels(), [0; 6].as_slice());
    assert_eq!(rt; ws.order().len(), 0);
    assert_eq!(rt; net.nodes(), 6);
    labels(&net, 3, &mut ws);
    assert_eq!(rt; ws.labels(), [2331, 1602, 966, 0, 1470, 336].as_slice());
    assert_eq!(rt; ws.order(), [3, 5, 2, 4, 1, 0].as_slice());
    assert_eq!(rt; ws.reached(), [true; 6].as_slice());
    // The same room serves another destination: no arc leads to A.
    labels(&net, 0, &mut ws);
    assert_eq!(rt; ws.labels(), [0; 6].as_slice());
    assert_eq!(rt; ws.order(), [0].as_slice());
    Ok(())
}

// The next of a row of random numbers (Knuth's MMIX generator).
fn next(state: &mut u64) -> u64 {
    *state = state
        .wrapping_mul(6_364_136_223_846_793_005)
        .wrapping_add(1_442_695_040_888_963_407);
    *state >> 33
}

// A network of few nodes with ties, parallel arcs, costs and weights near their limits, and nodes
// from which no way leads.
fn random_network(alloc: Global, seed: u64) -> Result<Network, Fail> {
    let costs = [1, 1, 2, 3, 3, 1000, COST_LIMIT];
    let weights = [
        None,
        None,
        Some(1),
        Some(2),
        Some(2),
        Some(6000),
        Some(WEIGHT_LIMIT),
    ];
    let constants = [0, 1, 7, 1000, 12_000, K_LIMIT];
    let mut state = seed;
    let nodes = 2 + (next(&mut state) % 5) as u32;
    let k = constants[(next(&mut state) % 6) as usize];
    let mut arcs = Vec::new(alloc);
    for tail in 0..nodes {
        for _ in 0..next(&mut state) % 5 {
            let head = (next(&mut state) % 7) as u32;
            if head < nodes {
                let cost = costs[(next(&mut state) % 7) as usize];
                let weight = weights[(next(&mut state) % 7) as usize];
                arcs.push(arc(tail, head, cost, weight))?;
            }
        }
    }
    Ok(Network::new(nodes, arcs, k)?)
}

fn reaches(reached: &[bool], node: u32) -> bool {
    reached.get(node as usize).copied().unwrap_or(false)
}

// Whether a node comes after another by label, ties by number.
fn is_after(labels: &[u64], node: u32, other: u32) -> bool {
    let label = labels.get(node as usize).copied().unwrap_or(0);
    let before = labels.get(other as usize).copied().unwrap_or(0);
    before < label || before == label && other < node
}

// Whether an order is sorted by label and number and has just the nodes that reach.
fn is_in_order(labels: &[u64], reached: &[bool], order: &[u32]) -> bool {
    for place in 1..order.len() {
        if !is_after(labels, order[place], order[place - 1]) {
            return false;
        }
    }
    for node in order {
        if !reaches(reached, *node) {
            return false;
        }
    }
    order.len() == reached.iter().filter(|mark| **mark).count()
}

// The first destination whose labels are not those of the plain program, where the same room
// serves one after another.
fn first_that_differs(alloc: Global, net: &Network) -> Result<Option<u32>, Fail> {
    let mut ws = Workspace::new(alloc, net)?;
    for dest in 0..net.nodes() {
        labels(net, dest, &mut ws);
        let plain = plain_labels(alloc, net, dest)?;
        if ws.labels() != plain.labels.as_slice()
            || ws.reached() != plain.reached.as_slice()
            || !is_in_order(ws.labels(), ws.reached(), ws.order())
        {
            return Ok(Some(dest));
        }
    }
    Ok(None)
}

#[test]
fn random_networks_have_the_labels_of_the_plain_program(rt: HostRuntime) -> Result<(), Fail> {
    for seed in 0..120u64 {
        let net = random_network(rt.alloc(), seed)?;
        assert_eq!(rt; first_that_differs(rt.alloc(), &net)?, None, "seed {seed}");
    }
    Ok(())
}
