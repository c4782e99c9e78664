//! The refusals in their order, and the four-stop network of Spiess and Florian (1989).

use crate::{Limit, NetArc, NetFault, Network};
use definitions::{ARC_LIMIT, COST_LIMIT, K_LIMIT, NODE_LIMIT};
use std::alloc::Global;
use std::test::Fail;

fn arc(tail: u32, head: u32, cost: u32, weight: Option<u32>) -> NetArc {
    NetArc {
        tail,
        head,
        cost,
        weight,
    }
}

fn outside(arc: u32, node: u128) -> NetFault {
    NetFault::NodeOutside {
        arc: Some(arc),
        node,
    }
}

/// The four-stop network of Spiess and Florian (1989), with 84 ticks to the minute, weights of 30
/// for a departure a minute, and 1 tick to alight. Nodes: A 0, X 1, Y 2, B 3, on line 2 at X 4, on
/// line 3 at Y 5. Line 1 runs from A to B in 25 minutes, line 2 from A by X to Y in 7 and 6, line
/// 3 from X by Y to B in 4 and 4, line 4 from Y to B in 10; their mean waits are 6, 6, 15 and 3.
pub fn four_stops(alloc: Global) -> Result<Network, Fail> {
    let arcs = vec![in alloc;
        arc(0, 3, 2100, Some(5)),
        arc(0, 4, 588, Some(5)),
        arc(1, 2, 504, Some(5)),
        arc(1, 5, 336, Some(2)),
        arc(2, 3, 336, Some(2)),
        arc(2, 3, 840, Some(10)),
        arc(4, 1, 1, None),
        arc(4, 2, 504, None),
        arc(5, 3, 336, None),
        arc(5, 2, 1, None),
    ]?;
    Ok(Network::new(6, arcs, 2520)?)
}

#[test]
fn the_first_fault_is_answered(rt: HostRuntime) -> Result<(), Fail> {
    let fine = arc(0, 1, 1, None);
    let range = |limit, count| NetFault::Range { limit, count };
    let cases = [
        (
            NODE_LIMIT + 1,
            fine,
            fine,
            K_LIMIT + 1,
            range(Limit::Nodes, 1_048_577),
        ),
        (
            2,
            arc(0, 2, 1, None),
            fine,
            K_LIMIT + 1,
            range(Limit::K, 345_600_000_001),
        ),
        (2, arc(0, 3, 1, None), arc(2, 0, 1, None), 1, outside(0, 3)),
        (2, arc(5, 3, 0, None), fine, 1, outside(0, 5)),
        (2, arc(1, 3, 0, None), fine, 1, outside(0, 3)),
        (
            2,
            arc(1, 0, 0, Some(0)),
            fine,
            1,
            NetFault::ZeroCost { arc: 0 },
        ),
        (
            2,
            arc(1, 0, COST_LIMIT + 1, Some(0)),
            fine,
            1,
            range(Limit::Cost, 1_000_000_001),
        ),
        (
            2,
            arc(1, 0, 1, None),
            arc(0, 1, 1, Some(0)),
            1,
            NetFault::ZeroWeight { arc: 1 },
        ),
        (
            2,
            arc(1, 0, 1, None),
            fine,
            1,
            NetFault::NotGrouped { arc: 1 },
        ),
    ];
    for (nodes, one, two, k, fault) in cases {
        let arcs = vec![in rt.alloc(); one, two]?;
        assert_eq!(rt;
            Network::new(nodes, arcs, k).err(),
            Some(fault),
            "{fault:?}"
        );
    }
    Ok(())
}

#[test]
fn too_many_arcs_are_refused(rt: HostRuntime) -> Result<(), Fail> {
    let arcs = vec![in rt.alloc(); arc(9, 9, 0, None); ARC_LIMIT as usize + 1]?;
    let fault = NetFault::Range {
        limit: Limit::Arcs,
        count: 4_194_305,
    };
    assert_eq!(rt; Network::new(2, arcs, K_LIMIT + 1).err(), Some(fault));
    Ok(())
}

#[test]
fn a_node_has_its_arcs(rt: HostRuntime) -> Result<(), Fail> {
    let network = &four_stops(rt.alloc())?;
    assert_eq!(rt; network.nodes(), 6);
    assert_eq!(rt; network.arcs(), 10);
    assert_eq!(rt; network.k(), 2520);
    // By hand from the list of arcs: the first arc, how many leave, and which enter.
    let cases: [(u32, u32, usize, &[u32]); 6] = [
        (0, 0, 2, &[]),
        (1, 2, 2, &[6]),
        (2, 4, 2, &[2, 7, 9]),
        (3, 6, 0, &[0, 4, 5, 8]),
        (4, 6, 2, &[1]),
        (5, 8, 2, &[3]),
    ];
    for (node, first, count, into) in cases {
        assert!(rt; node < network.nodes());
        assert_eq!(rt; network.first(node), first, "first of {node}");
        assert_eq!(rt; network.out(node).len(), count, "out of {node}");
        let entering = network.entering(node);
        assert_eq!(rt; entering.len(), into.len(), "into {node}");
        for place in 0..into.len().min(entering.len()) {
            assert_eq!(rt; entering[place].arc, into[place], "into {node}");
        }
    }
    assert_eq!(rt; *network.arc(7), arc(4, 2, 504, None));
    assert_eq!(rt; network.out(4).get(1), Some(network.arc(7)));
    Ok(())
}

#[test]
fn the_longest_wait_is_that_of_the_rarest_line(rt: HostRuntime) -> Result<(), Fail> {
    let network = four_stops(rt.alloc())?;
    // Lines are boarded at A, X and Y. Line 3 has the longest wait, 15 minutes of 84 ticks.
    assert_eq!(rt; network.boarding_stops(), 3);
    assert_eq!(rt; network.least_weight(), 2);
    assert_eq!(rt; network.longest_wait(), 1260);
    let walks = Network::new(2, vec![in rt.alloc(); arc(0, 1, 1, None)]?, 2520)?;
    assert_eq!(rt; walks.boarding_stops(), 0);
    assert_eq!(rt; walks.least_weight(), 0);
    assert_eq!(rt; walks.longest_wait(), 0);
    // 7 / 3, rounded up.
    let odd = Network::new(2, vec![in rt.alloc(); arc(0, 1, 1, Some(3))]?, 7)?;
    assert_eq!(rt; odd.longest_wait(), 3);
    Ok(())
}
