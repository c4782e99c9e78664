//! The optimal strategy from A to B on the four-stop network, for 12 units.

use super::*;
use crate::network::tests::four_stops;
use std::test::Fail;

#[test]
fn the_optimal_strategy_meets_its_bound(rt: HostRuntime) -> Result<(), Fail> {
    let network = four_stops(rt.alloc())?;
    assert_eq!(rt; network.nodes(), 6);
    assert_eq!(rt; network.arcs(), 10);
    // Lines 1 and 2 take 6 each; at Y line 3 takes 1 and line 4 takes 5.
    let flows = [6, 6, 0, 0, 1, 5, 0, 6, 0, 0];
    // 2520 * 6 / 5 at A, and 2520 * 1 / 2 = 2520 * 5 / 10 at Y.
    let waits = [3024, 0, 1260, 0, 0, 0];
    // 27.75, 19 1/14, 11.5, 0, 17.5 and 4 minutes.
    let labels = [2331, 1602, 966, 0, 1470, 336];
    // 6 * 2100 + 6 * 588 + 6 * 504 + 1 * 336 + 5 * 840 + 3024 + 1260, and 12 * 2331.
    assert_eq!(rt; cost_of(&network, &flows, &waits), 27_972);
    assert_eq!(rt; bound_of(&[12, 0, 0, 0, 0, 0], &labels), 27_972);
    // 3 * (12 + 2 * 1260 * 1).
    assert_eq!(rt; slack(3, 12, 1260, 1), 7_596);
    Ok(())
}

#[test]
fn flow_is_conserved(rt: HostRuntime) -> Result<(), Fail> {
    let network = four_stops(rt.alloc())?;
    assert_eq!(rt; network.arcs(), 10);
    let flows = [6, 6, 0, 0, 1, 5, 0, 6, 0, 0];
    for (node, into, out) in [
        (0, 0, 12),
        (1, 0, 0),
        (2, 6, 6),
        (3, 12, 0),
        (4, 6, 6),
        (5, 0, 0),
    ] {
        assert!(rt; node < network.nodes());
        assert_eq!(rt; flow_in(&network, &flows, node), into, "into {node}");
        assert_eq!(rt; flow_out(&network, &flows, node), out, "out of {node}");
    }
    Ok(())
}
