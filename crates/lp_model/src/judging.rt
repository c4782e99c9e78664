//! Whether numbers make a network.

ghost use Rattle.std.specs.Prelude.{◌≡◌, ◌≤◌, [], length, slice_get, MatchResult, Some};
ghost use Rattle.definitions.specs.declared.limits.TheConstants.{ARC_LIMIT};
ghost use Rattle.lp_model.specs.Faults.{size_faults, arcs_faults};
ghost use Rattle.lp_model.specs.Parts.{network_with};

use crate::fault::{Limit, NetFault};
use crate::wide_arc::WideArc;
use definitions::{ARC_LIMIT, K_LIMIT, NODE_LIMIT, NetArc};

/// Judges the number of nodes, the number of arcs and the wait constant, in this order.
pub fn judge_sizes(nodes: u32, arcs: &[NetArc], k: u64) -> Result<(), NetFault>
    ensures judged { MatchResult result
        (λ _. size_faults (network_with nodes arcs.now k) ≡ [])
        (λ fault. slice_get (size_faults (network_with nodes arcs.now k)) 0 ≡ Some fault) }
{
    if nodes > NODE_LIMIT {
        return Err(NetFault::Range {
            limit: Limit::Nodes,
            count: nodes as u128,
        });
    }
    if arcs.len() > ARC_LIMIT as usize {
        return Err(NetFault::Range {
            limit: Limit::Arcs,
            count: arcs.len() as u128,
        });
    }
    if k > K_LIMIT {
        return Err(NetFault::Range {
            limit: Limit::K,
            count: k as u128,
        });
    }
    Ok(())
}

/// Judges the arcs in turn.
pub fn judge_arcs(nodes: u32, arcs: &[NetArc], k: u64) -> Result<(), NetFault>
    requires few { length arcs.now ≤ ARC_LIMIT }
    ensures judged { MatchResult result
        (λ _. arcs_faults (network_with nodes arcs.now k) ≡ [])
        (λ fault. slice_get (arcs_faults (network_with nodes arcs.now k)) 0 ≡ Some fault) }
{
    let mut before = 0;
    for number in 0..arcs.len() {
        let arc = arcs[number];
        WideArc::from(arc).judge(nodes, before, number as u32)?;
        before = arc.tail;
    }
    Ok(())
}
