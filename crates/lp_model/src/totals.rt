//! Totals of flows, waits and labels on a network, each in linear time.

ghost use Rattle.std.specs.Prelude.{◌≡◌, ◌+◌, ◌*◌, ◌^◌, ◌<◌, ◌≤◌, All, length, sum, sum_by, slice_index};
ghost use Rattle.definitions.specs.declared.limits.TheConstants.{NODE_LIMIT, ARC_LIMIT, K_LIMIT, UNIT_LIMIT, WAIT_LIMIT};
ghost use Rattle.definitions.specs.Network.{cost_of, arc_numbers};
ghost use Rattle.definitions.specs.Plan.{flow_out_of, flow_into, cost_of_plan};
ghost use Rattle.definitions.specs.Dual.{bound_of_labels};
ghost use Rattle.definitions.specs.Totals.{slack_of};

use crate::entering::Entering;
use crate::network::Network;

/// The cost of flows and waits: each arc's cost times its flow, and the waits (ticks times units).
pub fn cost_of(net: &Network, v: &[u64], q: &[u128]) -> u128
    requires flow_per_arc { length v.now ≡ length net.now.arcs }
    requires wait_per_node { length q.now ≡ net.now.nodes }
    requires waits { All (λ wait. wait ≤ WAIT_LIMIT) q.now }
    ensures value { result ≡ cost_of_plan net.now v.now q.now }
    ensures within { result < 2 ^ 127 }
{
    // There are no more waits than nodes may be.
    let _nodes = net.nodes();
    travel_of(net, v) + waits_of(q)
}

// The costs of the arcs, each times its flow.
#[tactic(auto, using(definitions::proofs::Sums::sum_more))]
fn travel_of(net: &Network, v: &[u64]) -> u128
    requires { length v.now ≡ length net.now.arcs }
    ensures value { result ≡ sum_by (λ arc. cost_of net.now arc * slice_index v.now arc) (arc_numbers net.now) }
    ensures within { result < 2 ^ 126 }
{
    let mut total = 0u128;
    for arc in 0..net.arcs() {
        total += product(net.arc(arc).cost, v[arc as usize]);
    }
    total
}

// The cost of a flow.
fn product(cost: u32, flow: u64) -> u128
    ensures value { result ≡ cost * flow }
    ensures within { result ≤ 79228162495817593515539431425 }
{
    cost as u128 * flow as u128
}

// The sum of the waits.
fn waits_of(waits: &[u128]) -> u128
    requires few { length waits.now ≤ NODE_LIMIT }
    requires each { All (λ wait. wait ≤ WAIT_LIMIT) waits.now }
    ensures value { result ≡ sum waits.now }
    ensures within { result < 2 ^ 126 }
{
    let mut total = 0u128;
    for wait in waits {
        total += *wait;
    }
    total
}

/// The bound of a demand (units) and labels (ticks): the demand of each node times its label.
#[tactic(auto, using(definitions::proofs::Sums::sum_more, std::proofs::lemmas::List::Sums::sum_by_more, std::proofs::lemmas::List::Sums::sum_by_more_le))]
pub fn bound_of(g: &[u64], u: &[u64]) -> u128
    requires label_per_node { length u.now ≡ length g.now }
    requires units { sum g.now ≤ UNIT_LIMIT }
    ensures value { result ≡ bound_of_labels g.now u.now }
    ensures within { result < 2 ^ 127 }
{
    let mut total = 0u128;
    for node in 0..g.len() {
        total += worth(g[node], u[node]);
    }
    total
}

// A demand times a label.
fn worth(units: u64, label: u64) -> u128
    ensures value { result ≡ units * label }
    ensures within { result ≤ 18446744073709551615 * units }
{
    units as u128 * label as u128
}

/// How far the cost of an assignment may lie above its bound (ticks times units).
///
/// `b` nodes have a boarding arc, `g` units are assigned, `h` is the longest wait in ticks, and `d`
/// destinations have demand.
pub fn slack(b: u32, g: u64, h: u64, d: u32) -> u128
    requires wait { h ≤ K_LIMIT }
    ensures value { result ≡ slack_of b g h d }
{
    b as u128 * (g as u128 + 2 * h as u128 * d as u128)
}

/// The flow out of node `n` (units), in time linear in its arcs.
pub fn flow_out(net: &Network, v: &[u64], n: u32) -> u128
    requires flow_per_arc { length v.now ≡ length net.now.arcs }
    requires node { n < net.now.nodes }
    ensures value { result ≡ flow_out_of net.now v.now n }
    ensures within { result < 2 ^ 96 }
{
    // A node has no more arcs than there may be.
    let _arcs = net.arcs();
    let first = net.first(n) as usize;
    sum_of(&v[first..first + net.out(n).len()])
}

// The sum of some flows.
fn sum_of(flows: &[u64]) -> u128
    requires few { length flows.now ≤ ARC_LIMIT }
    ensures value { result ≡ sum flows.now }
    ensures within { result < 2 ^ 96 }
{
    let mut total = 0u128;
    for flow in flows {
        total += *flow as u128;
    }
    total
}

/// The flow into node `n` (units), in time linear in its arcs.
pub fn flow_in(net: &Network, v: &[u64], n: u32) -> u128
    requires flow_per_arc { length v.now ≡ length net.now.arcs }
    requires node { n < net.now.nodes }
    ensures value { result ≡ flow_into net.now v.now n }
    ensures within { result < 2 ^ 96 }
{
    // A node has no more arcs than there may be.
    let _arcs = net.arcs();
    sum_at(v, net.entering(n))
}

// The sum of the flows of some arcs.
fn sum_at(flows: &[u64], arcs: &[Entering]) -> u128
    requires few { length arcs.now ≤ ARC_LIMIT }
    requires there { All (λ arc. arc.arc < length flows.now) arcs.now }
    ensures value { result ≡ sum_by (λ arc. slice_index flows.now arc.arc) arcs.now }
    ensures within { result < 2 ^ 96 }
{
    let mut total = 0u128;
    for arc in arcs {
        total += flows[arc.arc as usize] as u128;
    }
    total
}

#[cfg(test)]
mod tests;
