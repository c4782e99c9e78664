//! From an empty state to the labels of a destination.

ghost use Rattle.std.specs.Prelude.{◌≡◌, ◌<◌, ◌≤◌, ◌^◌, All, length, IsTrue, IsFalse, slice_index, EachIndex, if◌then◌else◌};
ghost use Rattle.definitions.specs.declared.limits.TheConstants.{LABEL_LIMIT};
ghost use Rattle.definitions.specs.Reach.{is_reached, IsReach};
ghost use Rattle.definitions.specs.Labels.{SolvesLabels, IsOrder};
ghost use Rattle.label_setting.specs.Queue.{IsEmpty};
ghost use Rattle.label_setting.specs.Settling.{IsMadeFor, IsBounded, IsToSpread, Settles, mark_in, number_in, order_in};
ghost use Rattle.label_setting.specs.Changes.{IsReset, IsFarthest, IsSpreadFrom};
ghost use Rattle.label_setting.specs.Partway.{left};

use crate::settling::{Settling, UNBOUNDED, join_open, mark, offer};
use lp_model::Network;

// Looks at the arcs into a node that was settled with this label.
fn spread(net: &Network, dest: u32, node: u32, label: u64, state: &mut Settling)
    requires made { IsMadeFor net.now state.old }
    requires bounded { IsBounded net.now state.old }
    requires label { label < 2 ^ 63 }
    requires spreads { IsToSpread net.now dest node label state.old }
    ensures made { IsMadeFor net.now state.new }
    ensures bounded { IsBounded net.now state.new }
    ensures settles { Settles net.now dest state.new }
    ensures spread { IsSpreadFrom net.now node state.old state.new }
{
    net.rules();
    for arc in net.entering(node) {
        offer(net, *arc, label, state);
    }
}

// Takes what is first in the queue, and settles or joins it. False where the queue is empty.
fn step(net: &Network, dest: u32, state: &mut Settling) -> bool
    requires made { IsMadeFor net.now state.old }
    requires bounded { IsBounded net.now state.old }
    requires settles { Settles net.now dest state.old }
    ensures made { IsMadeFor net.now state.new }
    ensures bounded { IsBounded net.now state.new }
    ensures settles { Settles net.now dest state.new }
    ensures more { IsTrue result → left net.now (mark_in state.new) (number_in state.new) < left net.now (mark_in state.old) (number_in state.old) }
    ensures last { IsFalse result → IsEmpty state.new.queue }
{
    net.rules();
    let arcs = net.arcs();
    let Some(taken) = state.queue.take() else {
        return false;
    };
    if taken.item < arcs {
        join_open(net, taken.item, taken.number, state);
        return true;
    }
    mark(net, taken.item - arcs, taken.number, state);
    spread(net, dest, taken.item - arcs, taken.number, state);
    true
}

// Settles all nodes that reach.
fn run(net: &Network, dest: u32, state: &mut Settling)
    requires made { IsMadeFor net.now state.old }
    requires bounded { IsBounded net.now state.old }
    requires settles { Settles net.now dest state.old }
    ensures made { IsMadeFor net.now state.new }
    ensures settles { Settles net.now dest state.new }
    ensures empty { IsEmpty state.new.queue }
{
    while step(net, dest, state) {}
}

// Forgets the labels of another destination.
fn reset(net: &Network, state: &mut Settling)
    requires made { IsMadeFor net.now state.old }
    requires empty { IsEmpty state.old.queue }
    ensures made { IsMadeFor net.now state.new }
    ensures bounded { IsBounded net.now state.new }
    ensures reset { IsReset state.new }
{
    state.reached.fill(false);
    state.weights.fill(0);
    state.totals.fill(0);
    state.bounds.fill(UNBOUNDED);
    state.settled = 0;
    // There are no more marks than nodes may be.
    let _nodes = net.nodes();
}

// Settles the destination.
fn start(net: &Network, dest: u32, state: &mut Settling)
    requires made { IsMadeFor net.now state.old }
    requires empty { IsEmpty state.old.queue }
    requires dest { dest < net.now.nodes }
    ensures made { IsMadeFor net.now state.new }
    ensures bounded { IsBounded net.now state.new }
    ensures settles { Settles net.now dest state.new }
{
    net.rules();
    reset(net, state);
    mark(net, dest, 0, state);
    spread(net, dest, dest, 0, state);
}

// The greatest label of the nodes that reach.
fn farthest(net: &Network, dest: u32, state: &Settling) -> u64
    requires made { IsMadeFor net.now state.now }
    requires dest { dest < net.now.nodes }
    requires settles { Settles net.now dest state.now }
    ensures { IsFarthest state.now result }
{
    let last = state.order[state.settled as usize - 1];
    state.labels[last as usize]
}

/// Gives each node that does not reach this label.
pub fn fill(labels: &mut [u64], reached: &[bool], far: u64)
    requires { length labels.old ≡ length reached.now }
    ensures each { EachIndex labels.new (λ node. slice_index labels.new node ≡ (if is_reached reached.now node then slice_index labels.old node else far)) }
    ensures count { length labels.new ≡ length labels.old }
{
    for node in 0..labels.len() {
        labels[node] = label_or(reached[node], labels[node], far);
    }
}

// The label of a node that reaches, and this one for another.
fn label_or(reached: bool, label: u64, far: u64) -> u64
    ensures { result ≡ (if reached then label else far) }
{
    if reached { label } else { far }
}

/// The labels to `dest`, which nodes reach it, and these in order.
pub fn solve(net: &Network, dest: u32, state: &mut Settling)
    requires made { IsMadeFor net.now state.old }
    requires empty { IsEmpty state.old.queue }
    requires dest { dest < net.now.nodes }
    ensures made { IsMadeFor net.now state.new }
    ensures empty { IsEmpty state.new.queue }
    ensures reach { IsReach net.now dest state.new.reached.items }
    ensures labels { SolvesLabels net.now dest state.new.reached.items state.new.labels.items }
    ensures order { IsOrder state.new.reached.items state.new.labels.items (order_in state.new) }
    ensures within { All (λ label. label ≤ LABEL_LIMIT) state.new.labels.items }
    ensures settled { state.new.settled ≤ length state.new.order.items }
{
    net.rules();
    start(net, dest, state);
    run(net, dest, state);
    let far = farthest(net, dest, state);
    fill(&mut state.labels, &state.reached, far);
}
