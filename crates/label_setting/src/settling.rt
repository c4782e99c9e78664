//! What labels are settled in, and what one step changes there.

ghost use Rattle.std.specs.Prelude.{◌≡◌, ◌+◌, ◌*◌, ◌/◌, ◌<◌, ◌^◌, false, length, replicate, nat_lt, IfOk, IsTrue, IsFalse, if◌then◌else◌};
ghost use Rattle.definitions.specs.Network.{tail_of, cost_of, weight_of, is_boarding};
ghost use Rattle.lp_model.specs.Entered.{IsEntering};
ghost use Rattle.label_setting.specs.Queue.{IsEmpty};
ghost use Rattle.label_setting.specs.Settling.{IsMadeFor, IsBounded, IsBoundedBut, mark_in, number_in};
ghost use Rattle.label_setting.specs.Changes.{IsSettledBy, IsQueuedAs, IsJoinedBy, IsOffered, JoinFits, item_of, is_by};

use crate::queue::Queue;
use lp_model::{Entering, Network};
use std::alloc::{AllocError, Global};

/// The labels to a node as far as they are settled, and what is known of the other nodes: for each
/// the combined weight of the boarding arcs that joined there, the sum of their weights times what
/// they lead to, what bounds it, and the queue of arcs and nodes.
///
/// A node's bound is one number that tells what an arc out of it has to save on: 0 once the node is
/// settled, before that its number in the queue, and `UNBOUNDED` where it has none.
#[derive(Drop)]
pub struct Settling {
    pub labels: Vec<u64>,
    pub reached: Vec<bool>,
    pub order: Vec<u32>,
    pub settled: u32,
    pub weights: Vec<u64>,
    pub totals: Vec<u128>,
    pub bounds: Vec<u64>,
    pub queue: Queue,
}

/// The bound of a node that has no number.
pub const UNBOUNDED: u64 = 18_446_744_073_709_551_615;

impl Settling {
    /// Room for the nodes and arcs of a network, with no node settled.
    pub fn new(alloc: Global, net: &Network) -> Result<Settling, AllocError>
        ensures made { IfOk result (λ state. IsMadeFor net.now state) }
        ensures unsettled { IfOk result (λ state. state.settled ≡ 0) }
        ensures labels { IfOk result (λ state. state.labels.items ≡ replicate net.now.nodes 0) }
        ensures reached { IfOk result (λ state. state.reached.items ≡ replicate net.now.nodes false) }
        ensures empty { IfOk result (λ state. IsEmpty state.queue) }
    {
        let nodes = net.nodes();
        let count = nodes as usize;
        Ok(Settling {
            labels: vec![in alloc; 0; count]?,
            reached: vec![in alloc; false; count]?,
            order: vec![in alloc; 0; count]?,
            settled: 0,
            weights: vec![in alloc; 0; count]?,
            totals: vec![in alloc; 0; count]?,
            bounds: vec![in alloc; UNBOUNDED; count]?,
            queue: Queue::new(alloc, net.arcs() + nodes)?,
        })
    }
}

/// Settles a node at a label, and looks at no arc yet.
pub fn mark(net: &Network, node: u32, label: u64, state: &mut Settling)
    requires made { IsMadeFor net.now state.old }
    requires node { node < net.now.nodes }
    requires room { state.old.settled < net.now.nodes }
    requires bounded { IsBoundedBut net.now node state.old }
    ensures settled { IsSettledBy net.now node label state.old state.new }
    ensures bounded { IsBounded net.now state.new }
    ensures made { IsMadeFor net.now state.new }
{
    // No more nodes are settled than there may be.
    let _nodes = net.nodes();
    let place = node as usize;
    state.labels[place] = label;
    state.reached[place] = true;
    state.bounds[place] = 0;
    state.order[state.settled as usize] = node;
    state.settled += 1;
}

/// Looks at an arc that leads to a settled node with this label. One that leads to the bound of its
/// tail or past it saves nothing. A free arc bounds its tail. A boarding arc joins the others of its
/// tail when the queue comes to what it leads to, and at once where this is one tick: the label is
/// the same.
pub fn offer(net: &Network, entering: Entering, label: u64, state: &mut Settling)
    requires made { IsMadeFor net.now state.old }
    requires entering { IsEntering net.now entering }
    requires label { label < 2 ^ 63 }
    requires bounded { IsBounded net.now state.old }
    requires fits { IsFalse (mark_in state.old (tail_of net.now entering.arc)) → IsTrue (is_boarding net.now entering.arc)
        → IsFalse (is_by (number_in state.old (item_of net.now (tail_of net.now entering.arc))) (label + cost_of net.now entering.arc))
        → cost_of net.now entering.arc ≡ 1 → JoinFits net.now entering.arc (label + 1) state.old }
    ensures offered { IsOffered net.now entering.arc label state.old state.new }
    ensures bounded { IsBounded net.now state.new }
    ensures made { IsMadeFor net.now state.new }
{
    let place = entering.tail as usize;
    let time = label + entering.cost as u64;
    if state.bounds[place] <= time {
        return;
    }
    if !entering.is_boarding() {
        state.bounds[place] = time;
        state.queue.put(item(net, entering.tail), time);
        return;
    }
    if entering.cost == 1 {
        join(
            net,
            entering.arc,
            entering.tail,
            entering.weight,
            time,
            state,
        );
    } else {
        state.queue.put(entering.arc, time);
    }
}

/// Joins a boarding arc that the queue came to, which leads to this time, unless its tail is settled.
pub fn join_open(net: &Network, arc: u32, time: u64, state: &mut Settling)
    requires made { IsMadeFor net.now state.old }
    requires arc { arc < length net.now.arcs }
    requires bounded { IsBounded net.now state.old }
    requires fits { IsFalse (mark_in state.old (tail_of net.now arc)) → JoinFits net.now arc time state.old }
    ensures joined { IsFalse (mark_in state.old (tail_of net.now arc)) → IsJoinedBy net.now arc time state.old state.new }
    ensures passed { IsTrue (mark_in state.old (tail_of net.now arc)) → IsQueuedAs state.old.queue state.old state.new }
    ensures bounded { IsBounded net.now state.new }
    ensures made { IsMadeFor net.now state.new }
{
    let entry = net.arc(arc);
    if state.reached[entry.tail as usize] {
        return;
    }
    let weight = entry.weight.unwrap_or(0);
    join(net, arc, entry.tail, weight, time, state);
}

// Joins a boarding arc, which leads to this time, to the others of its tail.
fn join(net: &Network, arc: u32, tail: u32, weight: u32, time: u64, state: &mut Settling)
    requires made { IsMadeFor net.now state.old }
    requires arc { arc < length net.now.arcs }
    requires tail { tail ≡ tail_of net.now arc }
    requires inside { tail < net.now.nodes }
    requires weight { weight ≡ weight_of net.now arc }
    requires open { IsFalse (mark_in state.old tail) }
    requires bounded { IsBounded net.now state.old }
    requires fits { JoinFits net.now arc time state.old }
    ensures joined { IsJoinedBy net.now arc time state.old state.new }
    ensures bounded { IsBounded net.now state.new }
    ensures made { IsMadeFor net.now state.new }
{
    let place = tail as usize;
    let combined = state.weights[place] + weight as u64;
    let total = state.totals[place] + weight as u128 * time as u128;
    state.weights[place] = combined;
    state.totals[place] = total;
    let label = quotient(net.k(), total, combined);
    state.bounds[place] = lesser(state.bounds[place], label);
    state.queue.lower(item(net, tail), label);
}

// The item of a node: those of the arcs come first.
fn item(net: &Network, node: u32) -> u32
    requires { node < net.now.nodes }
    ensures { result ≡ item_of net.now node }
{
    // A node's number is below how many nodes there may be.
    let _nodes = net.nodes();
    net.arcs() + node
}

// The lesser of two numbers.
fn lesser(number: u64, other: u64) -> u64
    ensures { result ≡ (if nat_lt number other then number else other) }
{
    if number < other { number } else { other }
}

// `k` and what arcs lead to, each times its weight, over their weight. A quotient of 64 bits takes
// a fraction of the time.
fn quotient(k: u64, total: u128, weight: u64) -> u64
    requires positive { 0 < weight }
    requires sum { k + total < 2 ^ 128 }
    requires fits { (k + total) / weight < 2 ^ 64 }
    ensures value { result ≡ (k + total) / weight }
{
    let sum = k as u128 + total;
    if sum <= u64::MAX as u128 {
        return sum as u64 / weight;
    }
    (sum / weight as u128) as u64
}
