//! Labels by their equations alone, with no queue: slow, for small networks, and the yardstick of
//! the tests.

ghost use Rattle.std.specs.Prelude.{◌≡◌, ◌≢◌, ℕ, ◌<◌, ◌≤◌, ◌⊎◌, false, length, replicate, IfOk, IsTrue, IsFalse, slice_index};
ghost use Rattle.definitions.specs.Network.{tail_of, head_of};
ghost use Rattle.definitions.specs.Reach.{is_reached, IsReach};
ghost use Rattle.definitions.specs.Labels.{Permits, SolvesLabels};
ghost use Rattle.label_setting.specs.Plain.{IsAbove, IsClosed, IsFarthestTo, unmarked, label_sum};

use crate::permitted::{greatest, permits};
use crate::solving::fill;
use lp_model::Network;
use std::alloc::{AllocError, Global};

/// What `plain_labels` finds: the labels in ticks (1/1000 second), and which nodes reach, one a node.
#[derive(Drop)]
pub struct PlainLabels {
    pub labels: Vec<u64>,
    pub reached: Vec<bool>,
}

/// The labels to `dest` by their equations: labels that are too high fall until each is permitted.
///
/// It goes over all arcs for each change of a label, and so is for small networks, and for tests to
/// compare `labels` with.
///
/// # Refusals
///
/// `AllocError` where there is no memory.
pub fn plain_labels(alloc: Global, net: &Network, dest: u32) -> Result<PlainLabels, AllocError>
    requires there { dest < net.now.nodes }
    ensures reach { IfOk result (λ found. IsReach net.now dest found.reached.items) }
    ensures labels { IfOk result (λ found. SolvesLabels net.now dest found.reached.items found.labels.items) }
{
    let count = net.nodes() as usize;
    let mut labels = vec![in alloc; 0u64; count]?;
    let mut reached = vec![in alloc; false; count]?;
    find(net, dest, &mut labels, &mut reached);
    Ok(PlainLabels { labels, reached })
}

// Finds reach and labels in room of zeros.
fn find(net: &Network, dest: u32, labels: &mut [u64], reached: &mut [bool])
    requires there { dest < net.now.nodes }
    requires labels { labels.old ≡ replicate net.now.nodes 0 }
    requires reached { reached.old ≡ replicate net.now.nodes false }
    ensures reach { IsReach net.now dest reached.new }
    ensures labels { SolvesLabels net.now dest reached.new labels.new }
{
    net.rules();
    reached[dest as usize] = true;
    while mark_one(net, dest, labels, reached) {}
    while lower_one(net, dest, labels, reached) {}
    let far = farthest_of(labels, reached, dest);
    fill(labels, reached, far);
}

// Marks the tail of the first arc that leads from a node that is not marked to one that is, with a
// label that the arc does not pass. False where there is none.
fn mark_one(net: &Network, dest: u32, labels: &mut [u64], reached: &mut [bool]) -> bool
    requires above { IsAbove net.now dest reached.old labels.old }
    ensures above { IsAbove net.now dest reached.new labels.new }
    ensures more { IsTrue result → unmarked net.now reached.new < unmarked net.now reached.old }
    ensures last { IsFalse result → IsClosed net.now reached.new }
{
    net.rules();
    for arc in 0..net.arcs() {
        if leads_in(net, arc, reached) {
            mark_tail(net, dest, arc, labels, reached);
            return true;
        }
    }
    false
}

// Whether an arc leads from a node that is not marked to one that is.
fn leads_in(net: &Network, arc: u32, reached: &[bool]) -> bool
    requires arc { arc < length net.now.arcs }
    requires marks { length reached.now ≡ net.now.nodes }
    ensures yes { IsTrue result → IsTrue (is_reached reached.now (head_of net.now arc)) }
    ensures open { IsTrue result → IsFalse (is_reached reached.now (tail_of net.now arc)) }
    ensures no { IsFalse result → IsTrue (is_reached reached.now (head_of net.now arc)) → IsTrue (is_reached reached.now (tail_of net.now arc)) }
{
    let entry = net.arc(arc);
    if reached[entry.tail as usize] {
        return false;
    }
    reached[entry.head as usize]
}

// Marks the tail of an arc, with the label of its head, its cost and the longest wait.
fn mark_tail(net: &Network, dest: u32, arc: u32, labels: &mut [u64], reached: &mut [bool])
    requires above { IsAbove net.now dest reached.old labels.old }
    requires arc { arc < length net.now.arcs }
    requires head { IsTrue (is_reached reached.old (head_of net.now arc)) }
    requires tail { IsFalse (is_reached reached.old (tail_of net.now arc)) }
    ensures above { IsAbove net.now dest reached.new labels.new }
    ensures more { unmarked net.now reached.new < unmarked net.now reached.old }
{
    net.rules();
    let entry = net.arc(arc);
    labels[entry.tail as usize] = labels[entry.head as usize] + entry.cost as u64 + net.k();
    reached[entry.tail as usize] = true;
}

// Lowers the label of the first node that its arcs do not permit. False where there is none.
fn lower_one(net: &Network, dest: u32, labels: &mut [u64], reached: &[bool]) -> bool
    requires above { IsAbove net.now dest reached.now labels.old }
    ensures above { IsAbove net.now dest reached.now labels.new }
    ensures less { IsTrue result → label_sum net.now labels.new < label_sum net.now labels.old }
    ensures last { IsFalse result → ((node : ℕ) → node < net.now.nodes → IsTrue (is_reached reached.now node) → node ≢ dest
        → Permits net.now reached.now labels.new node (slice_index labels.new node)) }
{
    for node in 0..net.nodes() {
        if is_too_high(net, dest, node, labels, reached) {
            lower(net, dest, node, labels, reached);
            return true;
        }
    }
    false
}

// Whether a node's arcs do not permit its label.
fn is_too_high(net: &Network, dest: u32, node: u32, labels: &[u64], reached: &[bool]) -> bool
    requires above { IsAbove net.now dest reached.now labels.now }
    requires node { node < net.now.nodes }
    ensures yes { IsTrue result → IsTrue (is_reached reached.now node) }
    ensures other { IsTrue result → node ≢ dest }
    ensures high { IsTrue result → ((label : ℕ) → Permits net.now reached.now labels.now node label → label < slice_index labels.now node) }
    ensures no { IsFalse result → IsTrue (is_reached reached.now node) → node ≢ dest → Permits net.now reached.now labels.now node (slice_index labels.now node) }
{
    if !reached[node as usize] || node == dest {
        return false;
    }
    !permits(net, dest, node, labels[node as usize], labels, reached)
}

// Gives a node the greatest label that its arcs permit.
fn lower(net: &Network, dest: u32, node: u32, labels: &mut [u64], reached: &[bool])
    requires above { IsAbove net.now dest reached.now labels.old }
    requires node { node < net.now.nodes }
    requires marked { IsTrue (is_reached reached.now node) }
    requires other { node ≢ dest }
    requires high { (label : ℕ) → Permits net.now reached.now labels.old node label → label < slice_index labels.old node }
    ensures above { IsAbove net.now dest reached.now labels.new }
    ensures less { label_sum net.now labels.new < label_sum net.now labels.old }
{
    let most = greatest(net, dest, node, labels, reached);
    labels[node as usize] = most;
}

// The greatest label of the nodes that reach.
fn farthest_of(labels: &[u64], reached: &[bool], dest: u32) -> u64
    requires lengths { length labels.now ≡ length reached.now }
    requires goal { IsTrue (is_reached reached.now dest) }
    requires zero { slice_index labels.now dest ≡ 0 }
    ensures { IsFarthestTo reached.now labels.now (length labels.now) result }
{
    let mut far = 0;
    for node in 0..labels.len() {
        far = farther(far, reached[node], labels[node]);
    }
    far
}

// The greater of two labels, of which the second may not count.
fn farther(far: u64, reached: bool, label: u64) -> u64
    ensures least { far ≤ result }
    ensures counts { IsTrue reached → label ≤ result }
    ensures one { (result ≡ far) ⊎ (IsTrue reached × (result ≡ label)) }
{
    if reached && label > far {
        return label;
    }
    far
}
