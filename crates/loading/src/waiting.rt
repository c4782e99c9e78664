//! The least waits that are long enough for volumes.

ghost use Rattle.std.specs.Prelude.{◌≡◌, ℕ, ◌+◌, ◌*◌, ◌<◌, ◌≤◌, length, slice_index, IsTrue};
ghost use Rattle.definitions.specs.declared.limits.TheConstants.{ARC_LIMIT};
ghost use Rattle.definitions.specs.Network.{tail_of, weight_of, is_boarding};
ghost use Rattle.definitions.specs.Plan.{IsWaitedFor};
ghost use Rattle.definitions.specs.Volumes.{IsLongEnough, AreLeastWaits};

use lp_model::Network;

/// Sets the wait of each node (ticks times units) to the least that is long enough for each
/// boarding arc that leaves it, in linear time. The arcs of a node at which no units have arrived
/// are not looked at.
pub fn set_waits(net: &Network, volumes: &[u64], arrived: &[u64], waits: &mut [u128])
    requires volume_per_arc { length volumes.now ≡ length net.now.arcs }
    requires number_per_node { length arrived.now ≡ net.now.nodes }
    requires idle { (arc : ℕ) → arc < length net.now.arcs → slice_index arrived.now (tail_of net.now arc) ≡ 0 → slice_index volumes.now arc ≡ 0 }
    requires wait_per_node { length waits.old ≡ net.now.nodes }
    ensures value { AreLeastWaits net.now volumes.now waits.new }
{
    for node in 0..net.nodes() {
        waits[node as usize] = wait_with(net, volumes, arrived[node as usize], node);
    }
}

// The least wait at a node that is long enough for its arcs, where so many units have arrived.
fn wait_with(net: &Network, volumes: &[u64], units: u64, node: u32) -> u128
    requires node { node < net.now.nodes }
    requires volume_per_arc { length volumes.now ≡ length net.now.arcs }
    requires idle { units ≡ 0 → (arc : ℕ) → arc < length net.now.arcs → tail_of net.now arc ≡ node → slice_index volumes.now arc ≡ 0 }
    ensures enough { IsLongEnough net.now volumes.now node result }
    ensures least { (wait : ℕ) → IsLongEnough net.now volumes.now node wait → result ≤ wait }
{
    if units == 0 {
        0
    } else {
        wait_at(net, volumes, node)
    }
}

// The least wait at a node that is long enough for its arcs.
fn wait_at(net: &Network, volumes: &[u64], node: u32) -> u128
    requires node { node < net.now.nodes }
    requires volume_per_arc { length volumes.now ≡ length net.now.arcs }
    ensures enough { IsLongEnough net.now volumes.now node result }
    ensures least { (wait : ℕ) → IsLongEnough net.now volumes.now node wait → result ≤ wait }
{
    // A node has no more arcs than there may be.
    let _few = net.arcs();
    let first = net.first(node);
    let count = net.out(node).len() as u32;
    wait_among(net, volumes, first, count)
}

// The least wait that is long enough for some arcs that follow one another.
fn wait_among(net: &Network, volumes: &[u64], first: u32, count: u32) -> u128
    requires there { first + count ≤ length net.now.arcs }
    requires few { first + count ≤ ARC_LIMIT }
    requires volume_per_arc { length volumes.now ≡ length net.now.arcs }
    ensures enough { (place : ℕ) → place < count → IsTrue (is_boarding net.now (first + place)) → IsWaitedFor net.now volumes.now (first + place) result }
    ensures least { (wait : ℕ) → ((place : ℕ) → place < count → IsTrue (is_boarding net.now (first + place)) → IsWaitedFor net.now volumes.now (first + place) wait) → result ≤ wait }
{
    let mut wait = 0u128;
    for place in 0..count {
        wait = wait.max(wait_for(net, volumes, first + place));
    }
    wait
}

// The least wait that is long enough for an arc: 0 for a free one.
fn wait_for(net: &Network, volumes: &[u64], arc: u32) -> u128
    requires arc { arc < length net.now.arcs }
    requires volume_per_arc { length volumes.now ≡ length net.now.arcs }
    ensures enough { IsTrue (is_boarding net.now arc) → IsWaitedFor net.now volumes.now arc result }
    ensures least { (wait : ℕ) → (IsTrue (is_boarding net.now arc) → IsWaitedFor net.now volumes.now arc wait) → result ≤ wait }
{
    net.rules();
    match net.arc(arc).weight {
        Some(weight) => rounded_up(net.k(), volumes[arc as usize], weight),
        None => 0,
    }
}

// A product over a weight, rounded up.
fn rounded_up(k: u64, volume: u64, weight: u32) -> u128
    requires positive { 0 < weight }
    ensures enough { k * volume ≤ weight * result }
    ensures least { (wait : ℕ) → k * volume ≤ weight * wait → result ≤ wait }
{
    if volume == 0 {
        return 0;
    }
    match k.checked_mul(volume) {
        Some(product) => product.div_ceil(weight as u64) as u128,
        None => (k as u128 * volume as u128).div_ceil(weight as u128),
    }
}
