//! What the arcs of a node permit, by the definition.

ghost use Rattle.std.specs.Prelude.{◌≡◌, ◌≢◌, ℕ, ◌+◌, ◌<◌, ◌≤◌, ◌^◌, length, IsTrue, IsFalse, slice_index, IfSome, IfNone};
ghost use Rattle.definitions.specs.Reach.{is_reached};
ghost use Rattle.definitions.specs.Labels.{Permits};
ghost use Rattle.label_setting.specs.Plain.{IsAbove, IsForbidden, IsFreePast, saved_by};

use lp_model::Network;

/// The greatest label that a node's arcs permit, by halving.
pub fn greatest(net: &Network, dest: u32, node: u32, labels: &[u64], reached: &[bool]) -> u64
    requires above { IsAbove net.now dest reached.now labels.now }
    requires node { node < net.now.nodes }
    requires marked { IsTrue (is_reached reached.now node) }
    requires other { node ≢ dest }
    ensures permitted { Permits net.now reached.now labels.now node result }
    ensures greatest { (label : ℕ) → Permits net.now reached.now labels.now node label → label ≤ result }
{
    let mut low = 0;
    let mut high = labels[node as usize];
    while low < high {
        let (least, most) = halve(net, dest, node, low, high, labels, reached);
        low = least;
        high = most;
    }
    low
}

// Two labels with half the way between them, of which the lower is permitted, and none above the
// higher.
fn halve(
    net: &Network,
    dest: u32,
    node: u32,
    low: u64,
    high: u64,
    labels: &[u64],
    reached: &[bool],
) -> (u64, u64)
    requires above { IsAbove net.now dest reached.now labels.now }
    requires node { node < net.now.nodes }
    requires order { low < high }
    requires low { Permits net.now reached.now labels.now node low }
    requires high { (label : ℕ) → Permits net.now reached.now labels.now node label → label ≤ high }
    ensures order { result.0 ≤ result.1 }
    ensures less { result.1 + low < high + result.0 }
    ensures low { Permits net.now reached.now labels.now node result.0 }
    ensures high { (label : ℕ) → Permits net.now reached.now labels.now node label → label ≤ result.1 }
{
    let middle = low + (high - low) / 2 + 1;
    if permits(net, dest, node, middle, labels, reached) {
        return (middle, high);
    }
    (low, middle - 1)
}

/// Whether a node's arcs permit a label.
pub fn permits(
    net: &Network,
    dest: u32,
    node: u32,
    label: u64,
    labels: &[u64],
    reached: &[bool],
) -> bool
    requires above { IsAbove net.now dest reached.now labels.now }
    ensures yes { IsTrue result → Permits net.now reached.now labels.now node label }
    ensures no { IsFalse result → ((other : ℕ) → Permits net.now reached.now labels.now node other → other < label) }
{
    net.rules();
    let mut saved = 0u128;
    for arc in 0..net.arcs() {
        let Some(more) = part(net, node, label, arc, labels, reached) else {
            return false;
        };
        saved += more;
    }
    saved <= net.k() as u128
}

// What an arc saves against a label at a node, times its weight. None where it is free, leaves the
// node and leads to less.
fn part(
    net: &Network,
    node: u32,
    label: u64,
    arc: u32,
    labels: &[u64],
    reached: &[bool],
) -> Option<u128>
    requires arc { arc < length net.now.arcs }
    requires labels { length labels.now ≡ net.now.nodes }
    requires reached { length reached.now ≡ net.now.nodes }
    requires fits { (other : ℕ) → slice_index labels.now other < 2 ^ 63 }
    ensures less { IfNone result (IsForbidden net.now reached.now labels.now node label arc) }
    ensures free { IfSome result (λ more. IsFreePast net.now reached.now labels.now node label arc) }
    ensures saved { IfSome result (λ more. more ≡ saved_by net.now reached.now labels.now node label arc) }
    ensures within { IfSome result (λ more. more < 2 ^ 96) }
{
    let entry = net.arc(arc);
    if entry.tail != node || !reached[entry.head as usize] {
        return Some(0);
    }
    let time = labels[entry.head as usize] + entry.cost as u64;
    let Some(weight) = entry.weight else {
        if label > time {
            return None;
        }
        return Some(0);
    };
    Some(weight as u128 * label.saturating_sub(time) as u128)
}
