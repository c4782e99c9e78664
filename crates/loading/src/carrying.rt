//! Volumes, node by node from far to near.

ghost use Rattle.std.specs.Prelude.{◌≡◌, ◌≢◌, ℕ, ◌+◌, ◌<◌, ◌≤◌, ◌⊎◌, length, filter, sum, sum_by, slice_index, EachIndex, if◌then◌else◌};
ghost use Rattle.std.specs.List.{range_with_len};
ghost use Rattle.definitions.specs.declared.choice.Choice.TheVariants.{Walk, Wait};
ghost use Rattle.definitions.specs.declared.limits.TheConstants.{ARC_LIMIT, UNIT_LIMIT};
ghost use Rattle.definitions.specs.Network.{tail_of, weight_of, out_arcs};
ghost use Rattle.definitions.specs.Labels.{SolvesLabels, IsOrder};
ghost use Rattle.definitions.specs.Split.{share};
ghost use Rattle.definitions.specs.Choice.{is_attractive, choice_at};
ghost use Rattle.definitions.specs.Volumes.{part_of, SolvesVolumes};
ghost use Rattle.loading.specs.Arrivals.{HasArrived, GrowsAsFlow};
ghost use Rattle.loading.specs.Loading.{IsLoadedFrom, weight_among};

use crate::arriving::pass_on;
use crate::splitting::split;
use definitions::Choice;
use lp_model::Network;
use strategy::{attractive, choose};

/// Loads the nodes of an order from its end, in place: each arc gets its part of the units at its
/// tail, which are then added to what has arrived at its head. `arrived` begins as the demand. The
/// time is linear but for the splits, and only nodes where units are have their arcs looked at.
pub fn load_all(
    net: &Network,
    dest: u32,
    labels: &[u64],
    reached: &[bool],
    order: &[u32],
    demand: &[u64],
    volumes: &mut [u64],
    arrived: &mut [u64],
    weights: &mut [u32],
    scratch: &mut [u32],
)
    requires label_per_node { length labels.now ≡ net.now.nodes }
    requires mark_per_node { length reached.now ≡ net.now.nodes }
    requires labels { SolvesLabels net.now dest reached.now labels.now }
    requires order { IsOrder reached.now labels.now order.now }
    requires demand_per_node { length demand.now ≡ net.now.nodes }
    requires units { sum demand.now ≤ UNIT_LIMIT }
    requires volume_per_arc { length volumes.old ≡ length net.now.arcs }
    requires weight_per_arc { length weights.old ≡ length net.now.arcs }
    requires scratch_per_arc { length scratch.old ≡ length net.now.arcs }
    requires empty { EachIndex volumes.old (λ arc. slice_index volumes.old arc ≡ 0) }
    requires begun { arrived.old ≡ demand.now }
    ensures volumes { SolvesVolumes net.now dest reached.now labels.now demand.now volumes.new }
    ensures arrived { HasArrived net.now demand.now volumes.new arrived.new }
{
    net.rules();
    for done in 0..order.len() {
        let place = order.len() - 1 - done;
        load_next(
            net, dest, labels, reached, order, demand, volumes, arrived, weights, scratch, place,
        );
    }
}

// Loads the node at a place of the order.
fn load_next(
    net: &Network,
    dest: u32,
    labels: &[u64],
    reached: &[bool],
    order: &[u32],
    demand: &[u64],
    volumes: &mut [u64],
    arrived: &mut [u64],
    weights: &mut [u32],
    scratch: &mut [u32],
    place: usize,
)
    requires label_per_node { length labels.now ≡ net.now.nodes }
    requires mark_per_node { length reached.now ≡ net.now.nodes }
    requires labels { SolvesLabels net.now dest reached.now labels.now }
    requires order { IsOrder reached.now labels.now order.now }
    requires demand_per_node { length demand.now ≡ net.now.nodes }
    requires units { sum demand.now ≤ UNIT_LIMIT }
    requires weight_per_arc { length weights.old ≡ length net.now.arcs }
    requires scratch_per_arc { length scratch.old ≡ length net.now.arcs }
    requires place { place < length order.now }
    requires so_far { IsLoadedFrom net.now dest reached.now labels.now demand.now order.now (place + 1) volumes.old }
    requires arrived { HasArrived net.now demand.now volumes.old arrived.old }
    ensures next { IsLoadedFrom net.now dest reached.now labels.now demand.now order.now place volumes.new }
    ensures arrived { HasArrived net.now demand.now volumes.new arrived.new }
{
    net.rules();
    let node = order[place];
    let units = arrived[node as usize];
    if units > 0 {
        load_node(
            net, dest, labels, reached, node, units, volumes, arrived, weights, scratch,
        );
    }
}

// Loads a node: each arc that leaves it gets its part of the units, which arrive at its head.
fn load_node(
    net: &Network,
    dest: u32,
    labels: &[u64],
    reached: &[bool],
    node: u32,
    units: u64,
    volumes: &mut [u64],
    arrived: &mut [u64],
    weights: &mut [u32],
    scratch: &mut [u32],
)
    requires label_per_node { length labels.now ≡ net.now.nodes }
    requires mark_per_node { length reached.now ≡ net.now.nodes }
    requires labels { SolvesLabels net.now dest reached.now labels.now }
    requires node { node < net.now.nodes }
    requires units { units ≤ UNIT_LIMIT }
    requires volume_per_arc { length volumes.old ≡ length net.now.arcs }
    requires weight_per_arc { length weights.old ≡ length net.now.arcs }
    requires scratch_per_arc { length scratch.old ≡ length net.now.arcs }
    requires empty { (arc : ℕ) → arc < length net.now.arcs → tail_of net.now arc ≡ node → slice_index volumes.old arc ≡ 0 }
    requires number_per_node { length arrived.old ≡ net.now.nodes }
    requires within { EachIndex arrived.old (λ other. slice_index arrived.old other ≤ UNIT_LIMIT) }
    ensures loaded { (arc : ℕ) → arc < length net.now.arcs → tail_of net.now arc ≡ node →
        slice_index volumes.new arc ≡ part_of net.now reached.now labels.now (choice_at net.now dest reached.now labels.now node) units arc }
    ensures kept { (arc : ℕ) → arc < length net.now.arcs → tail_of net.now arc ≢ node → slice_index volumes.new arc ≡ slice_index volumes.old arc }
    ensures passed_on { GrowsAsFlow net.now volumes.old arrived.old volumes.new arrived.new }
{
    // A node has no more arcs than there may be.
    let _few = net.arcs();
    match choose(net, labels, reached, dest, node) {
        Choice::Stop => {}
        Choice::Walk { arc } => {
            leaves(net, dest, labels, reached, node, arc);
            volumes[arc as usize] = units;
            pass_on(net, arc, 1, volumes, arrived);
        }
        Choice::Wait { count, weight } => {
            let first = net.first(node);
            let many = net.out(node).len() as u32;
            has_weight(net, dest, labels, reached, node, count, weight, first, many);
            load_wait(
                net, labels, reached, first, many, units, volumes, weights, scratch,
            );
            pass_on(net, first, many, volumes, arrived);
        }
    }
}

// A free arc that is chosen leaves its node.
fn leaves(net: &Network, dest: u32, labels: &[u64], reached: &[bool], node: u32, arc: u32)
    requires chosen { choice_at net.now dest reached.now labels.now node ≡ Walk arc }
    ensures there { arc < length net.now.arcs }
    ensures tail { tail_of net.now arc ≡ node }
{}

// Where passengers wait, some attractive arc has weight.
fn has_weight(
    net: &Network,
    dest: u32,
    labels: &[u64],
    reached: &[bool],
    node: u32,
    count: u32,
    weight: u64,
    first: u32,
    many: u32,
)
    requires labels { SolvesLabels net.now dest reached.now labels.now }
    requires node { node < net.now.nodes }
    requires chosen { choice_at net.now dest reached.now labels.now node ≡ Wait count weight }
    requires span { out_arcs net.now node ≡ range_with_len first many }
    ensures positive { 0 < sum_by (weight_of net.now) (filter (is_attractive net.now reached.now labels.now) (range_with_len first many)) }
{}

// Splits the units over the attractive arcs among some that follow one another.
fn load_wait(
    net: &Network,
    labels: &[u64],
    reached: &[bool],
    first: u32,
    many: u32,
    units: u64,
    volumes: &mut [u64],
    weights: &mut [u32],
    scratch: &mut [u32],
)
    requires label_per_node { length labels.now ≡ net.now.nodes }
    requires mark_per_node { length reached.now ≡ net.now.nodes }
    requires there { first + many ≤ length net.now.arcs }
    requires few { first + many ≤ ARC_LIMIT }
    requires units { units ≤ UNIT_LIMIT }
    requires volume_per_arc { length volumes.old ≡ length net.now.arcs }
    requires weight_per_arc { length weights.old ≡ length net.now.arcs }
    requires scratch_per_arc { length scratch.old ≡ length net.now.arcs }
    requires positive { 0 < sum_by (weight_of net.now) (filter (is_attractive net.now reached.now labels.now) (range_with_len first many)) }
    ensures loaded { (place : ℕ) → place < many → slice_index volumes.new (first + place) ≡
        (if is_attractive net.now reached.now labels.now (first + place)
        then share units (weight_of net.now) (filter (is_attractive net.now reached.now labels.now) (range_with_len first many)) (first + place) else 0) }
    ensures all_given { sum_by (slice_index volumes.new) (range_with_len first many) ≡ units }
    ensures kept { (arc : ℕ) → arc < length net.now.arcs → (arc < first) ⊎ (first + many ≤ arc) → slice_index volumes.new arc ≡ slice_index volumes.old arc }
{
    let start = first as usize;
    let many_places = many as usize;
    let weights = &mut weights[..many_places];
    weigh(net, labels, reached, first, weights);
    split(
        units,
        weights,
        &mut volumes[start..start + many_places],
        &mut scratch[..many_places],
    );
}

// What arcs that follow one another weigh: an attractive arc its weight, another 0.
fn weigh(net: &Network, labels: &[u64], reached: &[bool], first: u32, weights: &mut [u32])
    requires label_per_node { length labels.now ≡ net.now.nodes }
    requires mark_per_node { length reached.now ≡ net.now.nodes }
    requires there { first + length weights.old ≤ length net.now.arcs }
    requires few { first + length weights.old ≤ ARC_LIMIT }
    ensures value { EachIndex weights.new (λ place. slice_index weights.new place ≡ weight_among (is_attractive net.now reached.now labels.now) (weight_of net.now) first place) }
{
    for place in 0..weights.len() {
        weights[place] = weight_in_split(net, labels, reached, first + place as u32);
    }
}

// The weight of an attractive arc, 0 of another.
fn weight_in_split(net: &Network, labels: &[u64], reached: &[bool], arc: u32) -> u32
    requires label_per_node { length labels.now ≡ net.now.nodes }
    requires mark_per_node { length reached.now ≡ net.now.nodes }
    requires arc { arc < length net.now.arcs }
    ensures value { result ≡ (if is_attractive net.now reached.now labels.now arc then weight_of net.now arc else 0) }
{
    if attractive(net, labels, reached, arc) {
        net.arc(arc).weight.unwrap_or(0)
    } else {
        0
    }
}
