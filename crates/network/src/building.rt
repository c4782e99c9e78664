//! The network of a city: built from a feed with its lines, zones and walks, and a scenario.

ghost use Rattle.std.specs.Prelude.{◌≡◌, ◌≤◌, ◌++◌, ℕ, [], IfErr, IfOk, OnOk, Some, length, map, slice_get};
ghost use Rattle.definitions.specs.declared.limits.TheConstants.{K_LIMIT};
ghost use Rattle.network.specs.Arcs.{arcs_of};
ghost use Rattle.network.specs.Cities.{city_of, network_of};
ghost use Rattle.network.specs.Conditions.{AreSources};
ghost use Rattle.network.specs.Built.{AreNodesAndArcs, arcs_faults};
ghost use Rattle.network.specs.Faults.{IsFirstFault, city_faults, node_faults};
ghost use Rattle.network.specs.Nodes.{kept_lines, nodes_of, number_of};
ghost use Rattle.network.specs.Sources.{sources_with};
ghost use Rattle.network.specs.Standing.{IsCityOf};
ghost use Rattle.network.specs.declared.fault.BuildFault.TheVariants as fault;
ghost use Rattle.network.specs.declared.kinds.NodeKind.{NodeKind};
ghost use Rattle.scenarios.specs.Tariffs.{KeepsTicks, scenario_in};

use crate::arcs::CityArcs;
use crate::city::CityNet;
use crate::city_arcs::city_arcs;
use crate::fault::BuildFault;
use crate::given::Given;
use crate::kept::kept_lines;
use crate::kinds::{KeptLine, NodeKind};
use crate::nodes::node_kinds;
use crate::stop_walks::stop_walks;
use crate::town::Town;
use definitions::NetArc;
use demand::{Walks, Zones};
use feed_reader::Feed;
use headways::Lines;
use lp_model::{NetFault, Network};
use scenarios::{Layer, Scenario, TimeFare};
use std::alloc::Global;

/// The network of a feed with its lines, zones and walks in a scenario, with the wait constant `k`.
/// docs/FORMATS.md has its nodes and arcs.
///
/// A boarding costs what `fare` answers for the route and the layer, in ticks.
///
/// # Refusals
///
/// `Range`, in this order: the first weight of a kept line that is past its limit, the number of
/// nodes, the number of arcs, and the first cost of an arc. `NoMemory` may come in place of any of
/// these.
pub fn build<F: Fn(u32, Layer) -> u64>(
    alloc: Global,
    feed: &Feed,
    lines: &Lines,
    zones: &Zones,
    walks: &Walks,
    scenario: &Scenario,
    fare: &TimeFare<F>,
    k: u64,
) -> Result<CityNet, BuildFault>
    requires sources { AreSources
        (sources_with feed.now lines.now.lines zones.now walks.now scenario.now) }
    requires fare { scenario_in fare.now ≡ scenario.now }
    requires keeps { KeepsTicks F.pre F.post fare.now }
    requires k { k ≤ K_LIMIT }
    ensures city { IfOk result (λ city. city ≡ city_of
        (sources_with feed.now lines.now.lines zones.now walks.now scenario.now) k) }

    // Each fault is answered, and no other comes before it.
    ensures faultless { OnOk result (city_faults
        (sources_with feed.now lines.now.lines zones.now walks.now scenario.now) ≡ []) }
    ensures refused { IfErr result (IsFirstFault (city_faults
        (sources_with feed.now lines.now.lines zones.now walks.now scenario.now))) }

    // Each node has the number of what it stands for.
    ensures numbered { IfOk result (λ city. (place : ℕ) (kind : NodeKind)
        → slice_get city.nodes place ≡ Some kind
        → number_of (sources_with feed.now lines.now.lines zones.now walks.now scenario.now) kind
        ≡ place) }

    // There is a node for each stop of the feed and each place of a kept line.
    ensures stands { IfOk result (λ city. IsCityOf city feed.now lines.now.lines) }
{
    let given = Given::new(feed, lines, zones, walks, scenario);
    let kept = kept_lines(alloc, &given)?;
    let parts = nodes_and_arcs(alloc, feed, lines, zones, walks, scenario, fare, &kept)?;
    city_of(&given, k, parts, kept)
}

// What the nodes of a network stand for, and its arcs.
#[derive(Drop)]
struct NodesAndArcs {
    nodes: Vec<NodeKind>,
    arcs: CityArcs,
}

// The nodes and the arcs of sources with these kept lines.
fn nodes_and_arcs<F: Fn(u32, Layer) -> u64>(
    alloc: Global,
    feed: &Feed,
    lines: &Lines,
    zones: &Zones,
    walks: &Walks,
    scenario: &Scenario,
    fare: &TimeFare<F>,
    kept: &[KeptLine],
) -> Result<NodesAndArcs, BuildFault>
    requires sources { AreSources
        (sources_with feed.now lines.now.lines zones.now walks.now scenario.now) }
    requires fare { scenario_in fare.now ≡ scenario.now }
    requires keeps { KeepsTicks F.pre F.post fare.now }
    requires kept { kept.now ≡ kept_lines
        (sources_with feed.now lines.now.lines zones.now walks.now scenario.now) }
    requires few { node_faults
        (sources_with feed.now lines.now.lines zones.now walks.now scenario.now) ≡ [] }
    ensures parts { IfOk result (AreNodesAndArcs
        (sources_with feed.now lines.now.lines zones.now walks.now scenario.now)) }
    ensures refused { IfErr result (IsFirstFault (arcs_faults
        (sources_with feed.now lines.now.lines zones.now walks.now scenario.now))) }
{
    let stop_walks = stop_walks(alloc, feed, walks)?;
    let town = Town::new(feed, lines, zones, walks, scenario, kept, &stop_walks);
    let nodes = node_kinds(alloc, &town)?;
    let arcs = city_arcs(alloc, &town, fare)?;
    Ok(NodesAndArcs { nodes, arcs })
}

// The city of these parts, which has no fault.
fn city_of(
    given: &Given,
    k: u64,
    parts: NodesAndArcs,
    kept: Vec<KeptLine>,
) -> Result<CityNet, BuildFault>
    requires k { k ≤ K_LIMIT }
    requires parts { AreNodesAndArcs given.now parts }
    requires kept { kept.items ≡ kept_lines given.now }
    requires faultless { city_faults given.now ≡ [] }
    ensures city { IfOk result (λ city. city ≡ city_of given.now k) }
    ensures no_memory { IfErr result (λ e. e ≡ fault.NoMemory) }
{
    let NodesAndArcs { nodes, arcs } = parts;
    let CityArcs { arcs, kinds } = arcs;
    given.rules();
    let net = network_of(given, nodes.len() as u32, arcs, k)?;
    Ok(CityNet::of(net, given.zones(), nodes, kinds, kept))
}

// The network of arcs that keep the rules of networks.
fn network_of(given: &Given, nodes: u32, arcs: Vec<NetArc>, k: u64) -> Result<Network, BuildFault>
    requires k { k ≤ K_LIMIT }
    requires nodes { nodes ≡ length (nodes_of given.now) }
    requires arcs { arcs.items ≡ map (λ found. found.arc) (arcs_of given.now) }
    requires faultless { city_faults given.now ≡ [] }
    ensures value { IfOk result (λ net. net ≡ network_of given.now k) }
    ensures no_memory { IfErr result (λ e. e ≡ fault.NoMemory) }
{
    given.rules();
    match Network::new(nodes, arcs, k) {
        Ok(net) => Ok(net),
        Err(found) => {
            let no_memory = matches!(found, NetFault::NoMemory);
            prove!(no_memory);
            Err(BuildFault::NoMemory)
        }
    }
}

#[cfg(test)]
mod tests;
