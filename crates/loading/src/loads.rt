//! The volumes and waits of one destination after another, in room that is made once.

ghost use Rattle.std.specs.Prelude.{◌≡◌, ◌≤◌, All, length, replicate, sum, slice_index, MatchOption, IfOk, OnOk, IfErr, OnErr};
ghost use Rattle.definitions.specs.declared.limits.TheConstants.{UNIT_LIMIT, WAIT_LIMIT};
ghost use Rattle.definitions.specs.Plan.{IsPlan};
ghost use Rattle.definitions.specs.Reach.{IsReach};
ghost use Rattle.definitions.specs.Labels.{SolvesLabels, IsOrder};
ghost use Rattle.definitions.specs.Volumes.{SolvesVolumes, AreLeastWaits};
ghost use Rattle.loading.specs.Marks.{AllMarked, IsFirstUnmarked};
ghost use Rattle.loading.specs.Loads.{nothing_loaded, HasRoomFor, AllReach, IsFirstUnreachable, IsWithinParts};

use crate::carrying::load_all;
use crate::waiting::set_waits;
use label_setting::Workspace;
use lp_model::Network;
use std::alloc::{AllocError, Global};
use std::marker::Model;

/// Room for the volumes and waits of a network, and what was loaded last.
#[derive(Drop)]
pub struct Loads {
    volumes: Vec<u64>,
    waits: Vec<u128>,
    arrived: Vec<u64>,
    weights: Vec<u32>,
    scratch: Vec<u32>,
}

impl Model for Loads {
    ghost use Rattle.std.specs.Prelude.{◌≡◌, length};
    ghost use Rattle.loading.specs.Loads.{LoadsData};

    ghost Value = { LoadsData };

    ghost view = { λ l. record { volumes = l.volumes.items; waits = l.waits.items } };

    ghost invariant = { λ l. (length l.arrived.items ≡ length l.waits.items) × (length l.weights.items ≡ length l.volumes.items) × (length l.scratch.items ≡ length l.volumes.items) };
}

impl Loads {
    /// Room for the volumes and waits of a network, which are all 0. It is used again for each
    /// destination, also of another network with as many nodes and arcs.
    ///
    /// # Refusals
    ///
    /// `AllocError` where there is no memory.
    pub fn new(alloc: Global, net: &Network) -> Result<Loads, AllocError>
        ensures value { IfOk result (λ loads. loads ≡ nothing_loaded net.now) }
    {
        let arcs = net.arcs() as usize;
        let nodes = net.nodes() as usize;
        Ok(Loads {
            volumes: vec![in alloc; 0u64; arcs]?,
            waits: vec![in alloc; 0u128; nodes]?,
            arrived: vec![in alloc; 0u64; nodes]?,
            weights: vec![in alloc; 0u32; arcs]?,
            scratch: vec![in alloc; 0u32; arcs]?,
        })
    }

    /// The volume of each arc, in units (1/1,000,000 trip).
    pub fn volumes(&self) -> &[u64]
        ensures value { result.now ≡ self.now.volumes }
    {
        &self.volumes
    }

    /// The wait of each node, in ticks (1/1000 second) times units.
    pub fn waits(&self) -> &[u128]
        ensures value { result.now ≡ self.now.waits }
    {
        &self.waits
    }
}

/// A node with demand from which no way leads to the destination.
#[derive(Clone, Copy, Debug, Drop, PartialEq, Eq)]
pub struct Unreachable {
    pub node: u32,
}

/// Loads a demand to `dest` onto a network: the volumes that follow from the choices of all
/// passengers (Spiess and Florian 1989, in whole units) and the least waits for them.
///
/// `ws` holds the labels of `dest`. `demand` has the units (1/1,000,000 trip) of each node, none at
/// `dest`. Nodes are loaded from far to near: each arc gets its part of the units at its tail. It
/// takes no memory, and time that is linear in nodes and arcs but for the splits.
///
/// # Refusals
///
/// `Unreachable` where no way leads from a node with demand to `dest`: it names the least such
/// node. All volumes and waits are then 0.
pub fn load(
    net: &Network,
    dest: u32,
    ws: &Workspace,
    demand: &[u64],
    loads: &mut Loads,
) -> Result<(), Unreachable>
    requires reach { IsReach net.now dest ws.now.reached }
    requires labels { SolvesLabels net.now dest ws.now.reached ws.now.labels }
    requires order { IsOrder ws.now.reached ws.now.labels ws.now.order }
    requires demand_per_node { length demand.now ≡ net.now.nodes }
    requires none_at_destination { slice_index demand.now dest ≡ 0 }
    requires units { sum demand.now ≤ UNIT_LIMIT }
    requires room { HasRoomFor net.now loads.old }
    ensures all_reach { OnOk result (AllReach net.now dest demand.now) }
    ensures volumes { OnOk result (SolvesVolumes net.now dest ws.now.reached ws.now.labels demand.now loads.new.volumes) }
    ensures waits { OnOk result (AreLeastWaits net.now loads.new.volumes loads.new.waits) }
    ensures plan { OnOk result (IsPlan net.now dest 1 demand.now loads.new.volumes loads.new.waits) }
    ensures gap { OnOk result (IsWithinParts net.now dest ws.now.reached ws.now.labels demand.now loads.new.volumes loads.new.waits) }
    ensures unreachable { IfErr result (λ fault. IsFirstUnreachable net.now dest demand.now fault.node) }
    ensures nothing { OnErr result (loads.new ≡ nothing_loaded net.now) }
    ensures room { HasRoomFor net.now loads.new }
    ensures volumes_within { All (λ volume. volume ≤ sum demand.now) loads.new.volumes }
    ensures waits_within { All (λ wait. wait ≤ WAIT_LIMIT) loads.new.waits }
{
    load_onto(
        net,
        dest,
        ws.labels(),
        ws.reached(),
        ws.order(),
        demand,
        &mut loads.volumes,
        &mut loads.waits,
        &mut loads.arrived,
        &mut loads.weights,
        &mut loads.scratch,
    )
}

// Loads a demand onto lists of volumes and waits.
fn load_onto(
    net: &Network,
    dest: u32,
    labels: &[u64],
    reached: &[bool],
    order: &[u32],
    demand: &[u64],
    volumes: &mut [u64],
    waits: &mut [u128],
    arrived: &mut [u64],
    weights: &mut [u32],
    scratch: &mut [u32],
) -> Result<(), Unreachable>
    requires reach { IsReach net.now dest reached.now }
    requires labels { SolvesLabels net.now dest reached.now labels.now }
    requires order { IsOrder reached.now labels.now order.now }
    requires demand_per_node { length demand.now ≡ net.now.nodes }
    requires none_at_destination { slice_index demand.now dest ≡ 0 }
    requires units { sum demand.now ≤ UNIT_LIMIT }
    requires volume_per_arc { length volumes.old ≡ length net.now.arcs }
    requires wait_per_node { length waits.old ≡ net.now.nodes }
    requires number_per_node { length arrived.old ≡ net.now.nodes }
    requires weight_per_arc { length weights.old ≡ length net.now.arcs }
    requires scratch_per_arc { length scratch.old ≡ length net.now.arcs }
    ensures all_reach { OnOk result (AllReach net.now dest demand.now) }
    ensures volumes { OnOk result (SolvesVolumes net.now dest reached.now labels.now demand.now volumes.new) }
    ensures waits { OnOk result (AreLeastWaits net.now volumes.new waits.new) }
    ensures plan { OnOk result (IsPlan net.now dest 1 demand.now volumes.new waits.new) }
    ensures gap { OnOk result (IsWithinParts net.now dest reached.now labels.now demand.now volumes.new waits.new) }
    ensures unreachable { IfErr result (λ fault. IsFirstUnreachable net.now dest demand.now fault.node) }
    ensures no_volumes { OnErr result (volumes.new ≡ replicate (length net.now.arcs) 0) }
    ensures no_waits { OnErr result (waits.new ≡ replicate net.now.nodes 0) }
    ensures volumes_within { All (λ volume. volume ≤ sum demand.now) volumes.new }
    ensures waits_within { All (λ wait. wait ≤ WAIT_LIMIT) waits.new }
{
    net.rules();
    volumes.fill(0);
    if let Some(node) = first_unreached(net, demand, reached) {
        waits.fill(0);
        return Err(Unreachable { node });
    }
    arrived.copy_from_slice(demand);
    load_all(
        net, dest, labels, reached, order, demand, volumes, arrived, weights, scratch,
    );
    set_waits(net, volumes, arrived, waits);
    Ok(())
}

// The least node with demand that is not marked.
fn first_unreached(net: &Network, demand: &[u64], reached: &[bool]) -> Option<u32>
    requires demand_per_node { length demand.now ≡ net.now.nodes }
    requires mark_per_node { length reached.now ≡ net.now.nodes }
    ensures first { MatchOption result (AllMarked reached.now demand.now) (λ node. IsFirstUnmarked reached.now demand.now node) }
{
    for node in 0..net.nodes() {
        if demand[node as usize] > 0 && !reached[node as usize] {
            return Some(node);
        }
    }
    None
}

#[cfg(test)]
mod tests;
