//! Room for one destination after another.

ghost use Rattle.std.specs.Prelude.{◌≡◌, ◌+◌, ◌<◌, ◌≤◌, IfOk, length, sum, take};
ghost use Rattle.definitions.specs.declared.limits.TheConstants.{UNIT_LIMIT};
ghost use Rattle.assign.specs.Conditions.{ArePairs, units_of_pairs};
ghost use Rattle.assign.specs.Reached.{AllPairsReach};
ghost use Rattle.assign.specs.Rooms.{CanBeCarried, IsFilled, IsRoom};
ghost use Rattle.assign.specs.Spans.{IsSpanOf};
ghost use Rattle.assign.specs.Visits.{demand_to, goal_of};

use crate::spans::fill;
use demand::Pair;
use label_setting::{Workspace, labels};
use loading::{Loads, load};
use lp_model::Network;
use network::CityNet;
use std::alloc::{AllocError, Global};

/// The labels, the volumes and waits, and the demand of one destination.
#[derive(Drop)]
pub(crate) struct Room {
    pub labels: Workspace,
    pub loads: Loads,
    pub demand: Vec<u64>,
}

impl Room {
    /// Room for the nodes and arcs of a network.
    pub fn new(alloc: Global, net: &Network) -> Result<Room, AllocError>
        ensures room { IfOk result (IsRoom net.now) }
    {
        Ok(Room {
            labels: Workspace::new(alloc, net)?,
            loads: Loads::new(alloc, net)?,
            demand: vec![in alloc; 0u64; net.nodes() as usize]?,
        })
    }
}

/// Fills the room for a zone, whose pairs begin at `from` and end at `to`, and gives the units to
/// there.
pub(crate) fn fill_for(
    city: &CityNet,
    pairs: &[Pair],
    zone: u32,
    from: usize,
    to: usize,
    room: &mut Room,
) -> u64
    requires zone { zone < city.now.zones }
    requires pairs { ArePairs city.now.zones pairs.now }
    requires reach { AllPairsReach city.now pairs.now }
    requires span { IsSpanOf pairs.now zone from to }
    requires room { IsRoom city.now.net room.old }
    ensures room { IsRoom city.now.net room.new }
    ensures filled { IsFilled city.now.net (goal_of city.now zone) room.new }
    ensures demand { room.new.demand.items ≡ demand_to city.now pairs.now zone }
    ensures total { sum room.new.demand.items ≡ result }
    ensures units { units_of_pairs (take from pairs.now) + result ≡ units_of_pairs (take to pairs.now) }
{
    city.rules();
    let units = fill_demand(city, pairs, zone, from, to, &mut room.demand);
    load_demand(city.net(), city.goal(zone), room);
    units
}

// Finds the labels of a destination, and loads the demand of the room.
fn load_demand(net: &Network, dest: u32, room: &mut Room)
    requires there { dest < net.now.nodes }
    requires room { IsRoom net.now room.old }
    requires carried { CanBeCarried net.now dest room.old.demand.items }
    requires units { sum room.old.demand.items ≤ UNIT_LIMIT }
    ensures room { IsRoom net.now room.new }
    ensures filled { IsFilled net.now dest room.new }
    ensures demand { room.new.demand.items ≡ room.old.demand.items }
{
    net.rules();
    labels(net, dest, &mut room.labels);
    // Each node with demand reaches.
    if load(net, dest, &room.labels, &room.demand, &mut room.loads).is_err() {
        unreachable!();
    }
}

// Writes the units to a zone at each node, and gives their sum.
fn fill_demand(
    city: &CityNet,
    pairs: &[Pair],
    zone: u32,
    from: usize,
    to: usize,
    demand: &mut [u64],
) -> u64
    requires pairs { ArePairs city.now.zones pairs.now }
    requires span { IsSpanOf pairs.now zone from to }
    requires demand_per_node { length demand.old ≡ city.now.net.nodes }
    ensures demand { demand.new ≡ demand_to city.now pairs.now zone }
    ensures total { sum demand.new ≡ result }
    ensures units { units_of_pairs (take from pairs.now) + result ≡ units_of_pairs (take to pairs.now) }
{
    city.rules();
    fill(pairs, zone, from, to, demand)
}
