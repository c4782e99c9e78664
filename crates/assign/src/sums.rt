//! Sums over the destinations so far.

ghost use Rattle.std.specs.Prelude.{◌≡◌, ◌+◌, ◌<◌, ◌≤◌, [], EachIndex, IfOk, length, slice_index, sum};
ghost use Rattle.definitions.specs.declared.limits.TheConstants.{K_LIMIT, NODE_LIMIT, UNIT_LIMIT};
ghost use Rattle.assign.specs.Rooms.{IsFilled, IsRoom, visit_in};
ghost use Rattle.assign.specs.Sums.{AddsVisit, AreSumsOf, AreTotalsOfSums, AreWithin};

use crate::room::Room;
use loading::{Totals, Volumes};
use lp_model::{Network, bound_of, cost_of, slack};
use std::alloc::{AllocError, Global};

/// What is added up over the destinations, and what the slack needs of the network.
#[derive(Drop)]
pub(crate) struct Sums {
    pub stops: u32,
    pub longest: u64,
    pub units: u64,
    pub destinations: u32,
    pub cost: u128,
    pub bound: u128,
    pub volumes: Vec<u64>,
}

impl Sums {
    /// The sums over no destination.
    pub fn new(alloc: Global, net: &Network) -> Result<Sums, AllocError>
        ensures none { IfOk result (AreSumsOf net.now []) }
        ensures within { IfOk result (AreWithin net.now) }
    {
        Ok(Sums {
            stops: net.boarding_stops(),
            longest: net.longest_wait(),
            units: 0,
            destinations: 0,
            cost: 0,
            bound: 0,
            volumes: vec![in alloc; 0u64; net.arcs() as usize]?,
        })
    }

    /// The totals of these sums.
    pub fn totals(self) -> Totals
        requires longest { self.longest ≤ K_LIMIT }
        ensures totals { AreTotalsOfSums self result }
    {
        let slack = slack(self.stops, self.units, self.longest, self.destinations);
        Totals {
            units: self.units,
            destinations: self.destinations,
            cost: self.cost,
            bound: self.bound,
            slack,
            volumes: Volumes::new(self.volumes),
        }
    }
}

/// Adds what the room holds of a destination, to which so many units go.
pub(crate) fn add(net: &Network, destination: u32, units: u64, room: &Room, sums: &mut Sums)
    requires room { IsRoom net.now room.now }
    requires filled { IsFilled net.now destination room.now }
    requires units { sum room.now.demand.items ≡ units }
    requires few_units { sums.old.units + units ≤ UNIT_LIMIT }
    requires few { sums.old.destinations < NODE_LIMIT }
    requires within { AreWithin net.now sums.old }
    ensures added { AddsVisit net.now sums.old (visit_in destination room.now) sums.new }
    ensures within { AreWithin net.now sums.new }
{
    add_all(net, destination, units, room, sums);
}

// Adds what the room holds of a destination, where it fits.
fn add_all(net: &Network, destination: u32, units: u64, room: &Room, sums: &mut Sums)
    requires room { IsRoom net.now room.now }
    requires filled { IsFilled net.now destination room.now }
    requires units { sum room.now.demand.items ≡ units }
    requires few_units { sums.old.units + units ≤ UNIT_LIMIT }
    requires few { sums.old.destinations < NODE_LIMIT }
    requires within { AreWithin net.now sums.old }
    requires volumes { EachIndex sums.old.volumes.items
        (λ arc. slice_index sums.old.volumes.items arc + slice_index room.now.loads.volumes arc ≤ UNIT_LIMIT) }
    ensures added { AddsVisit net.now sums.old (visit_in destination room.now) sums.new }
    ensures stops { sums.new.stops ≡ sums.old.stops }
    ensures longest { sums.new.longest ≡ sums.old.longest }
{
    let cost = cost_of(net, room.loads.volumes(), room.loads.waits());
    let bound = bound_of(&room.demand, room.labels.labels());
    sums.units += units;
    sums.destinations += 1;
    sums.cost += cost;
    sums.bound += bound;
    add_volumes(room.loads.volumes(), &mut sums.volumes);
}

// Adds to each number the one at its place.
fn add_volumes(volumes: &[u64], sums: &mut [u64])
    requires same { length volumes.now ≡ length sums.old }
    requires within { EachIndex sums.old (λ arc. slice_index sums.old arc + slice_index volumes.now arc ≤ UNIT_LIMIT) }
    ensures { EachIndex sums.new (λ arc. slice_index sums.new arc ≡ slice_index sums.old arc + slice_index volumes.now arc) }
{
    for arc in 0..sums.len() {
        sums[arc] += volumes[arc];
    }
}
