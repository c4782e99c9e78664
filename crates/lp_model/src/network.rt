//! A network, judged once, with the arcs of each node at hand.

ghost use Rattle.std.specs.Prelude.{◌≡◌, ℕ, ◌+◌, ◌*◌, ◌<◌, ◌≤◌, ◌⊎◌, [], All, length, map, Some, IfOk, OnOk, IfErr, IfSome};
ghost use Rattle.std.specs.List.{range_with_len};
ghost use Rattle.definitions.specs.declared.limits.TheConstants.{NODE_LIMIT, ARC_LIMIT, K_LIMIT, COST_LIMIT, WEIGHT_LIMIT};
ghost use Rattle.definitions.specs.Network.{IsNetwork, arc_at, out_arcs, in_arcs};
ghost use Rattle.definitions.specs.Gap.{IsEnoughForEach};
ghost use Rattle.definitions.specs.Totals.{boarding_stops, least_weight, longest_wait};
ghost use Rattle.lp_model.specs.declared.fault.NetFault.TheVariants.{NoMemory};
ghost use Rattle.lp_model.specs.Entered.{IsEntering, entering_in};
ghost use Rattle.lp_model.specs.Faults.{network_faults, first_fault};
ghost use Rattle.lp_model.specs.Parts.{network_with, first_arc};

use crate::boarding::{has_boarding, least_weight_of};
use crate::entering::{Entering, entering_of};
use crate::fault::NetFault;
use crate::grouping::{End, firsts_of, group, part_of};
use crate::judging::{judge_arcs, judge_sizes};
use definitions::NetArc;
use std::alloc::AllocError;
use std::marker::Model;

/// A directed network whose arcs are grouped by tail, within the limits of `docs/FORMATS.md`.
///
/// Nodes are the numbers below `nodes`, an arc's number is its place, and `k` is the wait constant:
/// at combined weight F passengers wait `k / F` ticks.
#[derive(Drop)]
pub struct Network {
    nodes: u32,
    arcs: Vec<NetArc>,
    k: u64,
    firsts: Vec<u32>,
    entering: Vec<Entering>,
    entering_firsts: Vec<u32>,
}

impl Model for Network {
    ghost use Rattle.definitions.specs.Network.{NetworkData};
    ghost use Rattle.lp_model.specs.Indexed.{IsIndexed};
    ghost use Rattle.lp_model.specs.Parts.{network_with};

    ghost Value = { NetworkData };

    ghost view = { λ n. network_with n.nodes n.arcs.items n.k };

    ghost invariant = { λ n. IsIndexed (network_with n.nodes n.arcs.items n.k) n.firsts.items n.entering.items n.entering_firsts.items };
}

impl Network {
    /// The network of so many nodes, these arcs and the wait constant `k`, in linear time. It uses
    /// the allocator of `arcs`.
    ///
    /// # Refusals
    ///
    /// The first that applies, in this order; a refusal drops the arcs.
    /// - `Range` of the number of nodes, of the number of arcs, of `k`.
    /// - Then for each arc in turn: `NodeOutside` of its tail, of its head, `ZeroCost`, `Range` of
    ///   its cost, `ZeroWeight`, `NotGrouped`.
    /// - `NoMemory` may come in place of any of these.
    pub fn new(nodes: u32, arcs: Vec<NetArc>, k: u64) -> Result<Network, NetFault>
        ensures network { IfOk result (λ network. network ≡ network_with nodes arcs.items k) }
        ensures accepted { OnOk result (IsNetwork (network_with nodes arcs.items k)) }

        // Each fault is answered, and no other comes before it.
        ensures faultless { OnOk result (network_faults (network_with nodes arcs.items k) ≡ []) }
        ensures refused { IfErr result (λ fault. (fault ≡ NoMemory) ⊎ (first_fault (network_with nodes arcs.items k) ≡ Some fault)) }
    {
        judge_sizes(nodes, &arcs, k)?;
        judge_arcs(nodes, &arcs, k)?;
        Ok(index(nodes, arcs, k)?)
    }

    /// Each network keeps the rules of networks. This costs no time.
    pub fn rules(&self)
        ensures rules { IsNetwork self.now }
    {
        let _nodes = &self.nodes;
    }

    /// The number of nodes.
    pub fn nodes(&self) -> u32
        ensures value { result ≡ self.now.nodes }
        ensures within { result ≤ NODE_LIMIT }
    {
        self.nodes
    }

    /// The number of arcs.
    pub fn arcs(&self) -> u32
        ensures value { result ≡ length self.now.arcs }
        ensures within { result ≤ ARC_LIMIT }
    {
        self.arcs.len() as u32
    }

    /// The wait constant.
    pub fn k(&self) -> u64
        ensures value { result ≡ self.now.k }
        ensures within { result ≤ K_LIMIT }
    {
        self.k
    }

    /// The arc of a number.
    pub fn arc(&self, a: u32) -> &NetArc
        requires { a < length self.now.arcs }
        ensures value { result.now ≡ arc_at self.now a }
        ensures tail { result.now.tail < self.now.nodes }
        ensures head { result.now.head < self.now.nodes }
        ensures cost { (0 < result.now.cost) × (result.now.cost ≤ COST_LIMIT) }
        ensures weight { IfSome result.now.weight (λ weight. (0 < weight) × (weight ≤ WEIGHT_LIMIT)) }
    {
        self.rules();
        &self.arcs[a as usize]
    }

    /// How many arcs have a tail below `n`: the number of the first arc of `out(n)`, where it has
    /// one.
    pub fn first(&self, n: u32) -> u32
        requires { n < self.now.nodes }
        ensures value { result ≡ first_arc self.now n }
        ensures within { result + length (out_arcs self.now n) ≤ length self.now.arcs }
    {
        self.firsts[n as usize]
    }

    /// The arcs that leave node `n`, in order. They are numbered from `first(n)` on.
    pub fn out(&self, n: u32) -> &[NetArc]
        requires { n < self.now.nodes }
        ensures arcs { result.now ≡ map (arc_at self.now) (out_arcs self.now n) }
        ensures numbers { out_arcs self.now n ≡ range_with_len (first_arc self.now n) (length result.now) }
        ensures within { first_arc self.now n + length result.now ≤ length self.now.arcs }
    {
        self.arcs_from(n)
    }

    /// The arcs that enter node `n`, by increasing number.
    pub fn entering(&self, n: u32) -> &[Entering]
        requires { n < self.now.nodes }
        ensures value { result.now ≡ map (entering_in self.now.arcs) (in_arcs self.now n) }
        ensures there { All (IsEntering self.now) result.now }
        ensures within { length result.now ≤ length self.now.arcs }
    {
        part_of(&self.entering, &self.entering_firsts, n)
    }

    /// How many nodes have a boarding arc, in linear time.
    pub fn boarding_stops(&self) -> u32
        ensures value { result ≡ boarding_stops self.now }
        ensures within { result ≤ NODE_LIMIT }
    {
        let mut stops = 0;
        for node in 0..self.nodes() {
            stops += u32::from(has_boarding(self.out(node)));
        }
        stops
    }

    /// The least weight of a boarding arc, 0 where there is none, in linear time.
    pub fn least_weight(&self) -> u32
        ensures value { result ≡ least_weight self.now }
    {
        least_weight_of(&self.arcs)
    }

    /// The longest wait for one boarding arc alone, in ticks rounded up, 0 where there is none, in
    /// linear time.
    pub fn longest_wait(&self) -> u64
        ensures value { result ≡ longest_wait self.now }
        ensures within { result ≤ K_LIMIT }
        ensures enough { IsEnoughForEach self.now result }
    {
        self.rules();
        match self.least_weight() {
            0 => 0,
            least => self.k().div_ceil(least as u64),
        }
    }

    // The part of the arcs that leaves node `n`.
    fn arcs_from(&self, n: u32) -> &[NetArc]
        requires { n < self.now.nodes }
        ensures arcs { result.now ≡ map (arc_at self.now) (out_arcs self.now n) }
        ensures numbers { out_arcs self.now n ≡ range_with_len (first_arc self.now n) (length result.now) }
        ensures within { first_arc self.now n + length result.now ≤ length self.now.arcs }
    {
        part_of(&self.arcs, &self.firsts, n)
    }
}

// The network of numbers without a fault.
fn index(nodes: u32, arcs: Vec<NetArc>, k: u64) -> Result<Network, AllocError>
    requires rules { IsNetwork (network_with nodes arcs.items k) }
    ensures network { IfOk result (λ network. network ≡ network_with nodes arcs.items k) }
{
    let alloc = *arcs.allocator();
    let firsts = firsts_of(alloc, nodes, &arcs, End::Tail)?;
    let entering_firsts = firsts_of(alloc, nodes, &arcs, End::Head)?;
    let numbers = group(alloc, &arcs, End::Head, &entering_firsts)?;
    let entering = entering_of(alloc, &arcs, &numbers)?;
    Ok(Network {
        nodes,
        arcs,
        k,
        firsts,
        entering,
        entering_firsts,
    })
}

#[cfg(test)]
pub(crate) mod tests;
