//! The network of a city, and what its nodes and arcs stand for.

ghost use Rattle.std.specs.Prelude.{◌≡◌, ◌<◌, ◌+◌, Some, length, slice_get};
ghost use Rattle.network.specs.Cities.{IsCity, city_with};
ghost use Rattle.network.specs.declared.kinds.NodeKind.TheVariants.{Goal, Origin};

use crate::kinds::{ArcKind, KeptLine, NodeKind};
use lp_model::Network;
use std::marker::Model;

/// The network of a city: nodes of zones, stops and lines, and the arcs between them.
#[derive(Drop)]
pub struct CityNet {
    net: Network,
    zones: u32,
    nodes: Vec<NodeKind>,
    arcs: Vec<ArcKind>,
    kept: Vec<KeptLine>,
}

impl Model for CityNet {
    ghost use Rattle.network.specs.Cities.{CityData, IsCity, city_with};

    ghost Value = { CityData };

    ghost view = { λ c. city_with c.net c.zones c.nodes.items c.arcs.items c.kept.items };

    ghost invariant = { λ c. IsCity (city_with c.net c.zones c.nodes.items c.arcs.items c.kept.items) };
}

impl CityNet {
    /// The city of a network, of so many zones, and of what its nodes and its arcs stand for. It
    /// takes no memory.
    pub(crate) fn of(
        net: Network,
        zones: u32,
        nodes: Vec<NodeKind>,
        arcs: Vec<ArcKind>,
        kept: Vec<KeptLine>,
    ) -> CityNet
        requires rules { IsCity (city_with net zones nodes.items arcs.items kept.items) }
        ensures value { result ≡ city_with net zones nodes.items arcs.items kept.items }
    {
        CityNet {
            net,
            zones,
            nodes,
            arcs,
            kept,
        }
    }

    /// Each city keeps the laws of cities. This costs no time.
    pub fn rules(&self)
        ensures rules { IsCity self.now }
    {
        let _zones = &self.zones;
    }

    /// The network.
    pub fn net(&self) -> &Network
        ensures value { result.now ≡ self.now.net }
    {
        &self.net
    }

    /// How many zones the city has.
    pub fn zones(&self) -> u32
        ensures value { result ≡ self.now.zones }
    {
        self.zones
    }

    /// What a node stands for.
    pub fn node_kind(&self, n: u32) -> NodeKind
        requires node { n < self.now.net.nodes }
        ensures value { slice_get self.now.nodes n ≡ Some result }
    {
        self.nodes[n as usize]
    }

    /// What an arc stands for.
    pub fn arc_kind(&self, a: u32) -> ArcKind
        requires arc { a < length self.now.net.arcs }
        ensures value { slice_get self.now.arcs a ≡ Some result }
    {
        self.arcs[a as usize]
    }

    /// The lines that the scenario keeps, in their order.
    pub fn kept(&self) -> &[KeptLine]
        ensures value { result.now ≡ self.now.kept }
    {
        &self.kept
    }

    /// The node at which passengers of a zone begin.
    pub fn origin(&self, zone: u32) -> u32
        requires zone { zone < self.now.zones }
        ensures value { result ≡ zone }
        ensures kind { slice_get self.now.nodes result ≡ Some (Origin zone) }
        ensures within { result < self.now.net.nodes }
    {
        self.rules();
        zone
    }

    /// The node at which passengers to a zone end.
    pub fn goal(&self, zone: u32) -> u32
        requires zone { zone < self.now.zones }
        ensures value { result ≡ self.now.zones + zone }
        ensures kind { slice_get self.now.nodes result ≡ Some (Goal zone) }
        ensures within { result < self.now.net.nodes }
    {
        self.rules();
        self.net.rules();
        self.zones + zone
    }
}
