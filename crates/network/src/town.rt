//! What the arcs of a city are made of.

ghost use Rattle.std.specs.Prelude.{◌≡◌, ◌<◌, ◌≤◌, ◌+◌, ◌*◌, ◌^◌, All, length, sum_by};
ghost use Rattle.definitions.specs.declared.limits.TheConstants.{NODE_LIMIT};
ghost use Rattle.demand.specs.Laws.{IsLinkAmong};
ghost use Rattle.headways.specs.Laws.{IsLineOf};
ghost use Rattle.network.specs.Arcs.{place_at};
ghost use Rattle.network.specs.Conditions.{AreSources};
ghost use Rattle.network.specs.Nodes.{first_node, kept_at, nodes_of, number_of};
ghost use Rattle.network.specs.Sources.{kept_count, kept_line, kept_weight, sources_with, stop_count, walk_ticks, zone_count};
ghost use Rattle.network.specs.StopWalks.{walks_by_stop, walks_from};
ghost use Rattle.network.specs.Towns.{HasNode, HasPlace, HasSegment, IsTown};
ghost use Rattle.scenarios.specs.Scenarios.{is_closed};

use crate::kinds::{KeptLine, NodeKind};
use crate::stop_walks::StopWalks;
use demand::{WalkRow, Walks, ZoneLink, Zones};
use feed_reader::Feed;
use headways::{Line, LinePlace, Lines};
use scenarios::Scenario;
use std::marker::Model;

/// A feed with its lines, zones and walks and a scenario, of few nodes, and of these the lines that
/// are kept and the walks from each stop.
#[derive(Drop)]
pub(crate) struct Town<'a> {
    feed: &'a Feed,
    lines: &'a [Line],
    zones: &'a Zones,
    walks: &'a Walks,
    scenario: &'a Scenario,
    kept: &'a [KeptLine],
    stop_walks: &'a StopWalks,
}

impl<'a> Model for Town<'a> {
    ghost use Rattle.network.specs.Sources.{Sources, sources_with};
    ghost use Rattle.network.specs.Towns.{IsTown};

    ghost Value = { Sources };

    ghost view = { λ t. sources_with t.feed.now t.lines.now t.zones.now t.walks.now t.scenario.now };

    ghost invariant = { λ t. IsTown (sources_with t.feed.now t.lines.now t.zones.now t.walks.now
        t.scenario.now) t.kept.now t.stop_walks.now };
}

impl<'a> Town<'a> {
    /// The town of these parts. It takes no memory.
    pub(crate) fn new(
        feed: &'a Feed,
        lines: &'a Lines,
        zones: &'a Zones,
        walks: &'a Walks,
        scenario: &'a Scenario,
        kept: &'a [KeptLine],
        stop_walks: &'a StopWalks,
    ) -> Town<'a>
        requires town { IsTown (sources_with feed.now lines.now.lines zones.now walks.now
            scenario.now) kept.now stop_walks.now }
        ensures value { result
            ≡ sources_with feed.now lines.now.lines zones.now walks.now scenario.now }
    {
        Town {
            feed,
            lines: lines.list(),
            zones,
            walks,
            scenario,
            kept,
            stop_walks,
        }
    }

    /// Each town has sources that keep their laws, and few nodes. This costs no time.
    pub(crate) fn rules(&self)
        ensures sources { AreSources self.now }
        ensures few { length (nodes_of self.now) ≤ NODE_LIMIT }
    {
        let _kept = self.kept;
    }

    /// How many zones there are.
    pub(crate) fn zones(&self) -> u32
        ensures value { result ≡ zone_count self.now }
    {
        self.zones.names().len() as u32
    }

    /// How many stops there are.
    pub(crate) fn stops(&self) -> u32
        ensures value { result ≡ stop_count self.now }
    {
        self.feed.stops().len() as u32
    }

    /// The links of zones and stops, in their order.
    pub(crate) fn links(&self) -> &[ZoneLink]
        ensures value { result.now ≡ self.now.zones.links }
        ensures among { All (IsLinkAmong (zone_count self.now) (stop_count self.now)) result.now }
    {
        self.rules();
        self.zones.links()
    }

    /// The walks from a stop, by the numbers of the stops that they lead to.
    pub(crate) fn walks(&self, stop: u32) -> &[WalkRow]
        requires stop { stop < stop_count self.now }
        ensures value { result.now ≡ walks_from self.now.feed self.now.walks stop }
        ensures among { All (λ walk. walk.to < stop_count self.now) result.now }
    {
        self.stop_walks.of(stop)
    }

    /// How many walks there are.
    pub(crate) fn walk_count(&self) -> usize
        ensures value { result ≡ sum_by (λ walks. length walks) (walks_by_stop self.now.feed self.now.walks) }
    {
        self.stop_walks.count()
    }

    /// Whether nobody may board or alight at a stop.
    pub(crate) fn closed(&self, stop: u32) -> bool
        requires stop { stop < stop_count self.now }
        ensures value { result ≡ is_closed self.now.scenario stop }
    {
        self.rules();
        self.scenario.closed(stop)
    }

    /// The ticks of a walk of so many seconds, at the pace of the scenario.
    pub(crate) fn walk_ticks(&self, seconds: u64) -> u128
        ensures value { result ≡ walk_ticks self.now seconds }
    {
        (u128::from(seconds) * 1000 * u128::from(self.scenario.pace()) / 100).max(1)
    }

    /// How many lines are kept.
    pub(crate) fn kept(&self) -> u32
        ensures value { result ≡ kept_count self.now }
        ensures within { 2 * result ≤ NODE_LIMIT }
    {
        self.kept.len() as u32
    }

    // What is known of a kept line.
    fn kept_at(&self, line: u32) -> KeptLine
        requires line { line < kept_count self.now }
        ensures value { result ≡ kept_at self.now line }
    {
        self.kept[line as usize]
    }

    /// A kept line.
    pub(crate) fn line(&self, line: u32) -> &Line
        requires line { line < kept_count self.now }
        ensures value { result.now ≡ kept_line self.now line }
        ensures law { IsLineOf self.now.feed result.now }
    {
        self.rules();
        &self.lines[self.kept_at(line).line as usize]
    }

    /// The weight of a kept line.
    pub(crate) fn weight(&self, line: u32) -> u32
        requires line { line < kept_count self.now }
        ensures value { result ≡ kept_weight self.now line }
    {
        self.kept_at(line).weight
    }

    /// How many segments a kept line has, each from a place to the next.
    pub(crate) fn segments(&self, line: u32) -> u32
        requires line { line < kept_count self.now }
        ensures value { result + 1 ≡ length (kept_line self.now line).places }
        ensures within { 2 * result ≤ NODE_LIMIT }
    {
        self.rules();
        self.line(line).rides.as_slice().len() as u32
    }

    /// The place of a kept line that follows a place.
    pub(crate) fn next(&self, line: u32, place: u32) -> u32
        requires segment { HasSegment self.now line place }
        ensures value { result ≡ place + 1 }
    {
        let _segments = self.segments(line);
        place + 1
    }

    /// A place of a kept line.
    pub(crate) fn place(&self, line: u32, place: u32) -> LinePlace
        requires place { HasPlace self.now line place }
        ensures value { result ≡ place_at self.now line place }
        ensures stop { result.stop < stop_count self.now }
    {
        self.line(line).places.as_slice()[place as usize]
    }

    /// The number of a node.
    pub(crate) fn number(&self, node: NodeKind) -> u32
        requires node { HasNode self.now node }
        ensures value { result ≡ number_of self.now node }
    {
        self.rules();
        self.wide_number(node) as u32
    }

    // The number of a node.
    fn wide_number(&self, node: NodeKind) -> u64
        requires node { HasNode self.now node }
        ensures value { result ≡ number_of self.now node }
    {
        let zones = u64::from(self.zones());
        match node {
            NodeKind::Origin { zone } => u64::from(zone),
            NodeKind::Goal { zone } => zones + u64::from(zone),
            NodeKind::First { stop } => 2 * zones + 2 * u64::from(stop),
            NodeKind::Later { stop } => 2 * zones + 2 * u64::from(stop) + 1,
            NodeKind::Leave { line, place } => self.first_node(line) + 2 * u64::from(place),
            NodeKind::Reach { line, place } => self.first_node(line) + 2 * u64::from(place) - 1,
        }
    }

    // The node at which a kept line leaves its first place.
    fn first_node(&self, line: u32) -> u64
        requires line { line < kept_count self.now }
        ensures value { result ≡ first_node self.now line }
        ensures within { result < 2 ^ 32 }
    {
        u64::from(self.kept_at(line).first_node)
    }
}
