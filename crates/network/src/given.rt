//! What the network of a city is made of.

ghost use Rattle.std.specs.Prelude.{◌≡◌, ◌<◌, ◌+◌, ◌*◌, ◌^◌, length};
ghost use Rattle.headways.specs.Laws.{IsLineOf};
ghost use Rattle.network.specs.Conditions.{AreSources};
ghost use Rattle.network.specs.Kept.{front_nodes};
ghost use Rattle.network.specs.Sources.{line_at, sources_with, weight_in, zone_count};

use demand::{Walks, Zones};
use feed_reader::Feed;
use headways::{Line, Lines};
use scenarios::Scenario;
use std::marker::Model;

/// A feed with its lines, zones and walks, and a scenario.
#[derive(Drop)]
pub(crate) struct Given<'a> {
    feed: &'a Feed,
    lines: &'a Lines,
    zones: &'a Zones,
    walks: &'a Walks,
    scenario: &'a Scenario,
}

impl<'a> Model for Given<'a> {
    ghost use Rattle.network.specs.Conditions.{AreSources};
    ghost use Rattle.network.specs.Sources.{Sources, sources_with};

    ghost Value = { Sources };

    ghost view = { λ g. sources_with g.feed.now g.lines.now.lines g.zones.now g.walks.now
        g.scenario.now };

    ghost invariant = { λ g. AreSources (sources_with g.feed.now g.lines.now.lines g.zones.now
        g.walks.now g.scenario.now) };
}

impl<'a> Given<'a> {
    /// These parts. It takes no memory.
    pub(crate) fn new(
        feed: &'a Feed,
        lines: &'a Lines,
        zones: &'a Zones,
        walks: &'a Walks,
        scenario: &'a Scenario,
    ) -> Given<'a>
        requires sources { AreSources (sources_with feed.now lines.now.lines zones.now walks.now
            scenario.now) }
        ensures value { result
            ≡ sources_with feed.now lines.now.lines zones.now walks.now scenario.now }
    {
        Given {
            feed,
            lines,
            zones,
            walks,
            scenario,
        }
    }

    /// The parts keep their laws. This costs no time.
    pub(crate) fn rules(&self)
        ensures rules { AreSources self.now }
    {
        let _feed = self.feed;
    }

    /// How many zones there are.
    pub(crate) fn zones(&self) -> u32
        ensures value { result ≡ zone_count self.now }
    {
        self.zones.names().len() as u32
    }

    /// How many nodes the zones and the stops have.
    pub(crate) fn front(&self) -> u64
        ensures value { result ≡ front_nodes self.now }
        ensures within { result < 2 ^ 34 }
    {
        2 * self.zones.names().len() as u64 + 2 * self.feed.stops().len() as u64
    }

    /// How many lines there are, with those that are not kept.
    pub(crate) fn lines(&self) -> u32
        ensures value { result ≡ length self.now.lines }
    {
        self.lines.list().len() as u32
    }

    // The line of a number.
    fn line(&self, number: u32) -> &Line
        requires number { number < length self.now.lines }
        ensures value { result.now ≡ line_at self.now number }
        ensures law { IsLineOf self.now.feed result.now }
    {
        self.rules();
        &self.lines.list()[number as usize]
    }

    /// The route of a line.
    pub(crate) fn route(&self, number: u32) -> u32
        requires number { number < length self.now.lines }
        ensures value { result ≡ (line_at self.now number).route }
    {
        self.line(number).route
    }

    /// The weight of a line in the scenario, 0 if it is not kept.
    pub(crate) fn weight(&self, number: u32) -> u64
        requires number { number < length self.now.lines }
        ensures value { result ≡ weight_in self.now number }
    {
        self.rules();
        let line = self.line(number);
        self.scenario.weight(line.route, line.weight)
    }

    /// How many segments a line has, each from a place to the next.
    pub(crate) fn segments(&self, number: u32) -> usize
        requires number { number < length self.now.lines }
        ensures value { result + 1 ≡ length (line_at self.now number).places }
    {
        self.line(number).rides.as_slice().len()
    }
}
