//! What the tables of an assignment are made of.

ghost use Rattle.std.specs.Prelude.{◌≡◌, ◌+◌, ◌-◌, ◌*◌, ◌<◌, ◌≤◌, Some, length, slice_get};
ghost use Rattle.definitions.specs.declared.limits.TheConstants.{NODE_LIMIT};
ghost use Rattle.line_report.specs.Tables.{AreTableData, id_at, id_of_route, id_of_stop, table_with};
ghost use Rattle.network.specs.Standing.{IsCityOf, kept_in, leave_number, line_in};
ghost use Rattle.network.specs.declared.kinds.NodeKind.TheVariants as node;

use feed_reader::Feed;
use headways::{Line, Lines};
use loading::Totals;
use network::{CityNet, KeptLine};
use std::marker::Model;

/// A city, its feed and lines, and a volume for each arc.
#[derive(Drop)]
pub(crate) struct Table<'a> {
    city: &'a CityNet,
    feed: &'a Feed,
    lines: &'a [Line],
    volumes: &'a [u64],
}

impl<'a> Model for Table<'a> {
    ghost use Rattle.line_report.specs.Tables.{AreTableData, TableData, table_with};

    ghost Value = { TableData };

    ghost view = { λ t. table_with t.city.now t.feed.now t.lines.now t.volumes.now };

    ghost invariant = { λ t. AreTableData
        (table_with t.city.now t.feed.now t.lines.now t.volumes.now) };
}

impl<'a> Table<'a> {
    /// The table of these parts. It takes no memory.
    pub(crate) fn new(
        city: &'a CityNet,
        feed: &'a Feed,
        lines: &'a Lines,
        totals: &'a Totals,
    ) -> Table<'a>
        requires city { IsCityOf city.now feed.now lines.now.lines }
        requires volumes { length totals.now.volumes ≡ length city.now.net.arcs }
        ensures value { result
            ≡ table_with city.now feed.now lines.now.lines totals.now.volumes }
    {
        Table {
            city,
            feed,
            lines: lines.list(),
            volumes: totals.volumes.as_slice(),
        }
    }

    /// Each table is of a city of its feed and its lines. This costs no time.
    pub(crate) fn rules(&self)
        ensures rules { AreTableData self.now }
    {
        let _volumes = self.volumes;
    }

    /// The city.
    pub(crate) fn city(&self) -> &CityNet
        ensures value { result.now ≡ self.now.city }
    {
        self.city
    }

    /// The volumes of its arcs.
    pub(crate) fn volumes(&self) -> &[u64]
        ensures value { result.now ≡ self.now.volumes }
        ensures volume_per_arc { length result.now ≡ length self.now.city.net.arcs }
    {
        self.volumes
    }

    /// How many lines are kept.
    pub(crate) fn kept(&self) -> usize
        ensures value { result ≡ length self.now.city.kept }
    {
        self.city.kept().len()
    }

    /// How many stops there are.
    pub(crate) fn stops(&self) -> usize
        ensures value { result ≡ length self.now.feed.stops }
    {
        self.feed.stops().len()
    }

    /// A kept line.
    pub(crate) fn kept_line(&self, kept: usize) -> &KeptLine
        requires kept { kept < length self.now.city.kept }
        ensures value { result.now ≡ kept_in self.now.city kept }
    {
        &self.city.kept()[kept]
    }

    /// The places of a kept line.
    fn line(&self, kept: usize) -> &Line
        requires kept { kept < length self.now.city.kept }
        ensures value { result.now ≡ line_in self.now.city self.now.lines kept }
    {
        self.rules();
        let line = self.kept_line(kept).line;
        &self.lines[line as usize]
    }

    /// How many places a kept line leaves: one at least.
    pub(crate) fn legs(&self, kept: usize) -> usize
        requires kept { kept < length self.now.city.kept }
        ensures value { result + 1 ≡ length (line_in self.now.city self.now.lines kept).places }
        ensures few { result ≤ NODE_LIMIT }
    {
        self.rules();
        let legs = self.line(kept).places.as_slice().len() - 1;
        self.has_nodes(kept, legs - 1);
        legs
    }

    /// The city has the nodes of a place that a kept line leaves. This costs no time.
    pub(crate) fn has_nodes(&self, kept: usize, place: usize)
        requires kept { kept < length self.now.city.kept }
        requires place { place + 1 < length (line_in self.now.city self.now.lines kept).places }
        ensures within { leave_number self.now.city kept place + 1 < self.now.city.net.nodes }
        ensures few { self.now.city.net.nodes ≤ NODE_LIMIT }
    {
        self.rules();
        let city = self.city();
        city.rules();
        let _nodes = city.net().nodes();
    }

    /// The id of a stop.
    pub(crate) fn id_of_stop(&self, stop: usize) -> &[u8]
        requires stop { stop < length self.now.feed.stops }
        ensures value { result.now ≡ id_of_stop self.now.feed stop }
    {
        self.feed.stops()[stop].id.as_str().as_bytes()
    }

    /// The id of the route of a kept line.
    pub(crate) fn id_of_route(&self, kept: usize) -> &[u8]
        requires kept { kept < length self.now.city.kept }
        ensures value { result.now ≡ id_of_route self.now.feed (kept_in self.now.city kept).route }
    {
        self.rules();
        let route = self.kept_line(kept).route;
        self.feed.routes()[route as usize].as_str().as_bytes()
    }

    /// The id of the stop at a place of a kept line.
    pub(crate) fn id_at(&self, kept: usize, place: usize) -> &[u8]
        requires kept { kept < length self.now.city.kept }
        requires place { place < length (line_in self.now.city self.now.lines kept).places }
        ensures value { result.now
            ≡ id_at self.now.feed (line_in self.now.city self.now.lines kept) place }
    {
        self.rules();
        let stop = self.line(kept).places.as_slice()[place].stop;
        self.id_of_stop(stop as usize)
    }

    /// The node at which a kept line leaves a place. That at which it reaches the next follows.
    pub(crate) fn leave(&self, kept: usize, place: usize) -> u32
        requires kept { kept < length self.now.city.kept }
        requires place { place + 1 < length (line_in self.now.city self.now.lines kept).places }
        ensures value { result ≡ leave_number self.now.city kept place }
        ensures leaves { slice_get self.now.city.nodes result ≡ Some (node.Leave kept place) }
        ensures reaches { slice_get self.now.city.nodes (result + 1)
            ≡ Some (node.Reach kept (place + 1)) }
        ensures within { result + 1 < self.now.city.net.nodes }
        ensures few { result < NODE_LIMIT }
    {
        self.rules();
        self.has_nodes(kept, place);
        self.kept_line(kept).first_node + 2 * place as u32
    }

    /// The node of a stop at which nobody has boarded yet. The other one follows.
    pub(crate) fn first(&self, stop: usize) -> u32
        requires stop { stop < length self.now.feed.stops }
        ensures first { slice_get self.now.city.nodes result ≡ Some (node.First stop) }
        ensures later { slice_get self.now.city.nodes (result + 1) ≡ Some (node.Later stop) }
        ensures within { result + 1 < self.now.city.net.nodes }
        ensures few { result < NODE_LIMIT }
    {
        self.rules();
        self.city.rules();
        let _nodes = self.city.net().nodes();
        2 * self.city.zones() + 2 * stop as u32
    }
}
