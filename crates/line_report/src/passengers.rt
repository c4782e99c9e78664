//! Where the passengers of an assignment board, ride and alight.

ghost use Rattle.std.specs.Prelude.{◌≡◌, ◌+◌, ◌*◌, ◌<◌, ◌≤◌, Some, length, slice_get};
ghost use Rattle.definitions.specs.Network.{out_arcs};
ghost use Rattle.line_report.specs.Passengers.{alighted, alighted_at_stop, boarded, boarded_in_all, came_from_zones, first_boarded, later_boarded, most_on_board, on_board, ticks_from, ticks_in_all, transferred, transferred_in_all, went_to_zones};
ghost use Rattle.line_report.specs.Volumes.{arcs_entering, arcs_leaving, ticks_on, units_on};
ghost use Rattle.lp_model.specs.Parts.{first_arc};
ghost use Rattle.network.specs.Standing.{leave_number, line_in};
ghost use Rattle.network.specs.declared.kinds.NodeKind.{NodeKind};

use crate::sums::{ticks_leaving, units_entering, units_leaving};
use crate::table::Table;
use network::ArcKind;

impl<'a> Table<'a> {
    // The units on the arcs of a kind that leave a node.
    fn leaving(&self, kind: ArcKind, node: u32) -> u128
        requires node { node < self.now.city.net.nodes }
        ensures value { (thing : NodeKind) → slice_get self.now.city.nodes node ≡ Some thing
            → result ≡ units_on self.now.volumes (arcs_leaving self.now.city kind thing) }
        ensures within { result ≤ 4194304 * 18446744073709551615 }
    {
        units_leaving(self.city(), self.volumes(), kind, node)
    }

    // The units on the arcs of a kind that lead to a node.
    fn entering(&self, kind: ArcKind, node: u32) -> u128
        requires node { node < self.now.city.net.nodes }
        ensures value { (thing : NodeKind) → slice_get self.now.city.nodes node ≡ Some thing
            → result ≡ units_on self.now.volumes (arcs_entering self.now.city kind thing) }
        ensures within { result ≤ 4194304 * 18446744073709551615 }
    {
        units_entering(self.city(), self.volumes(), kind, node)
    }

    // The ticks that all units spend on the arcs of a kind that leave a node.
    fn ticks(&self, kind: ArcKind, node: u32) -> u128
        requires node { node < self.now.city.net.nodes }
        ensures value { (thing : NodeKind) → slice_get self.now.city.nodes node ≡ Some thing
            → result ≡ ticks_on self.now.city self.now.volumes
            (arcs_leaving self.now.city kind thing) }
        ensures within { result
            ≤ length (out_arcs self.now.city.net node) * 18446744073709551615000000000 }
    {
        ticks_leaving(self.city(), self.volumes(), kind, node)
    }

    /// The units that board for the first time at a stop.
    pub(crate) fn first_boarded(&self, stop: usize) -> u128
        requires stop { stop < length self.now.feed.stops }
        ensures value { result ≡ first_boarded self.now.city self.now.volumes stop }
    {
        let node = self.first(stop);
        self.leaving(ArcKind::BoardFirst, node)
    }

    /// The units that board at a stop after another line.
    pub(crate) fn later_boarded(&self, stop: usize) -> u128
        requires stop { stop < length self.now.feed.stops }
        ensures value { result ≡ later_boarded self.now.city self.now.volumes stop }
    {
        let node = self.first(stop) + 1;
        self.leaving(ArcKind::BoardLater, node)
    }

    /// The units that alight at a stop.
    pub(crate) fn alighted_at_stop(&self, stop: usize) -> u128
        requires stop { stop < length self.now.feed.stops }
        ensures value { result ≡ alighted_at_stop self.now.city self.now.volumes stop }
    {
        let node = self.first(stop) + 1;
        self.entering(ArcKind::Alight, node)
    }

    /// The units that come to a stop from zones.
    pub(crate) fn came_from_zones(&self, stop: usize) -> u128
        requires stop { stop < length self.now.feed.stops }
        ensures value { result ≡ came_from_zones self.now.city self.now.volumes stop }
    {
        let node = self.first(stop);
        self.entering(ArcKind::Access, node)
    }

    /// The units that go from a stop to zones.
    pub(crate) fn went_to_zones(&self, stop: usize) -> u128
        requires stop { stop < length self.now.feed.stops }
        ensures value { result ≡ went_to_zones self.now.city self.now.volumes stop }
    {
        let node = self.first(stop);
        let never_boarded = self.leaving(ArcKind::Egress, node);
        let alighted = self.leaving(ArcKind::Egress, node + 1);
        never_boarded + alighted
    }

    /// The units that board a kept line at a place after another line.
    pub(crate) fn transferred(&self, kept: usize, place: usize) -> u128
        requires kept { kept < length self.now.city.kept }
        requires place { place + 1 < length (line_in self.now.city self.now.lines kept).places }
        ensures value { result ≡ transferred self.now.city self.now.volumes kept place }
        ensures within { result ≤ 4194304 * 18446744073709551615 }
    {
        let node = self.leave(kept, place);
        self.entering(ArcKind::BoardLater, node)
    }

    /// The units that board a kept line at a place.
    pub(crate) fn boarded(&self, kept: usize, place: usize) -> u128
        requires kept { kept < length self.now.city.kept }
        requires place { place + 1 < length (line_in self.now.city self.now.lines kept).places }
        ensures value { result ≡ boarded self.now.city self.now.volumes kept place }
        ensures within { result ≤ 8388608 * 18446744073709551615 }
    {
        let node = self.leave(kept, place);
        let first = self.entering(ArcKind::BoardFirst, node);
        first + self.transferred(kept, place)
    }

    /// The units that alight from a kept line at a place, none at its first one.
    pub(crate) fn alighted(&self, kept: usize, place: usize) -> u128
        requires kept { kept < length self.now.city.kept }
        requires place { place < length (line_in self.now.city self.now.lines kept).places }
        ensures value { result ≡ alighted self.now.city self.now.volumes kept place }
    {
        if place == 0 {
            // No line reaches its first place.
            self.city().rules();
            return 0;
        }
        let node = self.leave(kept, place - 1) + 1;
        self.leaving(ArcKind::Alight, node)
    }

    /// The units that ride on a kept line from a place to the next.
    pub(crate) fn on_board(&self, kept: usize, place: usize) -> u128
        requires kept { kept < length self.now.city.kept }
        requires place { place + 1 < length (line_in self.now.city self.now.lines kept).places }
        ensures value { result ≡ on_board self.now.city self.now.volumes kept place }
    {
        let node = self.leave(kept, place);
        self.leaving(ArcKind::Ride, node)
    }

    /// The ticks that all units spend on a kept line from a place on, riding and dwelling.
    pub(crate) fn ticks_from(&self, kept: usize, place: usize) -> u128
        requires kept { kept < length self.now.city.kept }
        requires place { place + 1 < length (line_in self.now.city self.now.lines kept).places }
        ensures value { result ≡ ticks_from self.now.city self.now.volumes kept place }

        // The arcs that leave the nodes of a line are numbered one after the other.
        ensures within { first_arc self.now.city.net (leave_number self.now.city kept place)
            * 18446744073709551615000000000 + result
            ≤ first_arc self.now.city.net (leave_number self.now.city kept (place + 1))
            * 18446744073709551615000000000 }
        ensures room { first_arc self.now.city.net (leave_number self.now.city kept (place + 1))
            ≤ 4194304 }
    {
        // Each arc has a number below their count.
        let _arcs = self.city().net().arcs();
        let node = self.leave(kept, place);
        let riding = self.ticks(ArcKind::Ride, node);
        let dwelling = self.ticks(ArcKind::Dwell, node + 1);
        riding + dwelling
    }

    /// The units that board a kept line.
    pub(crate) fn boarded_in_all(&self, kept: usize) -> u128
        requires kept { kept < length self.now.city.kept }
        ensures value { result ≡ boarded_in_all self.now.city self.now.volumes
            (line_in self.now.city self.now.lines kept) kept }
    {
        let mut units = 0u128;
        for place in 0..self.legs(kept) {
            units += self.boarded(kept, place);
        }
        units
    }

    /// The units that board a kept line after another line.
    pub(crate) fn transferred_in_all(&self, kept: usize) -> u128
        requires kept { kept < length self.now.city.kept }
        ensures value { result ≡ transferred_in_all self.now.city self.now.volumes
            (line_in self.now.city self.now.lines kept) kept }
    {
        let mut units = 0u128;
        for place in 0..self.legs(kept) {
            units += self.transferred(kept, place);
        }
        units
    }

    /// The most units that ride on a kept line from one place to the next.
    pub(crate) fn most_on_board(&self, kept: usize) -> u128
        requires kept { kept < length self.now.city.kept }
        ensures value { result ≡ most_on_board self.now.city self.now.volumes
            (line_in self.now.city self.now.lines kept) kept }
    {
        let mut most = 0u128;
        for place in 0..self.legs(kept) {
            most = most.max(self.on_board(kept, place));
        }
        most
    }

    /// The ticks that all units spend on a kept line.
    pub(crate) fn ticks_in_all(&self, kept: usize) -> u128
        requires kept { kept < length self.now.city.kept }
        ensures value { result ≡ ticks_in_all self.now.city self.now.volumes
            (line_in self.now.city self.now.lines kept) kept }
    {
        let mut ticks = 0u128;
        for place in 0..self.legs(kept) {
            ticks += self.ticks_from(kept, place);
        }
        ticks
    }
}
