//! Room for the skims of one zone after another.

ghost use Rattle.std.specs.Prelude.{◌≡◌, ◌<◌, length, IfOk};
ghost use Rattle.definitions.specs.Reach.{IsReach};
ghost use Rattle.definitions.specs.Labels.{SolvesLabels, IsOrder};
ghost use Rattle.skims.specs.Skims.{goal_of, skim_at, AreSkims, AreNearLabels, unfilled, IsRoomFor};

use crate::filling::fill_rows;
use crate::skim::Skim;
use label_setting::Workspace;
use network::CityNet;
use std::alloc::{AllocError, Global};
use std::marker::Model;

/// Room for the skims of a city to one zone, and what was filled in last.
#[derive(Drop)]
pub struct SkimSpace {
    zones: u32,
    rows: Vec<Option<Skim>>,
}

impl Model for SkimSpace {
    ghost use Rattle.std.specs.Prelude.{◌≤◌, length};
    ghost use Rattle.skims.specs.Skims.{SkimsData};

    ghost Value = { SkimsData };

    ghost view = { λ s. record { zones = s.zones; rows = s.rows.items } };

    ghost invariant = { λ s. s.zones ≤ length s.rows.items };
}

impl SkimSpace {
    /// Room for the skims of a city, in which no node has one. It is used again for each zone, also
    /// of another city with as many nodes and zones.
    ///
    /// # Refusals
    ///
    /// `AllocError` where there is no memory.
    pub fn new(alloc: Global, city: &CityNet) -> Result<SkimSpace, AllocError>
        ensures value { IfOk result (λ space. space ≡ unfilled city.now) }
    {
        city.rules();
        Ok(SkimSpace {
            zones: city.zones(),
            rows: vec![in alloc; None; city.net().nodes() as usize]?,
        })
    }

    /// The skim from the origin of a zone to the goal of the zone that was filled last. It is `None`
    /// where the origin does not reach that goal, and before any zone was filled.
    pub fn row(&self, origin: u32) -> Option<Skim>
        requires origin { origin < self.now.zones }
        ensures value { result ≡ skim_at self.now.rows origin }
    {
        self.rows[origin as usize]
    }
}

/// Fills in the skims to a zone: for each node that reaches the zone's goal its label and the
/// label's parts, in ticks.
///
/// `ws` holds the labels of that goal. A part is 0 at the goal. Along a chosen free arc it is the
/// part of the node to which the arc leads, and the arc's cost where that belongs to it. Where
/// passengers wait it is the mean of the parts along the attractive arcs by weight, with the wait
/// constant over their combined weight where the part is the wait, rounded down (after Spiess and
/// Florian 1989). Access, egress and walks belong to `walk`, rides and dwells to `ride`, boardings
/// and alightings to `board`.
///
/// It takes no memory, and time that is linear in nodes and arcs.
pub fn fill(city: &CityNet, zone: u32, ws: &Workspace, space: &mut SkimSpace)
    requires zone { zone < city.now.zones }
    requires reach { IsReach city.now.net (goal_of city.now zone) ws.now.reached }
    requires labels { SolvesLabels city.now.net (goal_of city.now zone) ws.now.reached ws.now.labels }
    requires order { IsOrder ws.now.reached ws.now.labels ws.now.order }
    requires room { IsRoomFor city.now space.old }
    ensures room { IsRoomFor city.now space.new }
    ensures skims { AreSkims city.now (goal_of city.now zone) ws.now.reached ws.now.labels space.new.rows }
    ensures near { AreNearLabels city.now (goal_of city.now zone) ws.now.reached ws.now.labels space.new.rows }
{
    fill_rows(
        city,
        city.goal(zone),
        ws.labels(),
        ws.reached(),
        ws.order(),
        &mut space.rows,
    );
}

#[cfg(test)]
mod tests;
