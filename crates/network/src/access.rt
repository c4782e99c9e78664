//! The arcs from the nodes of zones, and those from stops to zones.

ghost use Rattle.std.specs.Prelude.{◌≡◌, ◌<◌, IfErr, IfOk, OnOk, map};
ghost use Rattle.network.specs.Adding.{Adds};
ghost use Rattle.network.specs.ArcParts.{zone_part};
ghost use Rattle.network.specs.Arcs.{access_arcs, egress_arcs, node_in};
ghost use Rattle.network.specs.Faults.{IsFirstFault, cost_faults};
ghost use Rattle.network.specs.Groups.{groups_of};
ghost use Rattle.network.specs.Sources.{stop_count, zone_count};

use crate::arcs::CityArcs;
use crate::fault::BuildFault;
use crate::groups::Groups;
use crate::kinds::{ArcKind, NodeKind};
use crate::layers::node_in;
use crate::town::Town;
use scenarios::Layer;

// Adds the arcs from a zone to the stops of its links.
fn add_access(
    town: &Town,
    by_zone: &Groups,
    zone: u32,
    arcs: &mut CityArcs,
) -> Result<(), BuildFault>
    requires zone { zone < zone_count town.now }
    requires by_zone { by_zone.now
        ≡ groups_of (zone_count town.now) (map (λ link. link.zone) town.now.zones.links) }
    ensures added { OnOk result (Adds arcs.old arcs.new (access_arcs town.now zone)) }
    ensures refused { IfErr result (IsFirstFault (cost_faults (access_arcs town.now zone))) }
{
    let links = town.links();
    let from = NodeKind::Origin { zone };
    for place in by_zone.of(zone) {
        let link = links[*place as usize];
        let to = NodeKind::First { stop: link.stop };
        arcs.walk(town, ArcKind::Access, from, to, link.seconds)?;
    }
    Ok(())
}

// Adds the arcs from a stop in a layer to the zones of its links.
pub(crate) fn add_egress(
    town: &Town,
    by_stop: &Groups,
    layer: Layer,
    stop: u32,
    arcs: &mut CityArcs,
) -> Result<(), BuildFault>
    requires stop { stop < stop_count town.now }
    requires by_stop { by_stop.now
        ≡ groups_of (stop_count town.now) (map (λ link. link.stop) town.now.zones.links) }
    ensures added { OnOk result (Adds arcs.old arcs.new (egress_arcs town.now layer stop)) }
    ensures refused { IfErr result (IsFirstFault (cost_faults (egress_arcs town.now layer stop))) }
{
    let links = town.links();
    let from = node_in(layer, stop);
    for place in by_stop.of(stop) {
        let link = links[*place as usize];
        let to = NodeKind::Goal { zone: link.zone };
        arcs.walk(town, ArcKind::Egress, from, to, link.seconds)?;
    }
    Ok(())
}

/// Adds the arcs from all zones.
pub(crate) fn add_zones(
    town: &Town,
    by_zone: &Groups,
    arcs: &mut CityArcs,
) -> Result<(), BuildFault>
    requires by_zone { by_zone.now
        ≡ groups_of (zone_count town.now) (map (λ link. link.zone) town.now.zones.links) }
    ensures added { OnOk result (Adds arcs.old arcs.new (zone_part town.now)) }
    ensures refused { IfErr result (IsFirstFault (cost_faults (zone_part town.now))) }
{
    for zone in 0..town.zones() {
        add_access(town, by_zone, zone, arcs)?;
    }
    Ok(())
}
