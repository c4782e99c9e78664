//! The arcs from the nodes of stops.

ghost use Rattle.std.specs.Prelude.{◌≡◌, ◌<◌, [], ◌∷◌, IfErr, OnOk, map};
ghost use Rattle.network.specs.Adding.{Adds};
ghost use Rattle.network.specs.ArcParts.{stop_node_arcs, stop_part};
ghost use Rattle.network.specs.Arcs.{board_arc, board_arcs, stop_arcs, walk_arcs};
ghost use Rattle.network.specs.Boardings.{AreBoardings, fares_in};
ghost use Rattle.network.specs.Faults.{IsFirstFault, cost_faults};
ghost use Rattle.network.specs.Groups.{groups_of};
ghost use Rattle.network.specs.Sources.{stop_count};
ghost use Rattle.network.specs.Towns.{HasSegment};

use crate::access::add_egress;
use crate::arcs::CityArcs;
use crate::boardings::{Boarding, Boardings, Fares};
use crate::fault::BuildFault;
use crate::groups::Groups;
use crate::kinds::{ArcKind, NodeKind};
use crate::layers::{boarding_in, node_in};
use crate::town::Town;
use scenarios::Layer;

// Adds the walks from a stop in a layer.
fn add_walks(town: &Town, layer: Layer, stop: u32, arcs: &mut CityArcs) -> Result<(), BuildFault>
    requires stop { stop < stop_count town.now }
    ensures added { OnOk result (Adds arcs.old arcs.new (walk_arcs town.now layer stop)) }
    ensures refused { IfErr result (IsFirstFault (cost_faults (walk_arcs town.now layer stop))) }
{
    let from = node_in(layer, stop);
    for walk in town.walks(stop) {
        let to = node_in(layer, walk.to);
        arcs.walk(town, ArcKind::Walk, from, to, walk.seconds)?;
    }
    Ok(())
}

// Adds a boarding from a stop in a layer.
fn add_boarding(
    town: &Town,
    fares: &[Fares],
    layer: Layer,
    stop: u32,
    boarding: Boarding,
    arcs: &mut CityArcs,
) -> Result<(), BuildFault>
    requires stop { stop < stop_count town.now }
    requires segment { HasSegment town.now boarding.line boarding.place }
    requires fares { fares.now ≡ fares_in town.now }
    ensures added { OnOk result (Adds arcs.old arcs.new
        (board_arc town.now layer stop boarding.line boarding.place ∷ [])) }
    ensures refused { IfErr result (IsFirstFault (cost_faults
        (board_arc town.now layer stop boarding.line boarding.place ∷ []))) }
{
    let line = boarding.line;
    let place = boarding.place;
    let tail = town.number(node_in(layer, stop));
    let head = town.number(NodeKind::Leave { line, place });
    let cost = u128::from(fares[line as usize].of(layer));
    let weight = Some(town.weight(line));
    arcs.push(boarding_in(layer), tail, head, cost, weight)
}

// Adds the boardings from a stop in a layer.
fn add_boardings(
    town: &Town,
    boardings: &Boardings,
    layer: Layer,
    stop: u32,
    arcs: &mut CityArcs,
) -> Result<(), BuildFault>
    requires stop { stop < stop_count town.now }
    requires boardings { AreBoardings town.now boardings.now }
    ensures added { OnOk result (Adds arcs.old arcs.new (board_arcs town.now layer stop)) }
    ensures refused { IfErr result (IsFirstFault (cost_faults (board_arcs town.now layer stop))) }
{
    let list = boardings.list.as_slice();
    let fares = boardings.fares.as_slice();
    for place in boardings.by_stop.of(stop) {
        add_boarding(town, fares, layer, stop, list[*place as usize], arcs)?;
    }
    Ok(())
}

// Adds the arcs from a stop in a layer.
fn add_stop(
    town: &Town,
    by_stop: &Groups,
    boardings: &Boardings,
    layer: Layer,
    stop: u32,
    arcs: &mut CityArcs,
) -> Result<(), BuildFault>
    requires stop { stop < stop_count town.now }
    requires by_stop { by_stop.now
        ≡ groups_of (stop_count town.now) (map (λ link. link.stop) town.now.zones.links) }
    requires boardings { AreBoardings town.now boardings.now }
    ensures added { OnOk result (Adds arcs.old arcs.new (stop_arcs town.now layer stop)) }
    ensures refused { IfErr result (IsFirstFault (cost_faults (stop_arcs town.now layer stop))) }
{
    add_egress(town, by_stop, layer, stop, arcs)?;
    add_walks(town, layer, stop, arcs)?;
    add_boardings(town, boardings, layer, stop, arcs)
}

// Adds the arcs from a stop in both layers.
fn add_layers(
    town: &Town,
    by_stop: &Groups,
    boardings: &Boardings,
    stop: u32,
    arcs: &mut CityArcs,
) -> Result<(), BuildFault>
    requires stop { stop < stop_count town.now }
    requires by_stop { by_stop.now
        ≡ groups_of (stop_count town.now) (map (λ link. link.stop) town.now.zones.links) }
    requires boardings { AreBoardings town.now boardings.now }
    ensures added { OnOk result (Adds arcs.old arcs.new (stop_node_arcs town.now stop)) }
    ensures refused { IfErr result (IsFirstFault (cost_faults (stop_node_arcs town.now stop))) }
{
    add_stop(town, by_stop, boardings, Layer::First, stop, arcs)?;
    add_stop(town, by_stop, boardings, Layer::Later, stop, arcs)
}

/// Adds the arcs from all stops.
pub(crate) fn add_stops(
    town: &Town,
    by_stop: &Groups,
    boardings: &Boardings,
    arcs: &mut CityArcs,
) -> Result<(), BuildFault>
    requires by_stop { by_stop.now
        ≡ groups_of (stop_count town.now) (map (λ link. link.stop) town.now.zones.links) }
    requires boardings { AreBoardings town.now boardings.now }
    ensures added { OnOk result (Adds arcs.old arcs.new (stop_part town.now)) }
    ensures refused { IfErr result (IsFirstFault (cost_faults (stop_part town.now))) }
{
    for stop in 0..town.stops() {
        add_layers(town, by_stop, boardings, stop, arcs)?;
    }
    Ok(())
}
