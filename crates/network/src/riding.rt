//! The arcs from the nodes of kept lines.

ghost use Rattle.std.specs.Prelude.{◌≡◌, ◌<◌, [], ◌∷◌, IfErr, OnOk};
ghost use Rattle.network.specs.Adding.{Adds};
ghost use Rattle.network.specs.ArcParts.{line_arcs, line_part, segment_arcs};
ghost use Rattle.network.specs.Arcs.{alight_arcs, dwell_arcs, ride_arc};
ghost use Rattle.network.specs.Faults.{IsFirstFault, cost_faults};
ghost use Rattle.network.specs.Sources.{kept_count};
ghost use Rattle.network.specs.Towns.{HasReach, HasSegment};

use crate::arcs::CityArcs;
use crate::fault::BuildFault;
use crate::kinds::{ArcKind, NodeKind};
use crate::town::Town;

// Adds the ride of a kept line from a place to the next.
fn add_ride(town: &Town, line: u32, place: u32, arcs: &mut CityArcs) -> Result<(), BuildFault>
    requires segment { HasSegment town.now line place }
    ensures added { OnOk result (Adds arcs.old arcs.new (ride_arc town.now line place ∷ [])) }
    ensures refused { IfErr result
        (IsFirstFault (cost_faults (ride_arc town.now line place ∷ []))) }
{
    let ride = town.line(line).rides.as_slice()[place as usize];
    let from = NodeKind::Leave { line, place };
    let to = NodeKind::Reach {
        line,
        place: town.next(line, place),
    };
    arcs.free(town, ArcKind::Ride, from, to, u128::from(ride))
}

// Adds the dwell of a kept line at a place, if it goes on from there.
fn add_dwell(town: &Town, line: u32, place: u32, arcs: &mut CityArcs) -> Result<(), BuildFault>
    requires reach { HasReach town.now line place }
    ensures added { OnOk result (Adds arcs.old arcs.new (dwell_arcs town.now line place)) }
    ensures refused { IfErr result (IsFirstFault (cost_faults (dwell_arcs town.now line place))) }
{
    if place == town.segments(line) {
        return Ok(());
    }
    let dwell = town.line(line).dwells.as_slice()[(place - 1) as usize];
    let from = NodeKind::Reach { line, place };
    let to = NodeKind::Leave { line, place };
    arcs.free(town, ArcKind::Dwell, from, to, u128::from(dwell))
}

// Adds the alighting from a kept line at a place, if passengers may.
fn add_alight(town: &Town, line: u32, place: u32, arcs: &mut CityArcs) -> Result<(), BuildFault>
    requires reach { HasReach town.now line place }
    ensures added { OnOk result (Adds arcs.old arcs.new (alight_arcs town.now line place)) }
    ensures refused { IfErr result (IsFirstFault (cost_faults (alight_arcs town.now line place))) }
{
    let here = town.place(line, place);
    if !here.drop || town.closed(here.stop) {
        return Ok(());
    }
    let from = NodeKind::Reach { line, place };
    let to = NodeKind::Later { stop: here.stop };
    arcs.free(town, ArcKind::Alight, from, to, 1)
}

// Adds the arcs of the segment of a kept line from a place to the next.
fn add_segment(town: &Town, line: u32, place: u32, arcs: &mut CityArcs) -> Result<(), BuildFault>
    requires segment { HasSegment town.now line place }
    ensures added { OnOk result (Adds arcs.old arcs.new (segment_arcs town.now line place)) }
    ensures refused { IfErr result (IsFirstFault (cost_faults (segment_arcs town.now line place))) }
{
    add_ride(town, line, place, arcs)?;
    let next = town.next(line, place);
    add_dwell(town, line, next, arcs)?;
    add_alight(town, line, next, arcs)
}

// Adds the arcs of a kept line.
fn add_line(town: &Town, line: u32, arcs: &mut CityArcs) -> Result<(), BuildFault>
    requires line { line < kept_count town.now }
    ensures added { OnOk result (Adds arcs.old arcs.new (line_arcs town.now line)) }
    ensures refused { IfErr result (IsFirstFault (cost_faults (line_arcs town.now line))) }
{
    for place in 0..town.segments(line) {
        add_segment(town, line, place, arcs)?;
    }
    Ok(())
}

/// Adds the arcs of all kept lines.
pub(crate) fn add_lines(town: &Town, arcs: &mut CityArcs) -> Result<(), BuildFault>
    ensures added { OnOk result (Adds arcs.old arcs.new (line_part town.now)) }
    ensures refused { IfErr result (IsFirstFault (cost_faults (line_part town.now))) }
{
    for line in 0..town.kept() {
        add_line(town, line, arcs)?;
    }
    Ok(())
}
