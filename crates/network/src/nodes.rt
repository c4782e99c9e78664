//! What the nodes of a city stand for.

ghost use Rattle.std.specs.Prelude.{◌≡◌, ◌<◌, ◌++◌, IfErr, IfOk, OnOk, flat_map, map};
ghost use Rattle.std.specs.List.{range_with_len};
ghost use Rattle.network.specs.Nodes.{line_nodes, nodes_of, stop_nodes};
ghost use Rattle.network.specs.Sources.{kept_count, stop_count, zone_count};
ghost use Rattle.network.specs.declared.fault.BuildFault.TheVariants as fault;
ghost use Rattle.network.specs.declared.kinds.NodeKind.TheVariants as node;

use crate::fault::BuildFault;
use crate::kinds::NodeKind;
use crate::town::Town;
use std::alloc::Global;

/// What each node stands for, by its number.
pub(crate) fn node_kinds(alloc: Global, town: &Town) -> Result<Vec<NodeKind>, BuildFault>
    ensures value { IfOk result (λ nodes. nodes.items ≡ nodes_of town.now) }
    ensures no_memory { IfErr result (λ e. e ≡ fault.NoMemory) }
{
    let mut nodes = Vec::new(alloc);
    add_origins(town, &mut nodes)?;
    add_goals(town, &mut nodes)?;
    add_stops(town, &mut nodes)?;
    add_lines(town, &mut nodes)?;
    Ok(nodes)
}

// Adds the origins of the zones.
fn add_origins(town: &Town, nodes: &mut Vec<NodeKind>) -> Result<(), BuildFault>
    ensures added { OnOk result (nodes.new.items
        ≡ nodes.old.items ++ map node.Origin (range_with_len 0 (zone_count town.now))) }
    ensures no_memory { IfErr result (λ e. e ≡ fault.NoMemory) }
{
    for zone in 0..town.zones() {
        nodes.push(NodeKind::Origin { zone })?;
    }
    Ok(())
}

// Adds the goals of the zones.
fn add_goals(town: &Town, nodes: &mut Vec<NodeKind>) -> Result<(), BuildFault>
    ensures added { OnOk result (nodes.new.items
        ≡ nodes.old.items ++ map node.Goal (range_with_len 0 (zone_count town.now))) }
    ensures no_memory { IfErr result (λ e. e ≡ fault.NoMemory) }
{
    for zone in 0..town.zones() {
        nodes.push(NodeKind::Goal { zone })?;
    }
    Ok(())
}

// Adds the two nodes of each stop.
fn add_stops(town: &Town, nodes: &mut Vec<NodeKind>) -> Result<(), BuildFault>
    ensures added { OnOk result (nodes.new.items
        ≡ nodes.old.items ++ flat_map stop_nodes (range_with_len 0 (stop_count town.now))) }
    ensures no_memory { IfErr result (λ e. e ≡ fault.NoMemory) }
{
    for stop in 0..town.stops() {
        nodes.push(NodeKind::First { stop })?;
        nodes.push(NodeKind::Later { stop })?;
    }
    Ok(())
}

// Adds the nodes of the kept lines.
fn add_lines(town: &Town, nodes: &mut Vec<NodeKind>) -> Result<(), BuildFault>
    ensures added { OnOk result (nodes.new.items
        ≡ nodes.old.items ++ flat_map (line_nodes town.now) (range_with_len 0 (kept_count town.now))) }
    ensures no_memory { IfErr result (λ e. e ≡ fault.NoMemory) }
{
    for line in 0..town.kept() {
        add_line(town, line, nodes)?;
    }
    Ok(())
}

// Adds the nodes of a kept line, from its first place to its last.
fn add_line(town: &Town, line: u32, nodes: &mut Vec<NodeKind>) -> Result<(), BuildFault>
    requires line { line < kept_count town.now }
    ensures added { OnOk result (nodes.new.items ≡ nodes.old.items ++ line_nodes town.now line) }
    ensures no_memory { IfErr result (λ e. e ≡ fault.NoMemory) }
{
    for place in 0..town.segments(line) {
        nodes.push(NodeKind::Leave { line, place })?;
        nodes.push(NodeKind::Reach {
            line,
            place: place + 1,
        })?;
    }
    Ok(())
}
