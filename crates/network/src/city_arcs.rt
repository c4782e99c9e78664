//! The arcs of a city.

ghost use Rattle.std.specs.Prelude.{◌≡◌, ◌≤◌, ◌++◌, [], IfErr, IfOk, OnOk, length, map};
ghost use Rattle.definitions.specs.declared.limits.TheConstants.{ARC_LIMIT};
ghost use Rattle.network.specs.Adding.{Adds, AreArcs};
ghost use Rattle.network.specs.Arcs.{arcs_of};
ghost use Rattle.network.specs.Boardings.{AreBoardings, boardings_in, fares_in};
ghost use Rattle.network.specs.Faults.{IsFirstFault, arc_faults, cost_faults, limit_faults};
ghost use Rattle.network.specs.Groups.{groups_of};
ghost use Rattle.network.specs.Sources.{stop_count, zone_count};
ghost use Rattle.network.specs.declared.fault.BuildFault.TheVariants as fault;
ghost use Rattle.network.specs.declared.fault.Limit.TheVariants as limit;
ghost use Rattle.scenarios.specs.Tariffs.{KeepsTicks, scenario_in};

use crate::access::add_zones;
use crate::arcs::CityArcs;
use crate::boardings::{Boarding, Boardings, Fares, list_boardings, list_fares};
use crate::counting::arc_count;
use crate::fault::{BuildFault, Limit};
use crate::groups::Groups;
use crate::riding::add_lines;
use crate::stops::add_stops;
use crate::town::Town;
use definitions::ARC_LIMIT;
use demand::ZoneLink;
use scenarios::{Layer, TimeFare};
use std::alloc::Global;

/// The arcs of a town, by the order of the nodes that they leave. They are counted before any is
/// made.
///
/// # Refusals
///
/// The first that applies, in this order.
/// - `Range` of the number of arcs.
/// - Then for each arc in turn: `Range` of its cost.
/// - `NoMemory` may come in place of any of these.
pub(crate) fn city_arcs<F: Fn(u32, Layer) -> u64>(
    alloc: Global,
    town: &Town,
    fare: &TimeFare<F>,
) -> Result<CityArcs, BuildFault>
    requires fare { scenario_in fare.now ≡ town.now.scenario }
    requires keeps { KeepsTicks F.pre F.post fare.now }
    ensures arcs { IfOk result (λ found. found.arcs.items
        ≡ map (λ each. each.arc) (arcs_of town.now)) }
    ensures kinds { IfOk result (λ found. found.kinds.items
        ≡ map (λ each. each.kind) (arcs_of town.now)) }
    ensures faultless { OnOk result (arc_faults town.now ++ cost_faults (arcs_of town.now) ≡ []) }
    ensures refused { IfErr result
        (IsFirstFault (arc_faults town.now ++ cost_faults (arcs_of town.now))) }
{
    let list = list_boardings(alloc, town)?;
    let count = arc_count(town, list.len());
    judge_count(count)?;
    let fares = list_fares(alloc, town, fare)?;
    arcs_within(alloc, town, list, fares, count as usize)
}

// Refuses a number of arcs that is past the limit.
fn judge_count(count: u128) -> Result<(), BuildFault>
    ensures faultless { OnOk result (limit_faults limit.Arcs ARC_LIMIT count ≡ []) }
    ensures within { OnOk result (count ≤ ARC_LIMIT) }
    ensures refused { IfErr result (IsFirstFault (limit_faults limit.Arcs ARC_LIMIT count)) }
{
    if count > u128::from(ARC_LIMIT) {
        let limit = Limit::Arcs;
        return Err(BuildFault::Range { limit, count });
    }
    Ok(())
}

// The arcs of a town, where they are few.
fn arcs_within(
    alloc: Global,
    town: &Town,
    list: Vec<Boarding>,
    fares: Vec<Fares>,
    count: usize,
) -> Result<CityArcs, BuildFault>
    requires list { list.items ≡ boardings_in town.now }
    requires fares { fares.items ≡ fares_in town.now }
    requires few_links { length town.now.zones.links ≤ ARC_LIMIT }
    requires few_boardings { length list.items ≤ ARC_LIMIT }
    ensures added { IfOk result (λ found. AreArcs found (arcs_of town.now)) }
    ensures refused { IfErr result (IsFirstFault (cost_faults (arcs_of town.now))) }
{
    let by_zone = links_by_zone(alloc, town)?;
    let by_stop = links_by_stop(alloc, town)?;
    let boardings = Boardings::new(alloc, town, list, fares)?;
    let mut arcs = CityArcs::with_room(alloc, count)?;
    add_arcs(town, &by_zone, &by_stop, &boardings, &mut arcs)?;
    Ok(arcs)
}

// Adds the arcs of a town.
fn add_arcs(
    town: &Town,
    by_zone: &Groups,
    by_stop: &Groups,
    boardings: &Boardings,
    arcs: &mut CityArcs,
) -> Result<(), BuildFault>
    requires by_zone { by_zone.now
        ≡ groups_of (zone_count town.now) (map (λ link. link.zone) town.now.zones.links) }
    requires by_stop { by_stop.now
        ≡ groups_of (stop_count town.now) (map (λ link. link.stop) town.now.zones.links) }
    requires boardings { AreBoardings town.now boardings.now }
    ensures added { OnOk result (Adds arcs.old arcs.new (arcs_of town.now)) }
    ensures refused { IfErr result (IsFirstFault (cost_faults (arcs_of town.now))) }
{
    add_zones(town, by_zone, arcs)?;
    add_stops(town, by_stop, boardings, arcs)?;
    add_lines(town, arcs)
}

// The places of the links, by their zones.
fn links_by_zone(alloc: Global, town: &Town) -> Result<Groups, BuildFault>
    requires few { length town.now.zones.links ≤ ARC_LIMIT }
    ensures value { IfOk result (λ groups. groups
        ≡ groups_of (zone_count town.now) (map (λ link. link.zone) town.now.zones.links)) }
    ensures no_memory { IfErr result (λ e. e ≡ fault.NoMemory) }
{
    let keys = zones_of(alloc, town.links())?;
    group_by_zone(alloc, town, &keys)
}

// The places of the links, by their stops.
fn links_by_stop(alloc: Global, town: &Town) -> Result<Groups, BuildFault>
    requires few { length town.now.zones.links ≤ ARC_LIMIT }
    ensures value { IfOk result (λ groups. groups
        ≡ groups_of (stop_count town.now) (map (λ link. link.stop) town.now.zones.links)) }
    ensures no_memory { IfErr result (λ e. e ≡ fault.NoMemory) }
{
    let keys = stops_of(alloc, town.links())?;
    group_by_stop(alloc, town, &keys)
}

// The zones of links.
fn zones_of(alloc: Global, links: &[ZoneLink]) -> Result<Vec<u32>, BuildFault>
    ensures value { IfOk result (λ zones. zones.items ≡ map (λ link. link.zone) links.now) }
    ensures no_memory { IfErr result (λ e. e ≡ fault.NoMemory) }
{
    let mut zones = Vec::new(alloc);
    for link in links {
        zones.push(link.zone)?;
    }
    Ok(zones)
}

// The stops of links.
fn stops_of(alloc: Global, links: &[ZoneLink]) -> Result<Vec<u32>, BuildFault>
    ensures value { IfOk result (λ stops. stops.items ≡ map (λ link. link.stop) links.now) }
    ensures no_memory { IfErr result (λ e. e ≡ fault.NoMemory) }
{
    let mut stops = Vec::new(alloc);
    for link in links {
        stops.push(link.stop)?;
    }
    Ok(stops)
}

// The places of the zones of links.
fn group_by_zone(alloc: Global, town: &Town, zones: &[u32]) -> Result<Groups, BuildFault>
    requires zones { zones.now ≡ map (λ link. link.zone) town.now.zones.links }
    requires few { length zones.now ≤ ARC_LIMIT }
    ensures value { IfOk result (λ groups. groups ≡ groups_of (zone_count town.now) zones.now) }
    ensures no_memory { IfErr result (λ e. e ≡ fault.NoMemory) }
{
    town.rules();
    Groups::new(alloc, town.zones(), zones)
}

// The places of the stops of links.
fn group_by_stop(alloc: Global, town: &Town, stops: &[u32]) -> Result<Groups, BuildFault>
    requires stops { stops.now ≡ map (λ link. link.stop) town.now.zones.links }
    requires few { length stops.now ≤ ARC_LIMIT }
    ensures value { IfOk result (λ groups. groups ≡ groups_of (stop_count town.now) stops.now) }
    ensures no_memory { IfErr result (λ e. e ≡ fault.NoMemory) }
{
    town.rules();
    Groups::new(alloc, town.stops(), stops)
}

#[cfg(test)]
mod tests {
    use super::*;
    use std::test::Fail;

    #[test]
    fn an_arc_past_the_limit_is_refused(rt: HostRuntime) -> Result<(), Fail> {
        assert_eq!(rt; judge_count(4_194_304), Ok(()));
        let fault = BuildFault::Range {
            limit: Limit::Arcs,
            count: 4_194_305,
        };
        assert_eq!(rt; judge_count(4_194_305), Err(fault));
        Ok(())
    }
}
