//! All destinations of a city, one after the other.

ghost use Rattle.std.specs.Prelude.{◌≡◌, ◌≢◌, ◌+◌, ◌<◌, ◌≤◌, ℕ, [], All, IfErr, IfOk, IsTrue, OnErr, OnOk, length};
ghost use Rattle.std.specs.List.{list_any};
ghost use Rattle.definitions.specs.Causes.{Rose};
ghost use Rattle.demand.specs.Laws.{IsPairAmong};
ghost use Rattle.line_report.specs.OnBoard.{AreConserved};
ghost use Rattle.assign.specs.Assignments.{IsAssignment, IsShownAssignment, StopsEarly};
ghost use Rattle.assign.specs.Bounds.{IsWithinBoardings, NoPlansAreCheaper};
ghost use Rattle.assign.specs.Conditions.{ArePairs};
ghost use Rattle.assign.specs.Partway.{AreReady, IsAssignedBelow, IsZoneDone};
ghost use Rattle.assign.specs.Plans.{HasPlans};
ghost use Rattle.assign.specs.Reached.{AllPairsReach, IsFirstUnreached};
ghost use Rattle.assign.specs.Rooms.{IsFilled, IsRoom, visit_in};
ghost use Rattle.assign.specs.Spans.{IsSpanOf};
ghost use Rattle.assign.specs.Sums.{AddsVisit, AreSumsOf, AreWithin};
ghost use Rattle.assign.specs.Visits.{IsVisitOf, goal_of, leads_to};
ghost use Rattle.assign.specs.declared.fault.AssignFault.TheVariants as fault;

use crate::fault::AssignFault;
use crate::reaching::first_unreached;
use crate::room::{Room, fill_for};
use crate::spans::end_of;
use crate::sums::{Sums, add};
use crate::visitor::Visitor;
use crate::ways::Ways;
use demand::{Demand, Pair};
use desk_io::{Counted, Failed};
use loading::Totals;
use network::CityNet;
use std::alloc::Global;

// Shows and adds all zones with demand, in order.
fn visit_all<V: Visitor>(
    city: &CityNet,
    pairs: &[Pair],
    room: &mut Room,
    sums: &mut Sums,
    each: &mut V,
) -> Result<(), Failed>
    requires pairs { ArePairs city.now.zones pairs.now }
    requires reach { AllPairsReach city.now pairs.now }
    requires room { IsRoom city.now.net room.old }
    requires none { AreSumsOf city.now.net [] sums.old }
    requires within { AreWithin city.now.net sums.old }
    ensures ok { OnOk result (IsAssignedBelow city.now pairs.now city.now.zones (length pairs.now) (V.visits each.old) (V.visits each.new) sums.new) }
    ensures within { OnOk result (AreWithin city.now.net sums.new) }
    ensures err { OnErr result (StopsEarly city.now pairs.now (V.visits each.old) (V.visits each.new)) }
    ensures visitor_cause { OnErr result (Rose (V.count each.old) (V.count each.new)) }
    ensures count { V.count each.old ≤ V.count each.new }
{
    let mut place = 0;
    for zone in 0..city.zones() {
        place = visit_zone(city, pairs, zone, place, room, sums, each)?;
    }
    Ok(())
}

// Shows and adds a zone, whose pairs begin at a place, where it has demand. It gives their end.
fn visit_zone<V: Visitor>(
    city: &CityNet,
    pairs: &[Pair],
    zone: u32,
    place: usize,
    room: &mut Room,
    sums: &mut Sums,
    each: &mut V,
) -> Result<usize, Failed>
    requires zone { zone < city.now.zones }
    requires pairs { ArePairs city.now.zones pairs.now }
    requires reach { AllPairsReach city.now pairs.now }
    requires room { IsRoom city.now.net room.old }
    requires ready { AreReady city.now pairs.now zone place sums.old }
    ensures room { IsRoom city.now.net room.new }
    ensures ready { IfOk result (λ end. AreReady city.now pairs.now (zone + 1) end sums.new) }
    ensures done { OnOk result (IsZoneDone city.now pairs.now zone (V.visits each.old) (V.visits each.new) sums.old sums.new) }
    ensures wanted { OnErr result (IsTrue (list_any (leads_to zone) pairs.now)) }
    ensures untold { OnErr result (V.visits each.new ≡ V.visits each.old) }
    ensures visitor_cause { OnErr result (Rose (V.count each.old) (V.count each.new)) }
    ensures count { V.count each.old ≤ V.count each.new }
{
    let end = end_of(pairs, zone, place);
    if place == end {
        return Ok(end);
    }
    add_zone(city, pairs, zone, place, end, room, sums);
    each.visit(
        city.net(),
        city.goal(zone),
        &room.demand,
        &room.labels,
        &room.loads,
    )?;
    Ok(end)
}

// Finds what there is to show of a zone with demand, whose pairs begin at `from` and end at `to`,
// and adds it.
fn add_zone(
    city: &CityNet,
    pairs: &[Pair],
    zone: u32,
    from: usize,
    to: usize,
    room: &mut Room,
    sums: &mut Sums,
)
    requires zone { zone < city.now.zones }
    requires pairs { ArePairs city.now.zones pairs.now }
    requires reach { AllPairsReach city.now pairs.now }
    requires span { IsSpanOf pairs.now zone from to }
    requires room { IsRoom city.now.net room.old }
    requires ready { AreReady city.now pairs.now zone from sums.old }
    ensures room { IsRoom city.now.net room.new }
    ensures filled { IsFilled city.now.net (goal_of city.now zone) room.new }
    ensures visit { IsVisitOf city.now pairs.now zone (visit_in (goal_of city.now zone) room.new) }
    ensures added { AddsVisit city.now.net sums.old (visit_in (goal_of city.now zone) room.new) sums.new }
    ensures ready { AreReady city.now pairs.now (zone + 1) to sums.new }
{
    city.rules();
    let units = fill_for(city, pairs, zone, from, to, room);
    // No more zones are done than there are nodes.
    let _nodes = city.net().nodes();
    add(city.net(), city.goal(zone), units, room, sums);
}

/// Assigns a demand to the network of a city: for each zone with demand, in order, it finds the
/// labels of its goal, loads the demand to there, and shows `each` what it found.
///
/// All room is taken before the first visit, and whether every pair reaches is known before it.
/// Nothing is kept of a destination but the sums. `docs/FORMATS.md` has the totals.
///
/// # Refusals
///
/// - `Unreachable`: the origin of a pair does not reach its destination. It names the first such
///   pair, and nothing was shown.
/// - `VisitorFailed`: `each` failed, and counted it. Some first visits were shown.
/// - `NoMemory`: there was no room. Nothing was shown.
pub fn assign<V: Visitor>(
    alloc: Global,
    city: &CityNet,
    demand: &Demand,
    each: &mut V,
) -> Result<Totals, AssignFault>
    requires zones { All (IsPairAmong city.now.zones) demand.now.pairs }

    // What was assigned, and shown.
    ensures assigned { IfOk result (IsShownAssignment city.now demand.now.pairs (V.visits each.old) (V.visits each.new)) }
    ensures units { IfOk result (λ totals. totals.units ≡ demand.now.units) }
    ensures volume_per_arc { IfOk result (λ totals. length totals.volumes ≡ length city.now.net.arcs) }
    ensures count { V.count each.old ≤ V.count each.new }

    // When each refusal comes.
    ensures all_reach { OnOk result (AllPairsReach city.now demand.now.pairs) }
    ensures unreachable { (origin destination : ℕ) → result ≡ Err (fault.Unreachable origin destination)
        → IsFirstUnreached city.now demand.now.pairs origin destination }
    ensures visitor_failed { result ≡ Err fault.VisitorFailed
        → Rose (V.count each.old) (V.count each.new) × AllPairsReach city.now demand.now.pairs
        × StopsEarly city.now demand.now.pairs (V.visits each.old) (V.visits each.new) }
    ensures unvisited { IfErr result (λ found. found ≢ fault.VisitorFailed → each.new ≡ each.old) }

    // Each destination has a plan with which all demand arrives, no plans are cheaper than the
    // bound, and the cost is near it.
    ensures conserved { IfOk result (HasPlans city.now demand.now.pairs) }
    ensures no_plan_is_cheaper { IfOk result (λ totals. NoPlansAreCheaper city.now demand.now.pairs totals.bound) }
    ensures bound_within_cost { IfOk result (λ totals. totals.bound ≤ totals.cost) }
    ensures gap_within_boardings { IfOk result (λ totals. (assignment : IsAssignment city.now demand.now.pairs totals)
        → IsWithinBoardings city.now.net totals assignment.visits) }
    ensures gap_within_slack { IfOk result (λ totals. totals.cost ≤ totals.bound + totals.slack) }

    // What comes in at a node, other than one where passengers begin or end, goes out of it.
    ensures in_and_out { IfOk result (λ totals. AreConserved city.now totals.volumes) }
{
    city.rules();
    let net = city.net();
    let pairs = demand.pairs();
    // The units are within their limit.
    let _units = demand.units();
    let mut ways = Ways::new(alloc, net)?;
    let mut room = Room::new(alloc, net)?;
    let mut sums = Sums::new(alloc, net)?;
    if let Some(pair) = first_unreached(city, pairs, &mut ways) {
        return Err(AssignFault::Unreachable {
            origin: pair.origin,
            destination: pair.destination,
        });
    }
    match visit_all(city, pairs, &mut room, &mut sums, each) {
        Ok(()) => Ok(sums.totals()),
        Err(Failed) => Err(AssignFault::VisitorFailed),
    }
}
