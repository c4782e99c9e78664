//! The certificate of one zone.

ghost use Rattle.std.specs.Prelude.{◌≡◌, ◌<◌, ◌≤◌, ℕ, All, Err, IfErr, IfOk, OnErr, OnOk, length, take};
ghost use Rattle.definitions.specs.Causes.{Rose};
ghost use Rattle.certificate.specs.Spelling.{spelling};
ghost use Rattle.certificate.specs.Valid.{IsValid};
ghost use Rattle.demand.specs.Laws.{IsPairAmong};
ghost use Rattle.desk_io.specs.Told.{Appends};
ghost use Rattle.line_report.specs.declared.fault.ReportFault.TheVariants as fault;
ghost use Rattle.assign.specs.Conditions.{ArePairs};
ghost use Rattle.assign.specs.Printed.{AppendsPart, AppendsSome};
ghost use Rattle.assign.specs.Prints.{IsCertificateTo, IsValidFor, certificate_in};
ghost use Rattle.assign.specs.Reached.{AllPairsReach};
ghost use Rattle.assign.specs.Rooms.{IsFilled, visit_in};
ghost use Rattle.assign.specs.Visits.{IsVisitOf, goal_of};

use crate::room::{Room, fill_for};
use crate::spans::{begin_of, end_of};
use certificate::write_certificate;
use demand::{Demand, Pair};
use desk_io::{Sink, WriteFault};
use line_report::ReportFault;
use network::CityNet;
use std::alloc::{AllocError, Global};

/// Writes the certificate of a zone: of its goal, with all demand to there, whether there is any or
/// not. All pairs reach.
///
/// # Refusals
///
/// - `WriteFault` where the sink failed: the bytes sent are the first of the certificate.
/// - `NoMemory`: nothing was written.
pub(crate) fn certificate_to<S: Sink>(
    alloc: Global,
    out: &mut S,
    city: &CityNet,
    demand: &Demand,
    zone: u32,
) -> Result<(), ReportFault>
    requires pairs { All (IsPairAmong city.now.zones) demand.now.pairs }
    requires reach { AllPairsReach city.now demand.now.pairs }
    requires zone { zone < city.now.zones }
    ensures ok { OnOk result (AppendsSome (IsCertificateTo city.now demand.now.pairs zone)
        (S.written out.old) (S.written out.new)) }
    ensures valid { OnOk result (AppendsSome (IsValidFor city.now demand.now.pairs zone)
        (S.written out.old) (S.written out.new)) }
    ensures sent { (sent : ℕ) → result ≡ Err (fault.WriteFault sent)
        → AppendsPart (IsCertificateTo city.now demand.now.pairs zone) sent
        (S.written out.old) (S.written out.new) }
    ensures write_cause { (sent : ℕ) → result ≡ Err (fault.WriteFault sent)
        → Rose (S.count out.old) (S.count out.new) }
    ensures nothing { result ≡ Err fault.NoMemory → out.new ≡ out.old }
    ensures count { S.count out.old ≤ S.count out.new }
    ensures rest { S.keeps_sink_rest out.old out.new }
{
    let pairs = demand.pairs();
    // The units are within their limit.
    let _units = demand.units();
    let room = filled_for(alloc, city, pairs, zone)?;
    write_room(out, city, zone, &room)?;
    Ok(())
}

// Room that is filled for a zone.
fn filled_for(alloc: Global, city: &CityNet, pairs: &[Pair], zone: u32) -> Result<Room, AllocError>
    requires pairs { ArePairs city.now.zones pairs.now }
    requires reach { AllPairsReach city.now pairs.now }
    requires zone { zone < city.now.zones }
    ensures filled { IfOk result (λ room. IsFilled city.now.net (goal_of city.now zone) room) }
    ensures visit { IfOk result (λ room. IsVisitOf city.now pairs.now zone
        (visit_in (goal_of city.now zone) room)) }
{
    city.rules();
    let mut room = Room::new(alloc, city.net())?;
    let from = begin_of(pairs, zone);
    let to = end_of(pairs, zone, from);
    fill_for(city, pairs, zone, from, to, &mut room);
    Ok(room)
}

// Writes the certificate of what the room holds of a zone.
fn write_room<S: Sink>(
    out: &mut S,
    city: &CityNet,
    zone: u32,
    room: &Room,
) -> Result<(), WriteFault>
    requires zone { zone < city.now.zones }
    requires filled { IsFilled city.now.net (goal_of city.now zone) room.now }
    ensures valid { IsValid (certificate_in city.now (visit_in (goal_of city.now zone) room.now)) }
    ensures ok { OnOk result (Appends (S.written out.old) (S.written out.new)
        (spelling (certificate_in city.now (visit_in (goal_of city.now zone) room.now)))) }
    ensures err { IfErr result (λ found. Appends (S.written out.old) (S.written out.new)
        (take found.sent (spelling (certificate_in city.now (visit_in (goal_of city.now zone) room.now))))) }
    ensures sent { IfErr result (λ found. found.sent
        < length (spelling (certificate_in city.now (visit_in (goal_of city.now zone) room.now)))) }
    ensures write_cause { OnErr result (Rose (S.count out.old) (S.count out.new)) }
    ensures count { S.count out.old ≤ S.count out.new }
    ensures rest { S.keeps_sink_rest out.old out.new }
{
    let net = city.net();
    net.rules();
    write_certificate(
        out,
        net,
        city.goal(zone),
        &room.demand,
        room.labels.labels(),
        room.loads.volumes(),
        room.loads.waits(),
    )
}
