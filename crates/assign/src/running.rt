//! The assignment of a prepared job, and what is printed of it.

ghost use Rattle.std.specs.Prelude.{◌≡◌, ◌≢◌, ◌≤◌, ◌⊎◌, ℕ, All, Err, IfErr, IfOk, IsSome, OnOk, length};
ghost use Rattle.definitions.specs.Causes.{Rose};
ghost use Rattle.demand.specs.Laws.{IsPairAmong};
ghost use Rattle.assign.specs.JobSteps.{IsPrintable, IsUnassigned, IsUnprinted, data_of};
ghost use Rattle.assign.specs.Printed.{AppendsFrontOf, AppendsPart, AppendsSome, AreTotalsOfCity, BeginsPrintFrom, IsInOnePiece, IsPrintFrom, PrintsCertificateFrom, PrintsTotalsFrom};
ghost use Rattle.assign.specs.declared.job_fault.JobFault.TheVariants as fault;
ghost use Rattle.assign.specs.declared.print.Print.TheVariants as print;

use crate::assigning::assign;
use crate::fault::AssignFault;
use crate::job_fault::JobFault;
use crate::preparing::Prepared;
use crate::print::Print;
use crate::printing::print_totals;
use crate::unshown::Unshown;
use demand::Demand;
use desk_io::Sink;
use gtfs_rows::Name;
use line_report::loads_follow;
use loading::Totals;
use network::CityNet;
use std::alloc::{AllocError, Global};

/// Assigns what was prepared of a job, and writes what is asked for.
pub(crate) fn print_prepared<S: Sink>(
    alloc: Global,
    prepared: &Prepared,
    what: Print,
    out: &mut S,
) -> Result<(), JobFault>
    requires printable { IsPrintable prepared.now }
    requires zone { what ≡ print.Certificate → IsSome prepared.now.zone }
    ensures ok { OnOk result (AppendsSome (IsPrintFrom (data_of prepared.now) prepared.now.zone what)
        (S.written out.old) (S.written out.new)) }
    ensures totals { OnOk result
        (PrintsTotalsFrom (data_of prepared.now) prepared.now.zone what
        prepared.now.tables.demand.units (S.written out.old) (S.written out.new)) }
    ensures certified { what ≡ print.Certificate → OnOk result
        (PrintsCertificateFrom (data_of prepared.now) prepared.now.zone
        (S.written out.old) (S.written out.new)) }
    ensures sent { (sent : ℕ) → result ≡ Err (fault.WriteFault sent)
        → AppendsPart (BeginsPrintFrom (data_of prepared.now) prepared.now.zone what) sent
        (S.written out.old) (S.written out.new) }
    ensures no_memory { result ≡ Err fault.NoMemory → (out.new ≡ out.old) ⊎ AppendsFrontOf
        (BeginsPrintFrom (data_of prepared.now) prepared.now.zone what)
        (S.written out.old) (S.written out.new) }
    ensures in_one_piece { result ≡ Err fault.NoMemory → IsInOnePiece what → out.new ≡ out.old }
    ensures nothing { IfErr result (λ found. ((sent : ℕ) → found ≢ fault.WriteFault sent)
        → found ≢ fault.NoMemory → out.new ≡ out.old) }
    ensures refused { IfErr result (IsUnprinted prepared.now) }
    ensures write_cause { (sent : ℕ) → result ≡ Err (fault.WriteFault sent)
        → Rose (S.count out.old) (S.count out.new) }
    ensures count { S.count out.old ≤ S.count out.new }
    ensures rest { S.keeps_sink_rest out.old out.new }
{
    let tables = &prepared.tables;
    let totals = totals_of(alloc, &prepared.city, &tables.demand, tables.zones.names())?;
    // The loads along each line follow from its boardings and alightings.
    loads_follow(&prepared.city, &prepared.feed, &prepared.lines);
    print_totals(alloc, prepared, &totals, what, out)?;
    Ok(())
}

/// Assigns a demand to a city whose zones have these names, and gives the totals.
pub(crate) fn totals_of(
    alloc: Global,
    city: &CityNet,
    demand: &Demand,
    names: &[Name],
) -> Result<Totals, JobFault>
    requires pairs { All (IsPairAmong city.now.zones) demand.now.pairs }
    requires names { city.now.zones ≡ length names.now }
    ensures totals { IfOk result (AreTotalsOfCity city.now demand.now.pairs) }
    ensures units { IfOk result (λ totals. totals.units ≡ demand.now.units) }
    ensures volume_per_arc { IfOk result
        (λ totals. length totals.volumes ≡ length city.now.net.arcs) }
    ensures refused { IfErr result (IsUnassigned city.now demand.now.pairs names.now) }
{
    // Their units are those of the demand.
    let _pairs = demand.pairs();
    match assign(alloc, city, demand, &mut Unshown) {
        Ok(totals) => Ok(totals),
        Err(
            AssignFault::Unreachable {
                origin,
                destination,
            },
        ) => Err(unreachable_pair(alloc, &names[origin as usize], &names[destination as usize])),
        // It never fails.
        Err(AssignFault::VisitorFailed) => unreachable!(),
        Err(AssignFault::NoMemory) => Err(JobFault::NoMemory),
    }
}

// The fault of a pair of zones of these names.
fn unreachable_pair(alloc: Global, origin: &Name, destination: &Name) -> JobFault
    ensures value { result ≢ fault.NoMemory → result ≡ fault.Unreachable origin.now destination.now }
{
    match named_pair(alloc, origin, destination) {
        Ok(fault) => fault,
        Err(_) => JobFault::NoMemory,
    }
}

// The fault of a pair of zones, with copies of their names.
fn named_pair(alloc: Global, origin: &Name, destination: &Name) -> Result<JobFault, AllocError>
    ensures value { IfOk result (λ found. found ≡ fault.Unreachable origin.now destination.now) }
{
    Ok(JobFault::Unreachable {
        origin: copy_of(alloc, origin)?,
        destination: copy_of(alloc, destination)?,
    })
}

// A copy of a name.
fn copy_of(alloc: Global, name: &Name) -> Result<Name, AllocError>
    ensures value { IfOk result (λ copy. copy ≡ name.now) }
{
    Ok(Name::new(String::from_str(alloc, name.as_str())?))
}
