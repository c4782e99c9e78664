//! What is printed of the totals of a prepared job.

ghost use Rattle.std.specs.Prelude.{◌≡◌, ◌≤◌, ◌⊎◌, ℕ, Err, IsSome, OnOk, length};
ghost use Rattle.definitions.specs.Causes.{Rose};
ghost use Rattle.line_report.specs.declared.fault.ReportFault.TheVariants as fault;
ghost use Rattle.assign.specs.JobSteps.{BeginsTotals, IsPrintable, IsWholeOf, data_of};
ghost use Rattle.assign.specs.Prints.{IsCertificateAsked, skimmed_zones};
ghost use Rattle.assign.specs.Reached.{AllPairsReach};
ghost use Rattle.assign.specs.SkimSteps.{BeginsSkims};
ghost use Rattle.assign.specs.SkimTables.{IsSkimTable};
ghost use Rattle.assign.specs.Printed.{AppendsFrontOf, AppendsPart, AppendsSome, AreTotalsOfCity, IsInOnePiece, PrintsCertificateFrom};
ghost use Rattle.assign.specs.declared.print.Print.TheVariants as print;

use crate::certifying::certificate_to;
use crate::documents::print_all;
use crate::preparing::Prepared;
use crate::print::Print;
use crate::skim_table::skim_table;
use desk_io::Sink;
use line_report::{ReportFault, lines, segments, stops, summary};
use loading::Totals;
use std::alloc::Global;

/// Writes what is asked for of the totals of a prepared job.
///
/// # Refusals
///
/// - `WriteFault` where the sink failed: the bytes sent are the first of what is printed.
/// - `NoMemory`: nothing was written, or some first bytes of what is printed.
pub(crate) fn print_totals<S: Sink>(
    alloc: Global,
    prepared: &Prepared,
    totals: &Totals,
    what: Print,
    out: &mut S,
) -> Result<(), ReportFault>
    requires printable { IsPrintable prepared.now }
    requires zone { what ≡ print.Certificate → IsSome prepared.now.zone }
    requires totals { AreTotalsOfCity prepared.now.city prepared.now.tables.demand.pairs totals.now }
    requires volumes { length totals.now.volumes ≡ length prepared.now.city.net.arcs }
    ensures ok { OnOk result (AppendsSome (IsWholeOf (data_of prepared.now) prepared.now.zone totals.now what)
        (S.written out.old) (S.written out.new)) }
    ensures certified { what ≡ print.Certificate → OnOk result
        (PrintsCertificateFrom (data_of prepared.now) prepared.now.zone
        (S.written out.old) (S.written out.new)) }
    ensures sent { (sent : ℕ) → result ≡ Err (fault.WriteFault sent)
        → AppendsPart (BeginsTotals (data_of prepared.now) prepared.now.zone totals.now what) sent
        (S.written out.old) (S.written out.new) }
    ensures write_cause { (sent : ℕ) → result ≡ Err (fault.WriteFault sent)
        → Rose (S.count out.old) (S.count out.new) }
    ensures no_memory { result ≡ Err fault.NoMemory → (out.new ≡ out.old) ⊎ AppendsFrontOf
        (BeginsTotals (data_of prepared.now) prepared.now.zone totals.now what)
        (S.written out.old) (S.written out.new) }
    ensures in_one_piece { result ≡ Err fault.NoMemory → IsInOnePiece what → out.new ≡ out.old }
    ensures count { S.count out.old ≤ S.count out.new }
    ensures rest { S.keeps_sink_rest out.old out.new }
{
    let Prepared {
        feed: of_feed,
        lines: of_lines,
        city,
        counts,
        ..
    } = prepared;
    match what {
        Print::Summary => summary(alloc, out, city, totals, counts),
        Print::Lines => lines(alloc, out, city, of_feed, of_lines, totals),
        Print::Stops => stops(alloc, out, city, of_feed, of_lines, totals),
        Print::Segments => segments(alloc, out, city, of_feed, of_lines, totals),
        Print::Skims => print_skims(alloc, prepared, out),
        Print::Certificate => print_certificate(alloc, prepared, out),
        Print::All => print_all(alloc, out, prepared, totals),
    }
}

// Writes the skims to the zone that is asked for, or to all zones.
fn print_skims<S: Sink>(alloc: Global, prepared: &Prepared, out: &mut S) -> Result<(), ReportFault>
    requires printable { IsPrintable prepared.now }
    ensures ok { OnOk result (AppendsSome (IsSkimTable prepared.now.city prepared.now.tables.zones.names
        (skimmed_zones (data_of prepared.now) prepared.now.zone)) (S.written out.old) (S.written out.new)) }
    ensures sent { (sent : ℕ) → result ≡ Err (fault.WriteFault sent)
        → AppendsPart (BeginsSkims prepared.now.city prepared.now.tables.zones.names
        (skimmed_zones (data_of prepared.now) prepared.now.zone)) sent (S.written out.old) (S.written out.new) }
    ensures write_cause { (sent : ℕ) → result ≡ Err (fault.WriteFault sent)
        → Rose (S.count out.old) (S.count out.new) }
    ensures no_memory { result ≡ Err fault.NoMemory → (out.new ≡ out.old) ⊎ AppendsFrontOf
        (BeginsSkims prepared.now.city prepared.now.tables.zones.names
        (skimmed_zones (data_of prepared.now) prepared.now.zone)) (S.written out.old) (S.written out.new) }
    ensures count { S.count out.old ≤ S.count out.new }
    ensures rest { S.keeps_sink_rest out.old out.new }
{
    let city = &prepared.city;
    let names = prepared.tables.zones.names();
    match prepared.zone {
        None => skim_table(alloc, out, city, names, 0, city.zones()),
        Some(zone) => skim_table(alloc, out, city, names, zone, 1),
    }
}

// Writes the certificate of the zone that is asked for.
fn print_certificate<S: Sink>(
    alloc: Global,
    prepared: &Prepared,
    out: &mut S,
) -> Result<(), ReportFault>
    requires printable { IsPrintable prepared.now }
    requires zone { IsSome prepared.now.zone }
    requires reach { AllPairsReach prepared.now.city prepared.now.tables.demand.pairs }
    ensures ok { OnOk result (AppendsSome (IsCertificateAsked (data_of prepared.now) prepared.now.zone)
        (S.written out.old) (S.written out.new)) }
    ensures certified { OnOk result (PrintsCertificateFrom (data_of prepared.now) prepared.now.zone
        (S.written out.old) (S.written out.new)) }
    ensures sent { (sent : ℕ) → result ≡ Err (fault.WriteFault sent)
        → AppendsPart (IsCertificateAsked (data_of prepared.now) prepared.now.zone) sent
        (S.written out.old) (S.written out.new) }
    ensures write_cause { (sent : ℕ) → result ≡ Err (fault.WriteFault sent)
        → Rose (S.count out.old) (S.count out.new) }
    ensures nothing { result ≡ Err fault.NoMemory → out.new ≡ out.old }
    ensures count { S.count out.old ≤ S.count out.new }
    ensures rest { S.keeps_sink_rest out.old out.new }
{
    match prepared.zone {
        Some(zone) => certificate_to(alloc, out, &prepared.city, &prepared.tables.demand, zone),
        // A certificate is that of a zone.
        None => unreachable!(),
    }
}
