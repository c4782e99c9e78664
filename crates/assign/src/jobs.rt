//! A job: from the files of a feed and the tables of a demand to what is printed of their assignment.

ghost use Rattle.std.specs.Prelude.{◌≡◌, ◌≢◌, ◌⊎◌, ◌≤◌, ℕ, Err, IfErr, IfOk, IsSome, OnOk, length};
ghost use Rattle.definitions.specs.Causes.{Rose};
ghost use Rattle.assign.specs.JobFaults.{HasCause};
ghost use Rattle.assign.specs.JobViews.{job_of};
ghost use Rattle.assign.specs.Printed.{AppendsFrontOf, AppendsPart, AppendsSome, BeginsPrintOf, IsInOnePiece, IsPrintOf, PrintsCertificate, PrintsTotals};
ghost use Rattle.assign.specs.declared.job_fault.JobFault.TheVariants as fault;
ghost use Rattle.assign.specs.declared.print.Print.TheVariants as print;

use crate::job_fault::JobFault;
use crate::job_parts::Job;
use crate::preparing::prepare;
use crate::running::print_prepared;
use desk_io::Sink;
use std::alloc::Global;

/// Assigns the demand of a job to the network of its feed, and writes what the job prints.
///
/// The scenario changes the network, and how long passengers wait. docs/FORMATS.md has the texts.
/// The tables are written page by page, and those of skims zone by zone.
///
/// # Refusals
///
/// The first that applies, in this order. Nothing is written before the reach of all pairs is known.
/// - `Feed`: the feed is refused.
/// - `Demand`: the zones, then the walks, then the demand.
/// - `Scenario`: the scenario.
/// - `Demand`, `UnknownZone`: `to_zone` is the id of no zone.
/// - `Unreachable`: the first pair with demand that does not reach.
/// - `WriteFault`: the sink failed after the first `sent` bytes of what is printed.
///
/// A table, a line or the network may pass a limit: that is `Range`, the lines after `to_zone` and
/// the network after them. `NoMemory` may come in place of any of these: then nothing was written,
/// or some first bytes of what is printed.
pub fn job<S: Sink>(alloc: Global, job: &Job, out: &mut S) -> Result<(), JobFault>
    requires to_zone { job.now.print ≡ print.Certificate → IsSome job.now.to_zone }

    // What is written.
    ensures ok { OnOk result
        (AppendsSome (IsPrintOf (job_of job.now)) (S.written out.old) (S.written out.new)) }
    ensures totals { OnOk result
        (PrintsTotals (job_of job.now) (S.written out.old) (S.written out.new)) }
    ensures certified { job.now.print ≡ print.Certificate → OnOk result
        (PrintsCertificate (job_of job.now) (S.written out.old) (S.written out.new)) }

    // What is written where it is refused.
    ensures sent { (sent : ℕ) → result ≡ Err (fault.WriteFault sent) → AppendsPart
        (BeginsPrintOf (job_of job.now)) sent (S.written out.old) (S.written out.new) }
    ensures no_memory { result ≡ Err fault.NoMemory → (out.new ≡ out.old) ⊎ AppendsFrontOf
        (BeginsPrintOf (job_of job.now)) (S.written out.old) (S.written out.new) }
    ensures in_one_piece { result ≡ Err fault.NoMemory → IsInOnePiece job.now.print
        → out.new ≡ out.old }
    ensures nothing { IfErr result (λ found. ((sent : ℕ) → found ≢ fault.WriteFault sent)
        → found ≢ fault.NoMemory → out.new ≡ out.old) }

    // When each refusal comes.
    ensures refused { IfErr result (HasCause (job_of job.now)) }
    ensures write_cause { (sent : ℕ) → result ≡ Err (fault.WriteFault sent)
        → Rose (S.count out.old) (S.count out.new) }

    // What else stands.
    ensures count { S.count out.old ≤ S.count out.new }
    ensures rest { S.keeps_sink_rest out.old out.new }
{
    let prepared = prepare(alloc, job)?;
    print_prepared(alloc, &prepared, job.print, out)
}

#[cfg(test)]
mod tests;
