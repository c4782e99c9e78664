//! All reports of a job in memory.

ghost use Rattle.std.specs.Prelude.{◌≡◌, ◌≢◌, ◌⊎◌, ◌<◌, ◌≤◌, ℕ, [], Err, IfErr, IfOk, Some, length};
ghost use Rattle.assign.specs.JobFaults.{HasCause};
ghost use Rattle.assign.specs.JobSteps.{IsPrintable, data_of};
ghost use Rattle.assign.specs.JobViews.{job_of};
ghost use Rattle.assign.specs.Jobs.{printing_all};
ghost use Rattle.assign.specs.Printed.{IsPrintOf, PrintsTotals};
ghost use Rattle.assign.specs.Prints.{all_text};
ghost use Rattle.assign.specs.Reports.{HasLongReport, too_long};
ghost use Rattle.assign.specs.declared.job_fault.JobFault.TheVariants as fault;
ghost use Rattle.assign.specs.declared.reports.TheConstants.{DOCUMENT_LIMIT};

use crate::documents::{Unfit, all_reports};
use crate::job_fault::{JobFault, Limit};
use crate::job_parts::Job;
use crate::preparing::{Prepared, prepare};
use crate::running::totals_of;
use gtfs_rows::Blob;
use line_report::loads_follow;
use loading::Totals;
use std::alloc::Global;

/// The bytes of a document.
pub const DOCUMENT_LIMIT: usize = 67_108_864;

/// Assigns the demand of a job to the network of its feed, and gives all its reports: the text that
/// `job` writes where `print` is `All`, whatever it is here.
///
/// # Refusals
///
/// Those of `job` but `WriteFault`, in its order, and behind them `Range` of the limit `Document`:
/// the text is longer. `NoMemory` may come in place of any.
pub fn report(alloc: Global, job: &Job) -> Result<Blob, JobFault>
    // What is given.
    ensures ok { IfOk result (λ text. IsPrintOf (printing_all (job_of job.now)) text) }
    ensures totals { IfOk result
        (λ text. PrintsTotals (printing_all (job_of job.now)) (Some []) (Some text)) }
    ensures within { IfOk result (λ text. length text ≤ DOCUMENT_LIMIT) }

    // When each refusal comes.
    ensures too_long { result ≡ Err too_long → HasLongReport (job_of job.now) }
    ensures refused { IfErr result (λ found. found ≢ too_long → HasCause (job_of job.now) found) }
    ensures never_write { (sent : ℕ) → result ≢ Err (fault.WriteFault sent) }
{
    let prepared = prepare(alloc, job)?;
    let tables = &prepared.tables;
    let totals = totals_of(alloc, &prepared.city, &tables.demand, tables.zones.names())?;
    // The loads along each line follow from its boardings and alightings.
    loads_follow(&prepared.city, &prepared.feed, &prepared.lines);
    report_of(alloc, &prepared, &totals)
}

// All reports of what was prepared of a job.
fn report_of(alloc: Global, prepared: &Prepared, totals: &Totals) -> Result<Blob, JobFault>
    requires printable { IsPrintable prepared.now }
    requires volumes { length totals.now.volumes ≡ length prepared.now.city.net.arcs }
    requires gap { totals.now.bound ≤ totals.now.cost }
    ensures value { IfOk result (λ text. text ≡ all_text (data_of prepared.now) totals.now) }
    ensures within { IfOk result (λ text. length text ≤ DOCUMENT_LIMIT) }
    ensures long { result ≡ Err too_long
        → DOCUMENT_LIMIT < length (all_text (data_of prepared.now) totals.now) }
    ensures refused { IfErr result (λ found. (found ≡ too_long) ⊎ (found ≡ fault.NoMemory)) }
{
    match all_reports(alloc, prepared, totals, DOCUMENT_LIMIT) {
        Ok(text) => Ok(Blob::new(text)),
        Err(Unfit::TooLong) => Err(JobFault::Range {
            limit: Limit::Document,
            count: DOCUMENT_LIMIT as u128 + 1,
        }),
        Err(Unfit::NoMemory) => Err(JobFault::NoMemory),
    }
}
