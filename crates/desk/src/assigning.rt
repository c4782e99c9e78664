//! `assign`: what is printed of the assignment of a demand to the network of a feed.

ghost use Rattle.std.specs.Prelude.{◌≡◌, Some, true};
ghost use Rattle.std.specs.Option.{option_copied};
ghost use Rattle.service_period.specs.Periods.{IsPeriodOf};
ghost use Rattle.assign.specs.declared.print.Print.TheVariants as printed;
ghost use Rattle.assign.specs.Printed.{PrintsCertificate, PrintsTotals};
ghost use Rattle.desk.specs.declared.command.Command.TheVariants.{Assign};
ghost use Rattle.desk.specs.Assigned.{PrintsAssignment, PrintsZoneCertificate, job_with};
ghost use Rattle.desk.specs.Command.{agrees};
ghost use Rattle.desk.specs.Ends.{EndsCommand, EndsJob};
ghost use Rattle.desk.specs.JobCauses.{usage_of};

use crate::command::AssignWords;
use crate::inputs::{Inputs, read_inputs};
use crate::status::{Cause, UsageFault};
use assign::{Job, Print, job};
use desk_io::{Folder, Name, Sink};
use gtfs_rows::Blob;
use service_period::{BadPeriod, Period};
use std::alloc::Global;

/// Prints what the words ask for of the job of the files that they name, and tells how that ended.
pub fn assign<D: Folder, O: Sink>(
    alloc: Global,
    words: &AssignWords,
    folder: &mut D,
    out: &mut O,
) -> Cause
    requires agree { agrees words.now.print words.now.to_zone ≡ true }
    ensures ends { EndsCommand
        (record { files = D.files folder.old; old_count = D.count folder.old; new_count = D.count folder.new })
        (record { old_count = O.count out.old; new_count = O.count out.new; old = O.written out.old; new = O.written out.new })
        (Some (Assign words.now)) result }
    ensures totals { result ≡ Cause.Done
        → PrintsAssignment (D.files folder.old) words.now (O.written out.old) (O.written out.new) }
    ensures certified { words.now.print ≡ printed.Certificate → result ≡ Cause.Done
        → PrintsZoneCertificate (D.files folder.old) words.now (O.written out.old) (O.written out.new) }
{
    match Period::new(words.date.as_str(), words.from.as_str(), words.to.as_str()) {
        Ok(period) => assign_in(alloc, words, period, folder, out),
        Err(bad) => Cause::Usage(usage_of(bad)),
    }
}

/// Why texts are no period, as what is wrong with the words.
pub fn usage_of(bad: BadPeriod) -> UsageFault
    ensures value { result ≡ usage_of bad }
{
    match bad {
        BadPeriod::Date => UsageFault::Date,
        BadPeriod::Window => UsageFault::Window,
    }
}

// Prints what the words ask for of the job of the files that they name in their period.
fn assign_in<D: Folder, O: Sink>(
    alloc: Global,
    words: &AssignWords,
    period: Period,
    folder: &mut D,
    out: &mut O,
) -> Cause
    requires agree { agrees words.now.print words.now.to_zone ≡ true }
    requires period { IsPeriodOf words.now.date words.now.from words.now.to period }
    ensures ends { EndsCommand
        (record { files = D.files folder.old; old_count = D.count folder.old; new_count = D.count folder.new })
        (record { old_count = O.count out.old; new_count = O.count out.new; old = O.written out.old; new = O.written out.new })
        (Some (Assign words.now)) result }
    ensures totals { result ≡ Cause.Done
        → PrintsAssignment (D.files folder.old) words.now (O.written out.old) (O.written out.new) }
    ensures certified { words.now.print ≡ printed.Certificate → result ≡ Cause.Done
        → PrintsZoneCertificate (D.files folder.old) words.now (O.written out.old) (O.written out.new) }
{
    match read_inputs(alloc, words, folder) {
        Ok(inputs) => print_job(alloc, &inputs, period, words.print, &words.to_zone, out),
        Err(cause) => cause,
    }
}

/// Prints what is asked for of the job of inputs in a period, with the id of a zone where one is
/// asked for, and tells how that ended.
pub fn print_job<O: Sink>(
    alloc: Global,
    inputs: &Inputs,
    period: Period,
    print: Print,
    to_zone: &Option<Name>,
    out: &mut O,
) -> Cause
    requires agree { agrees print to_zone.now ≡ true }
    ensures ends { EndsJob (job_with inputs.now period print to_zone.now)
        (record { old_count = O.count out.old; new_count = O.count out.new; old = O.written out.old; new = O.written out.new }) result }
    ensures totals { result ≡ Cause.Done
        → PrintsTotals (job_with inputs.now period print to_zone.now) (O.written out.old) (O.written out.new) }
    ensures certified { print ≡ printed.Certificate → result ≡ Cause.Done
        → PrintsCertificate (job_with inputs.now period print to_zone.now) (O.written out.old) (O.written out.new) }
{
    let parts = Job {
        files: &inputs.files,
        zones: inputs.zones.as_slice(),
        walks: bytes_of(&inputs.walks),
        demand: inputs.demand.as_slice(),
        scenario: bytes_of(&inputs.scenario),
        period,
        print,
        to_zone: text_of(to_zone),
    };
    match job(alloc, &parts, out) {
        Ok(()) => Cause::Done,
        Err(fault) => Cause::from(fault),
    }
}

// The bytes of a file that need not be there.
fn bytes_of(body: &Option<Blob>) -> Option<&[u8]>
    ensures value { option_copied result ≡ body.now }
{
    match body {
        None => None,
        Some(body) => Some(body.as_slice()),
    }
}

// The text of a name that need not be there.
fn text_of(name: &Option<Name>) -> Option<&str>
    ensures value { option_copied result ≡ name.now }
{
    match name {
        None => None,
        Some(name) => Some(name.as_str()),
    }
}
