//! `check`: the verdict of a certificate.

ghost use Rattle.std.specs.Prelude.{◌≤◌, Some, IfOk, IfErr};
ghost use Rattle.desk.specs.declared.command.Command.TheVariants.{Check};
ghost use Rattle.desk.specs.Accepted.{CertificatesAreAccepted};
ghost use Rattle.desk.specs.Ends.{EndsCommand, EndsPrinting, Unchecked};
ghost use Rattle.desk.specs.When.{IsChecked};

use crate::feeding::feed_all;
use crate::status::Cause;
use crate::verdict_lines::verdict_lines;
use certificate::{Checker, Refused, Verdict};
use desk_io::{Begin, Folder, Sink, write_all};
use std::alloc::Global;

/// Prints the verdict of the certificate at the path, and tells how that ended.
pub fn check<D: Folder, O: Sink>(alloc: Global, path: &str, folder: &mut D, out: &mut O) -> Cause
    ensures ends { EndsCommand
        (record { files = D.files folder.old; old_count = D.count folder.old; new_count = D.count folder.new })
        (record { old_count = O.count out.old; new_count = O.count out.new; old = O.written out.old; new = O.written out.new })
        (Some (Check path.now)) result }
{
    match verdict_of_file(alloc, path, folder) {
        Ok(verdict) => print_verdict(alloc, &verdict, out),
        Err(cause) => cause,
    }
}

/// A law: what `assign` prints as the certificate of a zone is accepted by `check`, where it is no
/// longer than a file may be, with the cost and the bound of that zone.
pub fn certificates_are_accepted()
    ensures accepted { CertificatesAreAccepted }
{}

// The verdict of the certificate in the file at the path, or why there is none.
fn verdict_of_file<D: Folder>(alloc: Global, path: &str, folder: &mut D) -> Result<Verdict, Cause>
    ensures checked { IfOk result (IsChecked (D.files folder.old) (Some (Check path.now))) }
    ensures gap { IfOk result (λ verdict. verdict.bound ≤ verdict.cost) }
    ensures unchecked { IfErr result (Unchecked
        (record { files = D.files folder.old; old_count = D.count folder.old; new_count = D.count folder.new }) path.now) }
{
    match folder.begin(path) {
        Begin::Found => {}
        Begin::Missing => return Err(Cause::no_file(alloc, path)),
        Begin::Failed => return Err(Cause::ReadFault),
    }
    let mut checker = Checker::new(alloc);
    feed_all(folder, &mut checker)?;
    match checker.finish() {
        Ok(verdict) => Ok(verdict),
        Err(Refused::NoMemory) => Err(Cause::NoMemory),
        Err(refused) => Err(Cause::Refused(refused)),
    }
}

// Prints a verdict, and tells how that ended.
fn print_verdict<O: Sink>(alloc: Global, verdict: &Verdict, out: &mut O) -> Cause
    requires gap { verdict.now.bound ≤ verdict.now.cost }
    ensures ends { EndsPrinting verdict.now
        (record { old_count = O.count out.old; new_count = O.count out.new; old = O.written out.old; new = O.written out.new }) result }
{
    let Ok(lines) = verdict_lines(alloc, verdict) else {
        return Cause::NoMemory;
    };
    match write_all(out, lines.as_bytes()) {
        Ok(()) => Cause::Done,
        Err(fault) => Cause::WriteFault { sent: fault.sent },
    }
}
