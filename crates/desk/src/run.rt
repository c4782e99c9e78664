//! All that the program does, over a folder and two streams.

ghost use Rattle.std.specs.Prelude.{◌≡◌, ◌≢◌, ◌⊎◌, ℕ, List, None, Some, IfSome, IsSome};
ghost use Rattle.definitions.specs.Causes.{Rose};
ghost use Rattle.service_period.specs.declared.bad_period.BadPeriod.TheVariants as bad;
ghost use Rattle.feed_reader.specs.declared.fault.FeedFault.{FeedFault};
ghost use Rattle.demand.specs.declared.fault.DemandFault.{DemandFault};
ghost use Rattle.scenarios.specs.declared.fault.ScenarioFault.{ScenarioFault};
ghost use Rattle.assign.specs.declared.job_fault.JobFault.TheVariants as fault;
ghost use Rattle.assign.specs.declared.print.Print.TheVariants as print;
ghost use Rattle.assign.specs.Printed.{PrintsTotals};
ghost use Rattle.certificate.specs.declared.refused.Refused.{Refused as RefusedText};
ghost use Rattle.certificate.specs.Valid.{IsValid};
ghost use Rattle.desk.specs.declared.command.AssignWords.{AssignWords as TheWords};
ghost use Rattle.desk.specs.declared.command.Command.TheVariants.{Assign, Solve, Gen};
ghost use Rattle.desk.specs.declared.gen_words.GenWords.{GenWords};
ghost use Rattle.desk.specs.Assigned.{PrintsAssignment, PrintsZoneCertificate};
ghost use Rattle.desk.specs.Command.{ValuesAgree, command_of};
ghost use Rattle.desk.specs.Ends.{EndsCommand};
ghost use Rattle.desk.specs.FaultText.{fault_text};
ghost use Rattle.desk.specs.GeneratedJobs.{generated_job};
ghost use Rattle.desk.specs.Outcome.{AppendsFront, Completes, DidNotRise, IsOutcome, IsOutcomeAnswered, LiesOutside, PrintedFront, PrintedInPart, PrintedWhole, WritesNothing};
ghost use Rattle.desk.specs.Printing.{Prints};
ghost use Rattle.desk.specs.Solved.{IsWithinSlack, PrintsCertificate};
ghost use Rattle.desk.specs.Status.{code_of};
ghost use Rattle.desk.specs.When.{HasBadPeriod, HasJobFault, IsRefused, IsUnreached, LacksFile, PassesLimit};

use crate::assigning::assign;
use crate::checking::check;
use crate::command::Command;
use crate::fault_text::write_fault_text;
use crate::generated_city::assign_generated;
use crate::known_words::{Unknown, command_of};
use crate::solving::solve;
use crate::status::{Cause, Limit, Status, Unreached, UsageFault};
use desk_io::{Folder, Name, Sink};
use std::alloc::Global;

/// Carries out the command of the words, and tells how it ended.
///
/// `words` exclude the program's own name. `assign FOLDER ..` assigns a demand to the network of the
/// feed in that folder (Spiess and Florian 1989, in whole numbers), after the changes of a scenario,
/// and prints the summary, a table or the certificate of a zone, as its words ask. `gen SEED ..`
/// prints the summary of a generated city. `check FILE` prints the verdict of the certificate in
/// that file of the folder. `solve FILE` prints a certificate of the network text in that file, with
/// the labels (ticks), volumes (units) and waits (ticks times units). The output goes to `out`.
/// Where the code is not 0, the fault text goes to `err`, and whether that succeeds changes nothing.
///
/// # Causes
///
/// The first that applies, in this order.
/// - `Usage`: the words are no command; then the text of the date is none; then those of the window.
/// - `Range`, `Usage` and `ReadFault`, file by file as the command reads them: a file is longer than
///   a file may be, those of the feed so far are longer than all of them may be, a named file is not
///   there, or the folder failed.
/// - `Refused`: for `check` the text is no valid certificate, for `solve` no network text.
/// - For `assign`: `Feed`; then `Demand` of the zones, of the walks and of the demand; then
///   `Scenario`; then `Demand` of the zone that is asked for; and `Range`, where a table, the lines
///   or the network passes a limit, the lines after that zone and the network after them. For `gen`
///   the same of its files.
/// - `Unreachable`: the demand of a pair of zones, or for `solve` of a node, does not reach.
/// - `WriteFault`: `out` failed. Else it is `Done`.
///
/// `NoMemory` may come in place of any. The tables of `assign` are written page by page, so it may
/// come behind their first bytes.
pub fn run<D: Folder, O: Sink, E: Sink>(
    alloc: Global,
    words: &[Name],
    folder: &mut D,
    out: &mut O,
    err: &mut E,
) -> Status
    ensures code { result.code ≡ code_of result.cause }

    // The output of the command was printed whole: for `assign` what its words ask for of the job of
    // the files, for `check` the verdict of the file, for `solve` the certificate of the file's
    // problem, for `gen` the summary of the job of the generated files.
    ensures done { result.cause ≡ Cause.Done
        → PrintedWhole (D.files folder.old) (command_of words.now) (O.written out.old) (O.written out.new) }

    // What `assign` printed has the totals of the job's one assignment, and so has what `gen` printed.
    // Every unit of demand between two zones is sent to its destination and arrives, conserved at each
    // node; no plans are cheaper than the bound; the cost is that of the volumes and waits of all
    // destinations, which add up to those printed, and it is within the slack of the bound; and along
    // each line the loads follow from boardings and alightings.
    ensures assigned { (values : TheWords) → command_of words.now ≡ Some (Assign values) → result.cause ≡ Cause.Done
        → PrintsAssignment (D.files folder.old) values (O.written out.old) (O.written out.new) }
    ensures generated { (values : GenWords) → command_of words.now ≡ Some (Gen values) → result.cause ≡ Cause.Done
        → PrintsTotals (generated_job values) (O.written out.old) (O.written out.new) }

    // The certificate that `assign` printed is valid, with the cost and the bound of its zone.
    ensures certified { (values : TheWords) → command_of words.now ≡ Some (Assign values) → values.print ≡ print.Certificate → result.cause ≡ Cause.Done
        → PrintsZoneCertificate (D.files folder.old) values (O.written out.old) (O.written out.new) }

    // The certificate that `solve` printed is valid, and its cost is within its slack of its bound.
    ensures solved { (path : List ℕ) → command_of words.now ≡ Some (Solve path) → result.cause ≡ Cause.Done
        → PrintsCertificate (D.files folder.old) (command_of words.now) IsValid (O.written out.old) (O.written out.new) }
    ensures gap { (path : List ℕ) → command_of words.now ≡ Some (Solve path) → result.cause ≡ Cause.Done
        → PrintsCertificate (D.files folder.old) (command_of words.now) IsWithinSlack (O.written out.old) (O.written out.new) }

    // When each other cause comes.
    ensures words { result.cause ≡ Cause.Usage UsageFault.Words → command_of words.now ≡ None }
    ensures known { result.cause ≢ Cause.Usage UsageFault.Words → result.cause ≢ Cause.NoMemory → IsSome (command_of words.now) }
    ensures date { result.cause ≡ Cause.Usage UsageFault.Date → HasBadPeriod (command_of words.now) bad.Date }
    ensures window { result.cause ≡ Cause.Usage UsageFault.Window → HasBadPeriod (command_of words.now) bad.Window }
    ensures no_file { (path : List ℕ) → result.cause ≡ Cause.Usage (UsageFault.NoFile path)
        → LacksFile (D.files folder.old) (command_of words.now) path }
    ensures feed { (found : FeedFault) → result.cause ≡ Cause.Feed found
        → HasJobFault (D.files folder.old) (command_of words.now) (fault.Feed found) }
    ensures demand { (found : DemandFault) → result.cause ≡ Cause.Demand found
        → HasJobFault (D.files folder.old) (command_of words.now) (fault.Demand found) }
    ensures scenario { (found : ScenarioFault) → result.cause ≡ Cause.Scenario found
        → HasJobFault (D.files folder.old) (command_of words.now) (fault.Scenario found) }
    ensures unreachable { (unreached : Unreached) → result.cause ≡ Cause.Unreachable unreached
        → IsUnreached (D.files folder.old) (command_of words.now) unreached }
    ensures range { (limit : Limit) (count : ℕ) → result.cause ≡ Cause.Range limit count
        → PassesLimit (D.files folder.old) (command_of words.now) limit count }
    ensures refused { (found : RefusedText) → result.cause ≡ Cause.Refused found
        → IsRefused (D.files folder.old) (command_of words.now) found }
    ensures read_cause { result.cause ≡ Cause.ReadFault → Rose (D.count folder.old) (D.count folder.new) }
    ensures write_cause { (sent : ℕ) → result.cause ≡ Cause.WriteFault sent → Rose (O.count out.old) (O.count out.new) }

    // Over a folder that tells its files, all this in one relation: just this cause and this output come of them.
    ensures outcome { IfSome (D.files folder.old) (λ files. LiesOutside result.cause
        ⊎ IsOutcomeAnswered files (command_of words.now) result.cause (O.written out.old) (O.written out.new)) }

    // And where no count rose but that of `err`, just the one outcome that there is, or want of memory.
    ensures complete { DidNotRise (D.count folder.old) (D.count folder.new) → DidNotRise (O.count out.old) (O.count out.new)
        → IfSome (D.files folder.old) (λ files. Completes files (command_of words.now) result.cause (O.written out.old) (O.written out.new)) }

    // What is appended: first bytes of the output where `out` failed, also where a table wants memory,
    // and after the other causes nothing. Whichever cause, it is never more than that.
    ensures sent { (sent : ℕ) → result.cause ≡ Cause.WriteFault sent
        → PrintedInPart (D.files folder.old) (command_of words.now) (O.written out.old) (O.written out.new) sent }
    ensures no_memory { result.cause ≡ Cause.NoMemory → (O.written out.new ≡ O.written out.old)
        ⊎ PrintedFront (D.files folder.old) (command_of words.now) (O.written out.old) (O.written out.new) }
    ensures nothing { WritesNothing (command_of words.now) result.cause → O.written out.new ≡ O.written out.old }
    ensures front { IfSome (D.files folder.old) (λ files. (output : List ℕ) → IsOutcome files (command_of words.now) Cause.Done output
        → AppendsFront output (O.written out.old) (O.written out.new)) }
    ensures fault_text { Prints (E.count err.old) (E.count err.new) (E.written err.old) (E.written err.new) (fault_text result.cause) }
{
    let cause = carry_out(alloc, words, folder, out);
    // The cause stands, whether or not it can be told.
    let _ = write_fault_text(err, &cause);
    Status::of(cause)
}

// Carries out the command of the words, without its fault text.
fn carry_out<D: Folder, O: Sink>(
    alloc: Global,
    words: &[Name],
    folder: &mut D,
    out: &mut O,
) -> Cause
    ensures known { result ≢ Cause.Usage UsageFault.Words → result ≢ Cause.NoMemory → IsSome (command_of words.now) }
    ensures ends { EndsCommand
        (record { files = D.files folder.old; old_count = D.count folder.old; new_count = D.count folder.new })
        (record { old_count = O.count out.old; new_count = O.count out.new; old = O.written out.old; new = O.written out.new })
        (command_of words.now) result }
    ensures assigned { (values : TheWords) → command_of words.now ≡ Some (Assign values) → result ≡ Cause.Done
        → PrintsAssignment (D.files folder.old) values (O.written out.old) (O.written out.new) }
    ensures generated { (values : GenWords) → command_of words.now ≡ Some (Gen values) → result ≡ Cause.Done
        → PrintsTotals (generated_job values) (O.written out.old) (O.written out.new) }
    ensures certified { (values : TheWords) → command_of words.now ≡ Some (Assign values) → values.print ≡ print.Certificate → result ≡ Cause.Done
        → PrintsZoneCertificate (D.files folder.old) values (O.written out.old) (O.written out.new) }
    ensures solved { (path : List ℕ) → command_of words.now ≡ Some (Solve path) → result ≡ Cause.Done
        → PrintsCertificate (D.files folder.old) (command_of words.now) IsValid (O.written out.old) (O.written out.new) }
{
    match command_of(alloc, words) {
        Ok(command) => carry_out_command(alloc, &command, folder, out),
        Err(Unknown::Words) => Cause::Usage(UsageFault::Words),
        Err(Unknown::NoMemory) => Cause::NoMemory,
    }
}

// Carries out a command.
fn carry_out_command<D: Folder, O: Sink>(
    alloc: Global,
    command: &Command,
    folder: &mut D,
    out: &mut O,
) -> Cause
    requires agree { ValuesAgree command.now }
    ensures ends { EndsCommand
        (record { files = D.files folder.old; old_count = D.count folder.old; new_count = D.count folder.new })
        (record { old_count = O.count out.old; new_count = O.count out.new; old = O.written out.old; new = O.written out.new })
        (Some command.now) result }
    ensures assigned { (values : TheWords) → command.now ≡ Assign values → result ≡ Cause.Done
        → PrintsAssignment (D.files folder.old) values (O.written out.old) (O.written out.new) }
    ensures generated { (values : GenWords) → command.now ≡ Gen values → result ≡ Cause.Done
        → PrintsTotals (generated_job values) (O.written out.old) (O.written out.new) }
    ensures certified { (values : TheWords) → command.now ≡ Assign values → values.print ≡ print.Certificate → result ≡ Cause.Done
        → PrintsZoneCertificate (D.files folder.old) values (O.written out.old) (O.written out.new) }
    ensures solved { (path : List ℕ) → command.now ≡ Solve path → result ≡ Cause.Done
        → PrintsCertificate (D.files folder.old) (Some command.now) IsValid (O.written out.old) (O.written out.new) }
{
    match command {
        Command::Assign(words) => assign(alloc, words, folder, out),
        Command::Check(path) => check(alloc, path.as_str(), folder, out),
        Command::Solve(path) => solve(alloc, path.as_str(), folder, out),
        Command::Gen(words) => assign_generated(alloc, words, out),
    }
}
