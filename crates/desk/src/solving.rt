//! `solve`: the certificate of the problem of a network text.

ghost use Rattle.std.specs.Prelude.{◌≡◌, List, ℕ, Some, IfOk, IfErr};
ghost use Rattle.certificate.specs.NetworkRefusals.{IsProblem, problem_of};
ghost use Rattle.certificate.specs.Valid.{IsValid};
ghost use Rattle.desk.specs.declared.command.Command.TheVariants.{Solve};
ghost use Rattle.desk.specs.Ends.{EndsCommand, EndsSolving, Unposed};
ghost use Rattle.desk.specs.Solved.{IsPosed, IsSolution, PrintsCertificate, certificate_with};

use crate::inputs::read_file;
use crate::status::{Cause, Unreached};
use certificate::{Problem, Refused, read_network, write_certificate};
use desk_io::{Folder, Sink};
use label_setting::{Workspace, labels};
use loading::{Loads, load};
use std::alloc::Global;

/// Prints the certificate of the network text at the path, and tells how that ended.
pub fn solve<D: Folder, O: Sink>(alloc: Global, path: &str, folder: &mut D, out: &mut O) -> Cause
    ensures ends { EndsCommand
        (record { files = D.files folder.old; old_count = D.count folder.old; new_count = D.count folder.new })
        (record { old_count = O.count out.old; new_count = O.count out.new; old = O.written out.old; new = O.written out.new })
        (Some (Solve path.now)) result }
    ensures valid { result ≡ Cause.Done
        → PrintsCertificate (D.files folder.old) (Some (Solve path.now)) IsValid (O.written out.old) (O.written out.new) }
{
    match problem_of_file(alloc, path, folder) {
        Ok(problem) => solve_problem(alloc, &problem, out),
        Err(cause) => cause,
    }
}

// The problem of the network text in the file at the path, or why there is none.
fn problem_of_file<D: Folder>(alloc: Global, path: &str, folder: &mut D) -> Result<Problem, Cause>
    ensures posed { IfOk result (λ problem. IsPosed (D.files folder.old) (Some (Solve path.now)) (problem_of problem)) }
    ensures unposed { IfErr result (Unposed
        (record { files = D.files folder.old; old_count = D.count folder.old; new_count = D.count folder.new }) path.now) }
{
    let bytes = read_file(alloc, path, folder)?;
    match read_network(alloc, bytes.as_slice()) {
        Ok(problem) => Ok(problem),
        Err(Refused::NoMemory) => Err(Cause::NoMemory),
        Err(refused) => Err(Cause::Refused(refused)),
    }
}

// Finds the labels, volumes and waits of a problem and prints its certificate, and tells how that ended.
fn solve_problem<O: Sink>(alloc: Global, problem: &Problem, out: &mut O) -> Cause
    requires rules { IsProblem (problem_of problem.now) }
    ensures ends { EndsSolving (problem_of problem.now)
        (record { old_count = O.count out.old; new_count = O.count out.new; old = O.written out.old; new = O.written out.new }) result }
{
    let Ok(mut workspace) = Workspace::new(alloc, &problem.net) else {
        return Cause::NoMemory;
    };
    labels(&problem.net, problem.dest, &mut workspace);
    let Ok(mut loads) = Loads::new(alloc, &problem.net) else {
        return Cause::NoMemory;
    };
    let demand = problem.demand.as_slice();
    match load(&problem.net, problem.dest, &workspace, demand, &mut loads) {
        Ok(()) => print_certificate(
            problem,
            workspace.labels(),
            loads.volumes(),
            loads.waits(),
            out,
        ),
        Err(fault) => Cause::Unreachable(Unreached::Node(fault.node)),
    }
}

// Prints the certificate of a problem, and tells how that ended.
fn print_certificate<O: Sink>(
    problem: &Problem,
    labels: &[u64],
    volumes: &[u64],
    waits: &[u128],
    out: &mut O,
) -> Cause
    requires solution { IsSolution (problem_of problem.now) labels.now volumes.now waits.now }
    requires valid { IsValid (certificate_with (problem_of problem.now) labels.now volumes.now waits.now) }
    ensures ends { EndsSolving (problem_of problem.now)
        (record { old_count = O.count out.old; new_count = O.count out.new; old = O.written out.old; new = O.written out.new }) result }
{
    let demand = problem.demand.as_slice();
    match write_certificate(
        out,
        &problem.net,
        problem.dest,
        demand,
        labels,
        volumes,
        waits,
    ) {
        Ok(()) => Cause::Done,
        Err(fault) => Cause::WriteFault { sent: fault.sent },
    }
}
