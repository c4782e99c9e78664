//! The claim and the problem of a draft that is whole.

ghost use Rattle.std.specs.Prelude.{◌≡◌, IfOk, IfErr};
ghost use Rattle.certificate.specs.Spelling.{spelling};
ghost use Rattle.certificate.specs.Valid.{HasGoodLines};
ghost use Rattle.certificate.specs.Draft.{certificate_of, text_so_far};
ghost use Rattle.certificate.specs.NetworkRefusals.{problem_of, IsProblem};
ghost use Rattle.certificate.specs.ProblemDraft.{problem_so_far, IsProblemWhole};

use crate::claim::Claim;
use crate::draft::Draft;
use crate::problem::{Problem, Units};
use crate::refused::Refused;
use crate::rows::Rows;
use crate::stage::Stage;
use lp_model::{NetFault, Network};

impl Draft {
    /// The claim of a draft whose last line is read. Only memory may be wanting.
    pub fn into_claim(self) -> Result<Claim, Refused>
        requires done { self.stage ≡ Stage.Done }
        ensures certificate { IfOk result (λ claim. claim ≡ certificate_of self) }
        ensures text { text_so_far self ≡ spelling (certificate_of self) }
        ensures lines { IfOk result HasGoodLines }
        ensures err { IfErr result (λ refused. refused ≡ Refused.NoMemory) }
    {
        let Draft {
            alloc: _,
            stage: _,
            nodes,
            arc_count: _,
            k,
            destination,
            units,
            rows,
        } = self;
        let Rows {
            arcs,
            demand,
            labels,
            volumes,
            waits,
        } = rows;
        let network = match Network::new(nodes, arcs, k) {
            Ok(network) => network,
            Err(fault) => return Err(memory_refusal(fault)),
        };
        Ok(Claim {
            network,
            destination,
            units,
            demand,
            labels,
            volumes,
            waits,
        })
    }

    /// The problem of a draft whose last demand is read. Only memory may be wanting.
    pub fn into_problem(self) -> Result<Problem, Refused>
        requires whole { IsProblemWhole self }
        ensures problem { IfOk result (λ problem. problem_of problem ≡ problem_so_far self) }
        ensures rules { IfOk result (λ problem. IsProblem (problem_of problem)) }
        ensures err { IfErr result (λ refused. refused ≡ Refused.NoMemory) }
    {
        let Draft {
            alloc: _,
            stage: _,
            nodes,
            arc_count: _,
            k,
            destination,
            units: _,
            rows,
        } = self;
        let Rows {
            arcs,
            demand,
            labels: _,
            volumes: _,
            waits: _,
        } = rows;
        let net = match Network::new(nodes, arcs, k) {
            Ok(net) => net,
            Err(fault) => return Err(memory_refusal(fault)),
        };
        Ok(Problem {
            net,
            dest: destination,
            demand: Units::new(demand),
        })
    }
}

// The refusal of a network whose lines are good.
fn memory_refusal(fault: NetFault) -> Refused
    requires memory { fault ≡ NetFault.NoMemory }
    ensures value { result ≡ Refused.NoMemory }
{
    match fault {
        NetFault::NoMemory => Refused::NoMemory,
        _ => unreachable!("each line was judged as a network judges it"),
    }
}
