//! A fault of a job as the cause of its run.

ghost use Rattle.std.specs.Prelude.{◌≡◌};
ghost use Rattle.desk.specs.JobCauses.{cause_of, limit_of};

use crate::status::{Cause, Limit, Unreached};
use assign::JobFault;

impl From<JobFault> for Cause {
    ghost from_gives = { λ fault cause. cause ≡ cause_of fault };

    fn from(fault: JobFault) -> Cause {
        match fault {
            JobFault::Feed(found) => Cause::Feed(found),
            JobFault::Demand(found) => Cause::Demand(found),
            JobFault::Scenario(found) => Cause::Scenario(found),
            JobFault::Unreachable {
                origin,
                destination,
            } => Cause::Unreachable(Unreached::Pair(origin, destination)),
            JobFault::Range { limit, count } => Cause::Range(limit_of(limit), count),
            JobFault::WriteFault { sent } => Cause::WriteFault { sent },
            JobFault::NoMemory => Cause::NoMemory,
        }
    }
}

// A limit of a job as one of its run.
fn limit_of(limit: assign::Limit) -> Limit
    ensures value { result ≡ limit_of limit }
{
    match limit {
        assign::Limit::Zones => Limit::Zones,
        assign::Limit::Units => Limit::Units,
        assign::Limit::Weight => Limit::Weight,
        assign::Limit::Cost => Limit::Cost,
        assign::Limit::Nodes => Limit::Nodes,
        assign::Limit::Arcs => Limit::Arcs,
        assign::Limit::Document => Limit::Document,
    }
}
