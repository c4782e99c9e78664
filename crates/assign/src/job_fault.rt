//! Why a job is refused.

ghost use Rattle.std.specs.Prelude.{◌≡◌};
ghost use Rattle.assign.specs.PartFaults.{from_feed, from_lines, from_network, from_report, from_scenario, from_table, limit_of_line, limit_of_network, limit_of_table};
ghost use Rattle.assign.specs.declared.job_fault.JobFault.TheVariants as fault;

use demand::DemandFault;
use feed_reader::FeedFault;
use gtfs_rows::Name;
use headways::LineFault;
use line_report::ReportFault;
use network::BuildFault;
use scenarios::ScenarioFault;
use std::alloc::AllocError;

/// A limit of the parts of a job. docs/FORMATS.md has their values.
#[derive(Clone, Copy, Debug, Drop, PartialEq, Eq)]
pub enum Limit {
    Zones,
    Units,
    /// Thousandths of departures of a line.
    Weight,
    /// Ticks of a ride, a dwell or an arc.
    Cost,
    Nodes,
    Arcs,
    /// Bytes of the reports of a job in memory.
    Document,
}

/// The first fault of a job. Where a table, a line or the network passes a limit it is `Range`, and
/// want of memory is `NoMemory`, whichever part wants it.
#[derive(Drop)]
pub enum JobFault {
    /// The feed is refused.
    Feed(FeedFault),
    /// The zones, the walks or the demand are refused.
    Demand(DemandFault),
    /// The scenario is refused.
    Scenario(ScenarioFault),
    /// No way leads from a zone with demand to its destination. With the names of both.
    Unreachable { origin: Name, destination: Name },
    /// `count` is above the limit.
    Range { limit: Limit, count: u128 },
    /// The sink failed after so many bytes.
    WriteFault { sent: usize },
    NoMemory,
}

impl From<AllocError> for JobFault {
    ghost from_gives = { λ _ found. found ≡ fault.NoMemory };

    fn from(_error: AllocError) -> JobFault {
        JobFault::NoMemory
    }
}

impl From<FeedFault> for JobFault {
    ghost from_gives = { λ from found. found ≡ from_feed from };

    fn from(found: FeedFault) -> JobFault {
        match found {
            FeedFault::NoMemory => JobFault::NoMemory,
            other => JobFault::Feed(other),
        }
    }
}

impl From<DemandFault> for JobFault {
    ghost from_gives = { λ from found. found ≡ from_table from };

    fn from(found: DemandFault) -> JobFault {
        match found {
            DemandFault::NoMemory => JobFault::NoMemory,
            DemandFault::Range { limit, count } => JobFault::Range {
                limit: limit_of_table(limit),
                count,
            },
            other => JobFault::Demand(other),
        }
    }
}

impl From<ScenarioFault> for JobFault {
    ghost from_gives = { λ from found. found ≡ from_scenario from };

    fn from(found: ScenarioFault) -> JobFault {
        match found {
            ScenarioFault::NoMemory => JobFault::NoMemory,
            other => JobFault::Scenario(other),
        }
    }
}

impl From<LineFault> for JobFault {
    ghost from_gives = { λ from found. found ≡ from_lines from };

    fn from(found: LineFault) -> JobFault {
        match found {
            LineFault::NoMemory => JobFault::NoMemory,
            LineFault::Range { limit, count } => JobFault::Range {
                limit: limit_of_line(limit),
                count,
            },
        }
    }
}

impl From<BuildFault> for JobFault {
    ghost from_gives = { λ from found. found ≡ from_network from };

    fn from(found: BuildFault) -> JobFault {
        match found {
            BuildFault::NoMemory => JobFault::NoMemory,
            BuildFault::Range { limit, count } => JobFault::Range {
                limit: limit_of_network(limit),
                count,
            },
        }
    }
}

impl From<ReportFault> for JobFault {
    ghost from_gives = { λ from found. found ≡ from_report from };

    fn from(found: ReportFault) -> JobFault {
        match found {
            ReportFault::NoMemory => JobFault::NoMemory,
            ReportFault::WriteFault { sent } => JobFault::WriteFault { sent },
        }
    }
}

// A limit of a table as one of its job.
fn limit_of_table(limit: demand::Limit) -> Limit
    ensures value { result ≡ limit_of_table limit }
{
    match limit {
        demand::Limit::Zones => Limit::Zones,
        demand::Limit::Units => Limit::Units,
    }
}

// A limit of a line as one of its job.
fn limit_of_line(limit: headways::Limit) -> Limit
    ensures value { result ≡ limit_of_line limit }
{
    match limit {
        headways::Limit::Weight => Limit::Weight,
        headways::Limit::Cost => Limit::Cost,
    }
}

// A limit of a network as one of its job.
fn limit_of_network(limit: network::Limit) -> Limit
    ensures value { result ≡ limit_of_network limit }
{
    match limit {
        network::Limit::Weight => Limit::Weight,
        network::Limit::Nodes => Limit::Nodes,
        network::Limit::Arcs => Limit::Arcs,
        network::Limit::Cost => Limit::Cost,
    }
}
