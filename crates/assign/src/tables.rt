//! The tables of a job, read.

ghost use Rattle.std.specs.Prelude.{◌≡◌, ◌≤◌, [], All, IfErr, IfOk, OnOk, length};
ghost use Rattle.demand.specs.Laws.{IsLinkAmong, IsPairAmong, IsWalkAmong};
ghost use Rattle.demand.specs.declared.limits.TheConstants.{ZONE_LIMIT};
ghost use Rattle.scenarios.specs.Feeds.{IsOfFeed};
ghost use Rattle.assign.specs.JobFaults.{IsFirstFault, faults_of_demand, faults_of_scenario, faults_of_tables, faults_of_walks, faults_of_zones};
ghost use Rattle.assign.specs.JobSteps.{AreTablesOf};
ghost use Rattle.assign.specs.JobViews.{job_of};
ghost use Rattle.assign.specs.Jobs.{demand_in, scenario_of_job, walks_in, zones_in};

use crate::job_fault::JobFault;
use crate::job_parts::Job;
use demand::{Demand, Walks, Zones};
use feed_reader::Feed;
use scenarios::Scenario;
use std::alloc::Global;

/// The zones, the walks, the demand and the scenario of a job.
#[derive(Drop)]
pub(crate) struct Tables {
    pub zones: Zones,
    pub walks: Walks,
    pub demand: Demand,
    pub scenario: Scenario,
}

/// The tables of a job over its feed, read in their order.
pub(crate) fn read_tables(alloc: Global, job: &Job, feed: &Feed) -> Result<Tables, JobFault>
    ensures tables { IfOk result (AreTablesOf (job_of job.now) feed.now) }
    ensures faultless { OnOk result (faults_of_tables (job_of job.now) feed.now ≡ []) }
    ensures refused { IfErr result (IsFirstFault (faults_of_tables (job_of job.now) feed.now)) }
{
    let zones = read_zones(alloc, job, feed)?;
    let walks = read_walks(alloc, job, feed)?;
    let demand = read_demand(alloc, job, feed, &zones)?;
    let scenario = read_scenario(alloc, job, feed)?;
    Ok(Tables {
        zones,
        walks,
        demand,
        scenario,
    })
}

// The zones.
fn read_zones(alloc: Global, job: &Job, feed: &Feed) -> Result<Zones, JobFault>
    ensures zones { IfOk result (λ zones. zones ≡ zones_in (job_of job.now) feed.now) }
    ensures few { IfOk result (λ zones. length zones.names ≤ ZONE_LIMIT) }
    ensures links { IfOk result
        (λ zones. All (IsLinkAmong (length zones.names) (length feed.now.stops)) zones.links) }
    ensures faultless { OnOk result (faults_of_zones (job_of job.now) feed.now ≡ []) }
    ensures refused { IfErr result (IsFirstFault (faults_of_zones (job_of job.now) feed.now)) }
{
    let zones = Zones::read(alloc, job.zones, feed)?;
    Ok(zones)
}

// The walks, none where there is no table.
fn read_walks(alloc: Global, job: &Job, feed: &Feed) -> Result<Walks, JobFault>
    ensures walks { IfOk result (λ walks. walks ≡ walks_in (job_of job.now) feed.now) }
    ensures among { IfOk result (λ walks. All (IsWalkAmong (length feed.now.stops)) walks) }
    ensures faultless { OnOk result (faults_of_walks (job_of job.now) feed.now ≡ []) }
    ensures refused { IfErr result (IsFirstFault (faults_of_walks (job_of job.now) feed.now)) }
{
    match job.walks {
        None => Ok(Walks::none(alloc)),
        Some(bytes) => {
            let walks = Walks::read(alloc, bytes, feed)?;
            Ok(walks)
        }
    }
}

// The demand between the zones.
fn read_demand(alloc: Global, job: &Job, feed: &Feed, zones: &Zones) -> Result<Demand, JobFault>
    requires zones { zones.now ≡ zones_in (job_of job.now) feed.now }
    ensures demand { IfOk result (λ demand. demand ≡ demand_in (job_of job.now) feed.now) }
    ensures pairs { IfOk result
        (λ demand. All (IsPairAmong (length zones.now.names)) demand.pairs) }
    ensures faultless { OnOk result (faults_of_demand (job_of job.now) feed.now ≡ []) }
    ensures refused { IfErr result (IsFirstFault (faults_of_demand (job_of job.now) feed.now)) }
{
    let demand = Demand::read(alloc, job.demand, zones)?;
    Ok(demand)
}

// The scenario, the plain one where there is no table.
fn read_scenario(alloc: Global, job: &Job, feed: &Feed) -> Result<Scenario, JobFault>
    ensures scenario { IfOk result
        (λ scenario. scenario ≡ scenario_of_job (job_of job.now) feed.now) }
    ensures size { IfOk result (IsOfFeed feed.now) }
    ensures faultless { OnOk result (faults_of_scenario (job_of job.now) feed.now ≡ []) }
    ensures refused { IfErr result (IsFirstFault (faults_of_scenario (job_of job.now) feed.now)) }
{
    match job.scenario {
        None => {
            let scenario = Scenario::plain(alloc, feed)?;
            Ok(scenario)
        }
        Some(bytes) => {
            let scenario = Scenario::read(alloc, bytes, feed)?;
            Ok(scenario)
        }
    }
}
