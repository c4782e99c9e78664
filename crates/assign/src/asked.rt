//! The zone that a job asks for.

ghost use Rattle.std.specs.Prelude.{◌≡◌, ◌⊎◌, ◌<◌, ℕ, [], IfErr, IfOk, IsSome, OnOk, Some, length};
ghost use Rattle.feed_reader.specs.Ids.{number_of};
ghost use Rattle.demand.specs.declared.fault.DemandFault.TheVariants as demand_fault;
ghost use Rattle.assign.specs.JobFaults.{IsFirstFault, faults_of_zone, faults_of_zone_word, zone_word};
ghost use Rattle.assign.specs.JobViews.{job_of};
ghost use Rattle.assign.specs.Jobs.{zone_in, zones_in};
ghost use Rattle.assign.specs.declared.job_fault.JobFault.TheVariants as fault;

use crate::job_fault::JobFault;
use crate::job_parts::Job;
use demand::{DemandFault, Zones};
use feed_reader::Feed;
use gtfs_rows::Place;
use std::alloc::Global;

/// The number of the zone that a job asks for among its zones, where it asks for one.
pub(crate) fn zone_asked(
    alloc: Global,
    job: &Job,
    feed: &Feed,
    zones: &Zones,
) -> Result<Option<u32>, JobFault>
    requires zones { zones.now ≡ zones_in (job_of job.now) feed.now }
    ensures zone { IfOk result (λ zone. zone ≡ zone_in (job_of job.now) feed.now) }
    ensures there { IfOk result
        (λ zone. (number : ℕ) → zone ≡ Some number → number < length zones.now.names) }
    ensures asked { IfOk result (λ zone. IsSome (job_of job.now).to_zone → IsSome zone) }
    ensures faultless { OnOk result (faults_of_zone (job_of job.now) feed.now ≡ []) }
    ensures refused { IfErr result (IsFirstFault (faults_of_zone (job_of job.now) feed.now)) }
{
    match job.to_zone {
        None => Ok(None),
        Some(id) => {
            let zone = zone_named(alloc, zones, id)?;
            Ok(Some(zone))
        }
    }
}

// The number of the zone with an id.
fn zone_named(alloc: Global, zones: &Zones, id: &str) -> Result<u32, JobFault>
    ensures zone { IfOk result (λ zone. number_of zones.now.names id.now ≡ Some zone) }
    ensures there { IfOk result (λ zone. zone < length zones.now.names) }
    ensures faultless { OnOk result (faults_of_zone_word zones.now.names id.now ≡ []) }
    ensures refused { IfErr result (IsFirstFault (faults_of_zone_word zones.now.names id.now)) }
{
    match zones.number(id) {
        Some(zone) => Ok(zone),
        None => Err(unknown_zone(alloc, id)),
    }
}

// The fault of the id of no zone, where there is memory for it.
fn unknown_zone(alloc: Global, id: &str) -> JobFault
    ensures value { (result ≡ fault.NoMemory)
        ⊎ (result ≡ fault.Demand (demand_fault.UnknownZone (zone_word id.now))) }
{
    match Place::new(alloc, "words", 0, "to-zone", id.as_bytes()) {
        Ok(place) => JobFault::Demand(DemandFault::UnknownZone(place)),
        Err(_) => JobFault::NoMemory,
    }
}
