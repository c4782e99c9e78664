//! A job up to the network of its city.

ghost use Rattle.std.specs.Prelude.{◌≡◌, [], All, IfErr, IfOk, OnOk, map};
ghost use Rattle.feed_reader.specs.Feed.{IsFeedOf, feed_faults};
ghost use Rattle.headways.specs.Laws.{IsLineOf};
ghost use Rattle.headways.specs.Lines.{count_of, lines_of};
ghost use Rattle.assign.specs.JobFaults.{IsFirstFault, faults_behind, faults_of_lines, faults_of_network};
ghost use Rattle.assign.specs.PartFaults.{from_feed};
ghost use Rattle.assign.specs.JobSteps.{AreTablesOf, IsPreparedOf, IsPreparedOver, IsRefusedEarly};
ghost use Rattle.assign.specs.Jobs.{city_in, counts_in};
ghost use Rattle.assign.specs.JobViews.{job_of};
ghost use Rattle.network.specs.Standing.{IsCityOf};

use crate::asked::zone_asked;
use crate::job_fault::JobFault;
use crate::job_parts::Job;
use crate::tables::{Tables, read_tables};
use feed_reader::Feed;
use headways::{Lines, lines};
use line_report::Counts;
use lp_model::k_of;
use network::{CityNet, build};
use scenarios::{Layer, TimeFare};
use std::alloc::Global;

/// The feed, the lines, the tables and the city of a job, what was counted on the way, and the zone
/// that the job asks for.
#[derive(Drop)]
pub(crate) struct Prepared {
    pub feed: Feed,
    pub lines: Lines,
    pub tables: Tables,
    pub city: CityNet,
    pub counts: Counts,
    pub zone: Option<u32>,
}

/// Reads a job and builds its city.
pub(crate) fn prepare(alloc: Global, job: &Job) -> Result<Prepared, JobFault>
    ensures prepared { IfOk result (IsPreparedOf (job_of job.now)) }
    ensures refused { IfErr result (IsRefusedEarly (job_of job.now)) }
{
    let feed = read_feed(alloc, job)?;
    let prepared = prepare_over(alloc, job, feed)?;
    Ok(prepared)
}

// The feed.
fn read_feed(alloc: Global, job: &Job) -> Result<Feed, JobFault>
    ensures feed { IfOk result (IsFeedOf (job_of job.now).files) }
    ensures faultless { OnOk result (feed_faults (job_of job.now).files ≡ []) }
    ensures refused { IfErr result (IsFirstFault (map from_feed (feed_faults (job_of job.now).files))) }
{
    let feed = Feed::read(alloc, job.files)?;
    Ok(feed)
}

// Reads the tables over the feed of a job and finds the zone that it asks for, and builds its city.
fn prepare_over(alloc: Global, job: &Job, feed: Feed) -> Result<Prepared, JobFault>
    ensures prepared { IfOk result (IsPreparedOver (job_of job.now) feed) }
    ensures faultless { OnOk result (faults_behind (job_of job.now) feed ≡ []) }
    ensures refused { IfErr result (IsFirstFault (faults_behind (job_of job.now) feed)) }
{
    let tables = read_tables(alloc, job, &feed)?;
    let zone = zone_asked(alloc, job, &feed, &tables.zones)?;
    let lines = read_lines(alloc, job, &feed)?;
    let city = build_city(alloc, job, &feed, &lines, &tables)?;
    let counts = counts_of(job, &feed, &lines, &tables);
    Ok(Prepared {
        feed,
        lines,
        tables,
        city,
        counts,
        zone,
    })
}

// The lines in the period.
fn read_lines(alloc: Global, job: &Job, feed: &Feed) -> Result<Lines, JobFault>
    ensures lines { IfOk result (λ found. found.lines ≡ lines_of feed.now (job_of job.now).period) }
    ensures counted { IfOk result (λ found. found.trips ≡ count_of feed.now (job_of job.now).period) }
    ensures laws { IfOk result (λ found. All (IsLineOf feed.now) found.lines) }
    ensures faultless { OnOk result (faults_of_lines (job_of job.now) feed.now ≡ []) }
    ensures refused { IfErr result (IsFirstFault (faults_of_lines (job_of job.now) feed.now)) }
{
    let found = lines(alloc, feed, &job.period)?;
    Ok(found)
}

// The city of the lines and the tables, in the scenario.
fn build_city(
    alloc: Global,
    job: &Job,
    feed: &Feed,
    lines: &Lines,
    tables: &Tables,
) -> Result<CityNet, JobFault>
    requires lines { lines.now.lines ≡ lines_of feed.now (job_of job.now).period }
    requires laws { All (IsLineOf feed.now) lines.now.lines }
    requires tables { AreTablesOf (job_of job.now) feed.now tables.now }
    ensures city { IfOk result (λ city. city ≡ city_in (job_of job.now) feed.now) }
    ensures stands { IfOk result (λ city. IsCityOf city feed.now lines.now.lines) }
    ensures faultless { OnOk result (faults_of_network (job_of job.now) feed.now ≡ []) }
    ensures refused { IfErr result (IsFirstFault (faults_of_network (job_of job.now) feed.now)) }
{
    let scenario = &tables.scenario;
    let fare = TimeFare::new(scenario, |route: u32, layer: Layer| {
        scenario.ticks(route, layer)
    });
    let k = k_of(job.period.seconds(), scenario.wait());
    let city = build(
        alloc,
        feed,
        lines,
        &tables.zones,
        &tables.walks,
        scenario,
        &fare,
        k,
    )?;
    Ok(city)
}

// What was counted and set aside.
fn counts_of(job: &Job, feed: &Feed, lines: &Lines, tables: &Tables) -> Counts
    requires lines { lines.now.trips ≡ count_of feed.now (job_of job.now).period }
    requires tables { AreTablesOf (job_of job.now) feed.now tables.now }
    ensures counts { result ≡ counts_in (job_of job.now) feed.now }
{
    let aside = feed.aside();
    let demand = &tables.demand;
    Counts {
        zones: tables.zones.names().len() as u64,
        counted: lines.counted(),
        trips_aside: aside.trips,
        transfers_aside: aside.transfers,
        pairs: demand.pairs().len() as u64,
        inside: demand.inside(),
        dropped: demand.dropped(),
    }
}
