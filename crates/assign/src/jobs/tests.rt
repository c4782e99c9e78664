//! Jobs over small cities. What they give was worked out by hand, by docs/FORMATS.md, but for the
//! assignment of the city of usual shape, which other programs gave.

mod city;
mod faults;
mod prints;
mod summaries;
mod usual;

use super::*;
use crate::print::Print;
use demand::DemandFault;
use desk_io::MemorySink;
use feed_reader::{FeedFault, Files};
use gtfs_rows::{Blob, Place};
use scenarios::ScenarioFault;
use service_period::Period;
use std::alloc::AllocError;
use std::str::from_utf8;
use std::test::Fail;

// The texts of the tables of a job, the end of its window, which begins at 7, and what it prints.
#[derive(Clone, Copy, Drop)]
struct Texts<'a> {
    zones: &'a str,
    walks: Option<&'a str>,
    demand: &'a str,
    scenario: Option<&'a str>,
    to: &'a str,
    print: Print,
    to_zone: Option<&'a str>,
}

// The job over these files and tables.
fn job_of<'a>(files: &'a Files, texts: &Texts<'a>) -> Result<Job<'a>, Fail> {
    Ok(Job {
        files,
        zones: texts.zones.as_bytes(),
        walks: texts.walks.map(|text| text.as_bytes()),
        demand: texts.demand.as_bytes(),
        scenario: texts.scenario.map(|text| text.as_bytes()),
        period: Period::new("20250602", "07:00:00", texts.to).map_err(|_| "a period")?,
        print: texts.print,
        to_zone: texts.to_zone,
    })
}

// What a job over these files and tables writes into so much room, and why it does not write all.
fn written(alloc: Global, files: &Files, texts: &Texts, room: usize) -> Result<String, Fail> {
    let job = job_of(files, texts)?;
    if matches!(job.print, Print::Certificate) && job.to_zone.is_none() {
        return Err("a certificate of a zone".into());
    }
    let mut out = MemorySink::new(alloc, room, 7, Vec::new(alloc))?;
    let answer = super::job(alloc, &job, &mut out);
    let mut text = String::from_str(alloc, from_utf8(out.bytes()).unwrap_or("?"))?;
    if let Err(fault) = answer {
        text.push_str(told(alloc, &fault)?.as_str())?;
    }
    Ok(text)
}

// The name of a fault with what it carries.
fn told(alloc: Global, fault: &JobFault) -> Result<String, AllocError> {
    match fault {
        JobFault::Feed(FeedFault::MissingFile(file)) => {
            format!(in alloc; "missing file {}", file.as_str())
        }
        JobFault::Demand(DemandFault::UnknownStop(place)) => placed(alloc, "unknown stop", place),
        JobFault::Demand(DemandFault::UnknownZone(place)) => placed(alloc, "unknown zone", place),
        JobFault::Scenario(ScenarioFault::UnknownId(place)) => placed(alloc, "unknown id", place),
        JobFault::Scenario(ScenarioFault::BadValue(place)) => placed(alloc, "bad value", place),
        JobFault::Unreachable {
            origin,
            destination,
        } => format!(in alloc; "unreachable {} {}", origin.as_str(), destination.as_str()),
        JobFault::Range { limit, count } => format!(in alloc; "range {limit:?} {count}"),
        JobFault::WriteFault { sent } => format!(in alloc; "write fault {sent}"),
        JobFault::NoMemory => Err(AllocError),
        _ => String::from_str(alloc, "another fault"),
    }
}

// The name of a fault, and its place.
fn placed(alloc: Global, name: &str, place: &Place) -> Result<String, AllocError> {
    let file = place.file.as_str();
    let column = place.column.as_str();
    let field = from_utf8(place.field.as_slice()).unwrap_or("?");
    format!(in alloc; "{name} {file} {} {column} {field}", place.row)
}

// Puts a short file at a place below 8.
fn put(alloc: Global, files: &mut Files, place: u32, text: &str) -> Result<(), Fail> {
    let bytes = text.as_bytes().to_vec(alloc)?;
    if bytes.as_slice().len() > 1_000_000 || place > 7 {
        return Err("a short file at a place".into());
    }
    files.set(place, Blob::new(bytes));
    Ok(())
}

// The files of a folder, each with its place.
fn files_of(alloc: Global, folder: &[(u32, &str)]) -> Result<Files, Fail> {
    let mut files = Files::none();
    for (place, text) in folder {
        put(alloc, &mut files, *place, text)?;
    }
    Ok(files)
}
