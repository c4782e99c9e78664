//! The files of a generated city.

ghost use Rattle.std.specs.Prelude.{◌≡◌, IfOk};
ghost use Rattle.desk.specs.Generable.{IsGenerable};
ghost use Rattle.desk.specs.Generated.{AreShort, files_of, generated};

mod draws;
mod feed_files;
mod line_files;
mod rows;
mod tables;
#[cfg(test)]
mod tests;
mod ways;

use crate::gen_words::GenWords;
use feed_files::{calendar_dates, routes, stops, trips};
use line_files::line_files;
use std::alloc::{AllocError, Global};
use tables::{demand, zones};

/// The bytes of the files of a generated city: those of its feed, which has no other, and those of
/// its tables.
#[derive(Drop)]
pub struct Generated {
    pub stops: Vec<u8>,
    pub routes: Vec<u8>,
    pub calendar_dates: Vec<u8>,
    pub trips: Vec<u8>,
    pub stop_times: Vec<u8>,
    pub frequencies: Vec<u8>,
    pub zones: Vec<u8>,
    pub demand: Vec<u8>,
}

/// The files of the city of these numbers. Equal numbers give equal files.
///
/// The time is linear in the bytes of the files and in the pairs of zones.
pub fn generate(alloc: Global, words: &GenWords) -> Result<Generated, AllocError>
    requires range { IsGenerable words.now }
    ensures value { IfOk result (λ made. files_of made ≡ generated words.now) }
    ensures short { IfOk result (λ made. AreShort (files_of made)) }
{
    let mut state = words.seed;
    let lines = line_files(alloc, words, &mut state)?;
    let zones = zones(alloc, words, &mut state)?;
    let demand = demand(alloc, words, &mut state)?;
    Ok(Generated {
        stops: stops(alloc, words.stops)?,
        routes: routes(alloc, words.lines)?,
        calendar_dates: calendar_dates(alloc)?,
        trips: trips(alloc, words.lines)?,
        stop_times: lines.stop_times,
        frequencies: lines.frequencies,
        zones,
        demand,
    })
}
