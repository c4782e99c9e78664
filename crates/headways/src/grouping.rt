//! The lines of counted trips, one line after the other.

ghost use Rattle.std.specs.Prelude.{◌≡◌, ◌==◌, ◌<◌, ◌≤◌, ◌+◌, ℕ, [], IfErr, IfOk, OnOk, drop, filter, flat_map, length, map};
ghost use Rattle.std.specs.List.{prefix_len};
ghost use Rattle.std.specs.List.Sorted.{IsNonDecreasingBy};
ghost use Rattle.headways.specs.Faults.{IsFirstFault, line_faults};
ghost use Rattle.headways.specs.Lines.{firsts, lines_by};
ghost use Rattle.headways.specs.Numbering.{AreGroups, IsNumbered, line_number};
ghost use Rattle.headways.specs.TripWeights.{AreLight};

use crate::fault::LineFault;
use crate::line::Line;
use crate::line_reading::read_line;
use crate::numbering::{Counted, Numbered};
use feed_reader::Feed;
use gtfs_rows::NoMemory;
use std::alloc::Global;

// Puts the trips in the order of their lines. Those of one line stay as they stand.
fn group_by_line(counted: &mut Vec<Counted>) -> Result<(), NoMemory>
    ensures sorted { OnOk result (IsNonDecreasingBy line_number counted.new.items) }
    ensures each { OnOk result (
        (line : ℕ) → filter (λ found. line_number found == line) counted.new.items
        ≡ filter (λ found. line_number found == line) counted.old.items
        ) }
{
    counted.sort_by_key(|found| found.line)?;
    Ok(())
}

// The end of the trips of a line that begin at a place.
fn end_of(counted: &[Counted], start: usize, line: usize) -> usize
    requires start { start ≤ length counted.now }
    ensures value { result ≡
        start + prefix_len (λ found. line_number found == line) (drop start counted.now) }
    ensures within { result ≤ length counted.now }
{
    for place in start..counted.len() {
        if counted[place].line as usize != line {
            return place;
        }
    }
    counted.len()
}

// The numbers of trips.
fn trips_of(alloc: Global, counted: &[Counted]) -> Result<Vec<u32>, NoMemory>
    ensures value { IfOk result (λ trips. trips.items ≡ map (λ found. found.trip) counted.now) }
{
    let mut trips = Vec::new(alloc);
    for found in counted {
        trips.push(found.trip)?;
    }
    Ok(trips)
}

// The lines of these first trips, from trips that stand by line.
fn read_groups(
    alloc: Global,
    feed: &Feed,
    weights: &[u128],
    counted: &[Counted],
    first_trips: &[u32],
) -> Result<Vec<Line>, LineFault>
    requires weights { AreLight feed.now weights.now }
    requires sorted { IsNonDecreasingBy line_number counted.now }
    requires firsts { first_trips.now ≡ firsts feed.now weights.now }
    requires groups { AreGroups feed.now weights.now counted.now }
    ensures value { IfOk result (λ lines. lines.items ≡ lines_by feed.now weights.now) }
    ensures faultless { OnOk result (flat_map line_faults (lines_by feed.now weights.now) ≡ []) }
    ensures refused { IfErr result (
        IsFirstFault (flat_map line_faults (lines_by feed.now weights.now))) }
{
    let mut lines = Vec::new(alloc);
    let mut start = 0;
    for line in 0..first_trips.len() {
        let end = end_of(counted, start, line);
        let trips = trips_of(alloc, &counted[start..end])?;
        let read = read_line(alloc, feed, weights, first_trips[line], trips.as_slice())?;
        lines.push(read)?;
        start = end;
    }
    Ok(lines)
}

/// The lines of counted trips.
///
/// # Refusals
///
/// The first fault of the lines, one line after the other. `NoMemory` may come in its place.
pub(crate) fn read_lines(
    alloc: Global,
    feed: &Feed,
    weights: &[u128],
    numbered: Numbered,
) -> Result<Vec<Line>, LineFault>
    requires weights { AreLight feed.now weights.now }
    requires numbered { IsNumbered feed.now weights.now (length feed.now.trips) numbered }
    ensures value { IfOk result (λ lines. lines.items ≡ lines_by feed.now weights.now) }
    ensures faultless { OnOk result (flat_map line_faults (lines_by feed.now weights.now) ≡ []) }
    ensures refused { IfErr result (
        IsFirstFault (flat_map line_faults (lines_by feed.now weights.now))) }
{
    let Numbered { counted, firsts } = numbered;
    let mut counted = counted;
    group_by_line(&mut counted)?;
    read_groups(alloc, feed, weights, counted.as_slice(), firsts.as_slice())
}
