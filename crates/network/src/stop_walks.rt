//! The walks from each stop.

ghost use Rattle.std.specs.Prelude.{◌≡◌, ◌<◌, ◌≤◌, ◌+◌, ◌++◌, ◌==◌, ◌^◌, ℕ, [], All, IfErr, IfOk, OnOk, drop, length, slice_index_or, sum_by, if◌then◌else◌};
ghost use Rattle.std.specs.List.{prefix_len};
ghost use Rattle.demand.specs.Laws.{IsWalkAmong};
ghost use Rattle.network.specs.Parts.{AreFirsts, parts_of};
ghost use Rattle.network.specs.StopWalks.{walks_by_stop};
ghost use Rattle.network.specs.Ways.{IsWayAmong, by_key, ordered, walk_by, walks_after, walks_along, walks_by, with_more};
ghost use Rattle.network.specs.declared.fault.BuildFault.TheVariants as fault;

use crate::fault::BuildFault;
use crate::parts::part_of;
use crate::ways::{Ruling, Way, ways_of};
use demand::{WalkRow, Walks};
use feed_reader::Feed;
use gtfs_rows::NoMemory;
use std::alloc::Global;
use std::marker::Model;

/// For each stop the walks from it, by the numbers of the stops to which they lead.
#[derive(Drop)]
pub(crate) struct StopWalks {
    list: Vec<WalkRow>,
    firsts: Vec<usize>,
}

impl Model for StopWalks {
    ghost use Rattle.std.specs.Prelude.{List, length};
    ghost use Rattle.demand.specs.declared.tables.WalkRow.{WalkRow};
    ghost use Rattle.network.specs.Parts.{AreFirsts, parts_of};

    ghost Value = { List (List WalkRow) };

    ghost view = { λ w. parts_of w.firsts.items w.list.items };

    ghost invariant = { λ w. AreFirsts w.firsts.items (length w.list.items) };
}

impl StopWalks {
    /// The walks from a stop.
    pub fn of(&self, stop: u32) -> &[WalkRow]
        requires stop { stop < length self.now }
        ensures value { result.now ≡ slice_index_or self.now stop [] }
    {
        part_of(&self.list, &self.firsts, stop)
    }

    /// How many stops there are.
    pub fn stops(&self) -> usize
        ensures value { result ≡ length self.now }
    {
        self.firsts.as_slice().len() - 1
    }

    /// How many walks there are.
    pub fn count(&self) -> usize
        ensures value { result ≡ sum_by length self.now }
    {
        self.list.as_slice().len()
    }
}

/// The walks from each stop to others, in seconds: by the walks file, else by transfers.txt, else
/// between the stops of a station.
pub(crate) fn stop_walks(alloc: Global, feed: &Feed, walks: &Walks) -> Result<StopWalks, BuildFault>
    requires walks { All (IsWalkAmong (length feed.now.stops)) walks.now }
    ensures walks { IfOk result (λ found. found ≡ walks_by_stop feed.now walks.now) }
    ensures no_memory { IfErr result (λ e. e ≡ fault.NoMemory) }
{
    let mut ways = ways_of(alloc, feed, walks.list())?;
    order(&mut ways)?;
    let found = walks_by(alloc, feed.stops().len(), &ways)?;
    Ok(found)
}

// Puts ways in the order of the stops from which and to which they lead. Those of one way stay as
// they stand.
fn order(ways: &mut Vec<Way>) -> Result<(), NoMemory>
    ensures ok { OnOk result ((stops : ℕ) → All (IsWayAmong stops) ways.old.items
        → ways.new.items ≡ ordered stops ways.old.items) }
{
    ways.sort_by_key(|way| way.to)?;
    ways.sort_by_key(|way| way.from)?;
    Ok(())
}

// The walks by ways in order, for each of so many stops.
fn walks_by(alloc: Global, stops: usize, ways: &[Way]) -> Result<StopWalks, NoMemory>
    requires few { stops < 2 ^ 32 }
    requires ordered { by_key (λ way. way.from) stops ways.now ≡ ways.now }
    ensures walks { IfOk result (λ found. found ≡ walks_by stops ways.now) }
{
    let mut list = Vec::new(alloc);
    let mut firsts = Vec::new(alloc);
    firsts.push(0)?;
    let mut start = 0;
    for stop in 0..stops {
        let end = end_of(ways, start, stop as u32);
        push_walks(&mut list, &ways[start..end])?;
        firsts.push(list.as_slice().len())?;
        start = end;
    }
    Ok(StopWalks { list, firsts })
}

// Where the ways from a stop end that begin at a place.
fn end_of(ways: &[Way], start: usize, stop: u32) -> usize
    requires start { start ≤ length ways.now }
    ensures value { result ≡ start + prefix_len (λ way. way.from == stop) (drop start ways.now) }
    ensures within { result ≤ length ways.now }
{
    for place in start..ways.len() {
        if ways[place].from != stop {
            return place;
        }
    }
    ways.len()
}

// Appends the walks by the ways from one stop, in order.
fn push_walks(list: &mut Vec<WalkRow>, ways: &[Way]) -> Result<(), NoMemory>
    ensures ok { OnOk result (list.new.items ≡ list.old.items ++ walks_along ways.now) }
{
    if ways.is_empty() {
        return Ok(());
    }
    let mut held = ways[0];
    for place in 1..ways.len() {
        held = next_way(list, held, ways[place])?;
    }
    push_walk(list, held)?;
    Ok(())
}

// Of two ways in order that of which the next may tell more. Where they differ, the first is done,
// and its walk is appended.
fn next_way(list: &mut Vec<WalkRow>, held: Way, way: Way) -> Result<Way, NoMemory>
    ensures value { IfOk result (λ next. next
        ≡ (if way.to == held.to then with_more held way else way)) }
    ensures ok { OnOk result (list.new.items
        ≡ list.old.items ++ (if way.to == held.to then [] else walk_by held)) }
{
    if way.to == held.to {
        return Ok(with_more(held, way));
    }
    push_walk(list, held)?;
    Ok(way)
}

// What two sources say of one way: the less of two rows of the walks file, else what is said first.
fn with_more(way: Way, more: Way) -> Way
    ensures value { result ≡ with_more way more }
{
    let ruling = match (way.ruling, more.ruling) {
        (Ruling::Listed(seconds), Ruling::Listed(others)) => Ruling::Listed(seconds.min(others)),
        (first, _) => first,
    };
    Way { ruling, ..way }
}

// Appends the walk by a way, if it leads to another stop and is not barred.
fn push_walk(list: &mut Vec<WalkRow>, way: Way) -> Result<(), NoMemory>
    ensures ok { OnOk result (list.new.items ≡ list.old.items ++ walk_by way) }
{
    if way.from == way.to {
        return Ok(());
    }
    if let Some(seconds) = way.ruling.seconds() {
        list.push(WalkRow {
            from: way.from,
            to: way.to,
            seconds,
        })?;
    }
    Ok(())
}

#[cfg(test)]
mod tests;
