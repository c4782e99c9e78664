//! The counted trips, and the number of the line of each.

ghost use Rattle.std.specs.Prelude.{◌≡◌, ◌<◌, ◌≤◌, ◌+◌, Some, OnOk, IfOk, length, slice_get};
ghost use Rattle.headways.specs.Numbering.{IsKeyed, IsNumbered, firsts_with, key_of, keys_of};

use crate::keys::key_of;
use feed_reader::Feed;
use gtfs_rows::NoMemory;
use std::alloc::Global;
use std::collections::BTreeMap;

/// A counted trip, and the number of its line.
#[derive(Clone, Copy, Debug, Drop)]
pub(crate) struct Counted {
    pub trip: u32,
    pub line: u32,
}

/// The counted trips, and the first of each line.
#[derive(Drop)]
pub(crate) struct Numbered {
    pub counted: Vec<Counted>,
    pub firsts: Vec<u32>,
}

// The number of the line of a trip. Where no earlier trip has its key, it is the first of a new
// line.
fn line_of(
    alloc: Global,
    feed: &Feed,
    firsts: &mut Vec<u32>,
    numbers: &mut BTreeMap<Vec<u64>, u32>,
    trip: u32,
) -> Result<u32, NoMemory>
    requires trip { trip < length feed.now.trips }
    requires keyed { IsKeyed (keys_of feed.now firsts.old.items) numbers.old }
    requires few { length firsts.old.items ≤ trip }
    ensures firsts { OnOk result (firsts.new.items ≡ firsts_with feed.now firsts.old.items trip) }
    ensures keyed { OnOk result (IsKeyed (keys_of feed.now firsts.new.items) numbers.new) }
    ensures line { IfOk result (λ line.
        slice_get (keys_of feed.now firsts.new.items) line ≡ Some (key_of feed.now trip)) }
{
    let key = key_of(alloc, feed, trip)?;
    if let Some(line) = numbers.get(&key).copied() {
        return Ok(line);
    }
    let line = firsts.as_slice().len() as u32;
    firsts.push(trip)?;
    numbers.insert(key, line)?;
    Ok(line)
}

// Appends a trip, where it is counted.
fn note(
    alloc: Global,
    feed: &Feed,
    weights: &[u128],
    numbered: &mut Numbered,
    numbers: &mut BTreeMap<Vec<u64>, u32>,
    trip: u32,
) -> Result<(), NoMemory>
    requires trip { trip < length feed.now.trips }
    requires weights { length weights.now ≡ length feed.now.trips }
    requires numbered { IsNumbered feed.now weights.now trip numbered.old }
    requires keyed { IsKeyed (keys_of feed.now numbered.old.firsts.items) numbers.old }
    ensures numbered { OnOk result (IsNumbered feed.now weights.now (trip + 1) numbered.new) }
    ensures keyed { OnOk result (IsKeyed (keys_of feed.now numbered.new.firsts.items) numbers.new) }
{
    if weights[trip as usize] == 0 {
        return Ok(());
    }
    let line = line_of(alloc, feed, &mut numbered.firsts, numbers, trip)?;
    numbered.counted.push(Counted { trip, line })?;
    Ok(())
}

/// The counted trips of a feed whose trips have these weights.
pub(crate) fn number_trips(
    alloc: Global,
    feed: &Feed,
    weights: &[u128],
) -> Result<Numbered, NoMemory>
    requires weights { length weights.now ≡ length feed.now.trips }
    ensures numbered { IfOk result (λ found.
        IsNumbered feed.now weights.now (length feed.now.trips) found) }
{
    let mut numbered = Numbered {
        counted: Vec::new(alloc),
        firsts: Vec::new(alloc),
    };
    let mut numbers = BTreeMap::new(alloc);
    let trips = feed.trips().len() as u32;
    for trip in 0..trips {
        note(alloc, feed, weights, &mut numbered, &mut numbers, trip)?;
    }
    Ok(numbered)
}
