//! What the trips of a line have in common, as a key of a map.

ghost use Rattle.std.specs.Prelude.{◌≡◌, ◌<◌, ◌∷◌, IfOk, length, map, slice_index_or};
ghost use Rattle.headways.specs.Numbering.{bit, code_of, key_of};

use feed_reader::{Call, Feed};
use gtfs_rows::NoMemory;
use std::alloc::Global;

// A flag as a number.
fn bit(flag: bool) -> u64
    ensures value { result ≡ bit flag }
{
    if flag { 1 } else { 0 }
}

// A stop and its two flags in one number.
fn code_of(call: &Call) -> u64
    ensures value { result ≡ code_of call.now }
{
    4 * u64::from(call.stop) + 2 * bit(call.pickup) + bit(call.drop)
}

/// The route of a trip, and the stops and flags of its calls.
pub(crate) fn key_of(alloc: Global, feed: &Feed, trip: u32) -> Result<Vec<u64>, NoMemory>
    requires trip { trip < length feed.now.trips }
    ensures value { IfOk result (λ key. key.items ≡ key_of feed.now trip) }
{
    let mut key = Vec::new(alloc);
    key.push(u64::from(feed.trips()[trip as usize].route))?;
    for call in feed.calls(trip) {
        key.push(code_of(call))?;
    }
    Ok(key)
}
