//! The stops of each station.

ghost use Rattle.std.specs.Prelude.{◌≡◌, ◌<◌, ◌≤◌, ◌^◌, ◌+◌, [], All, IfErr, IfOk, length, map, slice_index_or};
ghost use Rattle.network.specs.Stations.{StandByStation, key_of, station_key};
ghost use Rattle.network.specs.declared.fault.BuildFault.TheVariants as fault;

use crate::fault::BuildFault;
use crate::groups::Groups;
use feed_reader::{Feed, Stop};
use gtfs_rows::NoMemory;
use std::alloc::Global;

/// The stops by station: behind those of no station come those of each.
pub(crate) fn stations_of(alloc: Global, feed: &Feed) -> Result<Groups, BuildFault>
    ensures stations { IfOk result (StandByStation feed.now) }
    ensures no_memory { IfErr result (λ e. e ≡ fault.NoMemory) }
{
    let keys = station_keys(alloc, feed.stops())?;
    let count = greatest(&keys) + 1;
    let stations = Groups::new(alloc, count, &keys)?;
    Ok(stations)
}

/// The stops of a station, where it has some.
pub(crate) fn stops_in(stations: &Groups, station: u32) -> &[u32]
    requires few { length stations.now < 2 ^ 32 }
    ensures value { result.now ≡ slice_index_or stations.now (station + 1) [] }
{
    let key = station as usize + 1;
    if key < stations.len() {
        stations.of(key as u32)
    } else {
        &[]
    }
}

// The key of the station of each stop.
fn station_keys(alloc: Global, stops: &[Stop]) -> Result<Vec<u32>, NoMemory>
    ensures keys { IfOk result (λ keys. keys.items ≡ map station_key stops.now) }
    ensures few { IfOk result (λ keys. All (λ key. key + 1 < 2 ^ 32) keys.items) }
{
    let mut keys = Vec::new(alloc);
    for stop in stops {
        let key = key_of(stop.parent)?;
        keys.push(key)?;
    }
    Ok(keys)
}

// The key of a station, 0 where there is none. A list up to the last numbers takes more room than
// there is.
fn key_of(station: Option<u32>) -> Result<u32, NoMemory>
    ensures value { IfOk result (λ key. key ≡ key_of station) }
    ensures few { IfOk result (λ key. key + 1 < 2 ^ 32) }
{
    let Some(station) = station else {
        return Ok(0);
    };
    if station >= u32::MAX - 1 {
        return Err(NoMemory);
    }
    Ok(station + 1)
}

// The greatest of some keys.
fn greatest(keys: &[u32]) -> u32
    requires few { All (λ key. key + 1 < 2 ^ 32) keys.now }
    ensures most { All (λ key. key ≤ result) keys.now }
    ensures few { result + 1 < 2 ^ 32 }
{
    let mut most = 0;
    for key in keys {
        most = most.max(*key);
    }
    most
}
