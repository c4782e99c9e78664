//! The ways between stops that some source tells of.

ghost use Rattle.std.specs.Prelude.{◌≡◌, ◌<◌, ◌++◌, ◌==◌, IfErr, IfOk, OnOk, filter, flat_map, length, map};
ghost use Rattle.std.specs.List.{range_with_len};
ghost use Rattle.network.specs.Stations.{StandByStation};
ghost use Rattle.network.specs.Ways.{listed_way, neighbours, ruling_of, seconds_by, station_ways, stops_on, transfer_ways, ways_between, ways_of, ways_to};
ghost use Rattle.network.specs.declared.fault.BuildFault.TheVariants as fault;
ghost use Rattle.network.specs.declared.ways.Ruling.TheVariants as ruling;

use crate::fault::BuildFault;
use crate::groups::Groups;
use crate::stations::{stations_of, stops_in};
use demand::WalkRow;
use feed_reader::{Feed, Side, Transfer};
use gtfs_rows::NoMemory;
use std::alloc::Global;

/// The seconds of a walk between two stops of one station.
const STATION_SECONDS: u64 = 120;

/// What a source says of a way.
#[derive(Clone, Copy, Debug, Drop, PartialEq, Eq)]
pub(crate) enum Ruling {
    /// The seconds by a row of the walks file.
    Listed(u64),
    /// The seconds by a row of transfers.txt, or by a station.
    Allowed(u64),
    /// A row of transfers.txt bars it.
    Barred,
}

impl Ruling {
    /// The seconds that it gives, None where it bars the way.
    pub fn seconds(self) -> Option<u64>
        ensures value { result ≡ seconds_by self }
    {
        match self {
            Ruling::Listed(seconds) | Ruling::Allowed(seconds) => Some(seconds),
            Ruling::Barred => None,
        }
    }
}

/// A way from a stop to a stop, and what a source says of it.
#[derive(Clone, Copy, Debug, Drop, PartialEq, Eq)]
pub(crate) struct Way {
    pub from: u32,
    pub to: u32,
    pub ruling: Ruling,
}

/// The ways of the walks file, then those of transfers.txt, then those inside stations.
pub(crate) fn ways_of(alloc: Global, feed: &Feed, walks: &[WalkRow]) -> Result<Vec<Way>, BuildFault>
    ensures ways { IfOk result (λ ways. ways.items ≡ ways_of feed.now walks.now) }
    ensures no_memory { IfErr result (λ e. e ≡ fault.NoMemory) }
{
    let stations = stations_of(alloc, feed)?;
    let mut ways = Vec::new(alloc);
    push_listed(&mut ways, walks)?;
    push_transfers(alloc, &mut ways, feed, &stations)?;
    push_stations(&mut ways, feed, &stations)?;
    Ok(ways)
}

// Appends the ways of the walks file.
fn push_listed(ways: &mut Vec<Way>, walks: &[WalkRow]) -> Result<(), NoMemory>
    ensures ok { OnOk result (ways.new.items ≡ ways.old.items ++ map listed_way walks.now) }
{
    for walk in walks {
        ways.push(Way {
            from: walk.from,
            to: walk.to,
            ruling: Ruling::Listed(walk.seconds),
        })?;
    }
    Ok(())
}

// Appends the ways of the rows of transfers.txt.
fn push_transfers(
    alloc: Global,
    ways: &mut Vec<Way>,
    feed: &Feed,
    stations: &Groups,
) -> Result<(), NoMemory>
    requires stations { StandByStation feed.now stations.now }
    ensures ok { OnOk result
        (ways.new.items ≡ ways.old.items ++ flat_map (transfer_ways feed.now) feed.now.transfers) }
{
    for row in feed.transfers() {
        let froms = stops_on(alloc, feed, stations, row.from)?;
        let tos = stops_on(alloc, feed, stations, row.to)?;
        push_between(ways, &froms, &tos, ruling_of(row))?;
    }
    Ok(())
}

// Appends the ways inside stations.
fn push_stations(ways: &mut Vec<Way>, feed: &Feed, stations: &Groups) -> Result<(), NoMemory>
    requires stations { StandByStation feed.now stations.now }
    ensures ok { OnOk result (ways.new.items
        ≡ ways.old.items ++ flat_map (station_ways feed.now) (range_with_len 0 (length feed.now.stops))) }
{
    let count = feed.stops().len();
    for stop in 0..count {
        let tos = neighbours(feed, stations, stop as u32);
        push_to(ways, stop as u32, tos, Ruling::Allowed(STATION_SECONDS))?;
    }
    Ok(())
}

// Appends the ways from each of some stops to each of others.
fn push_between(
    ways: &mut Vec<Way>,
    froms: &[u32],
    tos: &[u32],
    ruling: Ruling,
) -> Result<(), NoMemory>
    ensures ok { OnOk result (ways.new.items ≡ ways.old.items ++ ways_between ruling froms.now tos.now) }
{
    for from in froms {
        push_to(ways, *from, tos, ruling)?;
    }
    Ok(())
}

// Appends the ways from a stop to each of others.
fn push_to(ways: &mut Vec<Way>, from: u32, tos: &[u32], ruling: Ruling) -> Result<(), NoMemory>
    ensures ok { OnOk result (ways.new.items ≡ ways.old.items ++ ways_to ruling tos.now from) }
{
    for to in tos {
        ways.push(Way {
            from,
            to: *to,
            ruling,
        })?;
    }
    Ok(())
}

// What a row of transfers.txt says.
fn ruling_of(row: &Transfer) -> Ruling
    ensures value { result ≡ ruling_of row.now }
{
    if row.barred {
        Ruling::Barred
    } else {
        Ruling::Allowed(row.seconds)
    }
}

// The stops on a side of a transfer.
fn stops_on(alloc: Global, feed: &Feed, stations: &Groups, side: Side) -> Result<Vec<u32>, NoMemory>
    requires stations { StandByStation feed.now stations.now }
    ensures value { IfOk result (λ stops. stops.items ≡ stops_on feed.now side) }
{
    let stops = match side {
        Side::Stop(stop) => one_stop(alloc, feed.stops().len(), stop)?,
        Side::Station(station) => Vec::from_slice(alloc, stops_in(stations, station))?,
    };
    Ok(stops)
}

// A stop, if it is among so many.
fn one_stop(alloc: Global, count: usize, stop: u32) -> Result<Vec<u32>, NoMemory>
    ensures value { IfOk result (λ stops. stops.items ≡ filter (λ other. stop == other) (range_with_len 0 count)) }
{
    let mut stops = Vec::new(alloc);
    if stop as usize >= count {
        return Ok(stops);
    }
    stops.push(stop)?;
    Ok(stops)
}

// The stops of the station of a stop, none where it belongs to none.
fn neighbours<'a>(feed: &Feed, stations: &'a Groups, stop: u32) -> &'a [u32]
    requires stations { StandByStation feed.now stations.now }
    requires stop { stop < length feed.now.stops }
    ensures value { result.now ≡ neighbours feed.now stop }
{
    match feed.stops()[stop as usize].parent {
        Some(station) => stops_in(stations, station),
        None => &[],
    }
}
