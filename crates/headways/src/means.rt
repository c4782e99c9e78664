//! Mean rides and dwells of the trips of a line.

ghost use Rattle.std.specs.Prelude.{◌≡◌, ◌<◌, ◌≤◌, ◌*◌, ◌+◌, ◌^◌, [], All, IfErr, IfOk, OnOk, length, slice_index, sum_by};
ghost use Rattle.headways.specs.Faults.{IsFirstFault, cost_faults};
ghost use Rattle.headways.specs.Means.{AreTrips, begin_of, mean_of, means_of, seconds_of};
ghost use Rattle.headways.specs.TripWeights.{arrival_at, calls_of, departure_at};

use crate::fault::LineFault;
use crate::limits::cost_of;
use definitions::WEIGHT_LIMIT;
use feed_reader::{Call, Feed};
use std::alloc::Global;

/// The arrival at a place, in seconds, 0 where there is no call.
pub(crate) fn arrival_at(calls: &[Call], place: usize) -> u32
    ensures value { result ≡ arrival_at calls.now place }
{
    match calls.get(place) {
        Some(call) => call.arrival,
        None => 0,
    }
}

/// The departure from a place, in seconds, 0 where there is no call.
pub(crate) fn departure_at(calls: &[Call], place: usize) -> u32
    ensures value { result ≡ departure_at calls.now place }
{
    match calls.get(place) {
        Some(call) => call.departure,
        None => 0,
    }
}

/// A part of a trip.
#[derive(Clone, Copy, Debug, Drop)]
pub(crate) enum Part {
    /// From the call at a place to the next.
    Ride,
    /// At the call at a place.
    Dwell,
}

impl Part {
    // The first place that has the part.
    fn begin(self) -> usize
        ensures value { result ≡ begin_of self }
    {
        match self {
            Part::Ride => 0,
            Part::Dwell => 1,
        }
    }

    // The seconds of the part of a trip at a place.
    fn seconds(self, calls: &[Call], place: usize) -> u32
        requires room { place + 1 < 2 ^ 64 }
        ensures value { result ≡ seconds_of self place calls.now }
    {
        match self {
            Part::Ride => arrival_at(calls, place + 1).saturating_sub(departure_at(calls, place)),
            Part::Dwell => departure_at(calls, place).saturating_sub(arrival_at(calls, place)),
        }
    }
}

/// The sum of the weights of trips.
pub(crate) fn sum_of(weights: &[u128], trips: &[u32]) -> u128
    requires trips { All (λ trip. trip < length weights.now) trips.now }
    requires fits { sum_by (slice_index weights.now) trips.now < 2 ^ 128 }
    ensures value { result ≡ sum_by (slice_index weights.now) trips.now }
{
    let mut sum = 0;
    for trip in trips {
        sum += weights[*trip as usize];
    }
    sum
}

// The sum of the thousandths of seconds of trips, each times its weight.
fn ticks_of(feed: &Feed, weights: &[u128], trips: &[u32], part: Part, place: usize) -> u128
    requires trips { AreTrips feed.now trips.now }
    requires weights { length weights.now ≡ length feed.now.trips }
    requires light { sum_by (slice_index weights.now) trips.now ≤ WEIGHT_LIMIT }
    requires room { place + 1 < 2 ^ 64 }
    ensures value { result ≡ sum_by (λ trip. slice_index weights.now trip * 1000
        * seconds_of part place (calls_of feed.now trip)) trips.now }
{
    let mut sum = 0;
    for trip in trips {
        let seconds = part.seconds(feed.calls(*trip), place);
        sum += weights[*trip as usize] * 1000 * u128::from(seconds);
    }
    sum
}

// The mean of a part over trips of this weight at a place, in ticks, rounded down, and at least 1.
fn mean(feed: &Feed, weights: &[u128], trips: &[u32], weight: u32, part: Part, place: usize) -> u128
    requires trips { AreTrips feed.now trips.now }
    requires weights { length weights.now ≡ length feed.now.trips }
    requires weight { weight ≡ sum_by (slice_index weights.now) trips.now }
    requires some { 1 ≤ weight }
    requires room { place + 1 < 2 ^ 64 }
    ensures value { result ≡ mean_of feed.now weights.now trips.now part place }
{
    let ticks = ticks_of(feed, weights, trips, part, place);
    (ticks / u128::from(weight)).max(1)
}

/// The means of a part over trips of this weight, at each place that has it and comes before an
/// end, in ticks.
pub(crate) fn means(
    alloc: Global,
    feed: &Feed,
    weights: &[u128],
    trips: &[u32],
    weight: u32,
    part: Part,
    end: usize,
) -> Result<Vec<u32>, LineFault>
    requires trips { AreTrips feed.now trips.now }
    requires weights { length weights.now ≡ length feed.now.trips }
    requires weight { weight ≡ sum_by (slice_index weights.now) trips.now }
    requires some { 1 ≤ weight }
    requires end { 1 ≤ end }
    ensures value { IfOk result (λ found.
        found.items ≡ means_of feed.now weights.now trips.now part end) }
    ensures faultless { OnOk result (
        cost_faults (means_of feed.now weights.now trips.now part end) ≡ []) }
    ensures refused { IfErr result (
        IsFirstFault (cost_faults (means_of feed.now weights.now trips.now part end))) }
{
    let mut found = Vec::new(alloc);
    for place in part.begin()..end {
        let ticks = cost_of(mean(feed, weights, trips, weight, part, place))?;
        found.push(ticks)?;
    }
    Ok(found)
}
