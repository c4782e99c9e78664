//! The line of trips that have the same places.

ghost use Rattle.std.specs.Prelude.{◌≡◌, ◌<◌, ◌≤◌, ◌^◌, [], IfErr, IfOk, OnOk, length, map, slice_index, sum_by};
ghost use Rattle.headways.specs.Faults.{IsFirstFault, line_faults};
ghost use Rattle.headways.specs.Lines.{line_of_trips, place_of};
ghost use Rattle.headways.specs.Means.{AreTrips};

use crate::fault::LineFault;
use crate::limits::weight_of;
use crate::line::{Line, LinePlace, Places, Ticks};
use crate::means::{Part, means, sum_of};
use feed_reader::{Call, Feed};
use gtfs_rows::NoMemory;
use std::alloc::Global;

// The places of calls.
fn places_of(alloc: Global, calls: &[Call]) -> Result<Vec<LinePlace>, NoMemory>
    ensures value { IfOk result (λ places. places.items ≡ map place_of calls.now) }
{
    let mut places = Vec::new(alloc);
    for call in calls {
        places.push(LinePlace {
            stop: call.stop,
            pickup: call.pickup,
            drop: call.drop,
        })?;
    }
    Ok(places)
}

/// The line of trips that are alike to a first one.
///
/// # Refusals
///
/// `Range` where the weight passes its limit, and then for each ride and each dwell in turn that
/// passes its. `NoMemory` may come in place of it.
pub(crate) fn read_line(
    alloc: Global,
    feed: &Feed,
    weights: &[u128],
    first: u32,
    trips: &[u32],
) -> Result<Line, LineFault>
    requires first { first < length feed.now.trips }
    requires trips { AreTrips feed.now trips.now }
    requires weights { length weights.now ≡ length feed.now.trips }
    requires some { 1 ≤ sum_by (slice_index weights.now) trips.now }
    requires fits { sum_by (slice_index weights.now) trips.now < 2 ^ 128 }
    ensures value { IfOk result (λ line.
        line ≡ line_of_trips feed.now weights.now first trips.now) }
    ensures faultless { OnOk result (
        line_faults (line_of_trips feed.now weights.now first trips.now) ≡ []) }
    ensures refused { IfErr result (
        IsFirstFault (line_faults (line_of_trips feed.now weights.now first trips.now))) }
{
    let weight = weight_of(sum_of(weights, trips))?;
    let calls = feed.calls(first);
    let places = places_of(alloc, calls)?;
    let pairs = calls.len() - 1;
    let rides = means(alloc, feed, weights, trips, weight, Part::Ride, pairs)?;
    let dwells = means(alloc, feed, weights, trips, weight, Part::Dwell, pairs)?;
    Ok(Line {
        route: feed.trips()[first as usize].route,
        weight,
        places: Places::new(places),
        rides: Ticks::new(rides),
        dwells: Ticks::new(dwells),
    })
}
