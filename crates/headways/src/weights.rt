//! What each trip of a feed weighs in a period.

ghost use Rattle.std.specs.Prelude.{◌≡◌, ◌<◌, ◌≤◌, ◌^◌, ◌*◌, ◌+◌, ℕ, Some, All, IfOk, if◌then◌else◌, length, map, slice_set, unwrap_or};
ghost use Rattle.std.specs.List.{range_with_len};
ghost use Rattle.service_period.specs.Weights.{band_weight_of, greatest_band_weight};
ghost use Rattle.headways.specs.TripWeights.{AreBands, AreLight, is_on, running_weight, weight_in, weight_of, weights_of, weights_of_bands};

use crate::means::departure_at;
use feed_reader::Feed;
use gtfs_rows::{Band, NoMemory};
use service_period::{Period, band_weight, runs, trip_weight};
use std::alloc::Global;

// Of each service, whether it runs on the date.
fn running_services(alloc: Global, feed: &Feed, period: &Period) -> Result<Vec<bool>, NoMemory>
    ensures value { IfOk result (λ running. running.items
        ≡ map (is_on feed.now period.now) (range_with_len 0 (length feed.now.services))) }
{
    let weeks = feed.weeks();
    let exceptions = feed.exceptions();
    let date = period.date();
    let services = feed.services().len() as u32;
    let mut running = Vec::new(alloc);
    for service in 0..services {
        running.push(runs(weeks, exceptions, service, date))?;
    }
    Ok(running)
}

// Adds the weight of a band to that of its trip.
fn add_band(sums: &mut Vec<Option<u128>>, period: &Period, band: &Band)
    requires trip { band.now.trip < length sums.old.items }
    requires headway { 1 ≤ band.now.headway }
    requires room { weight_in sums.old.items band.now.trip + greatest_band_weight < 2 ^ 128 }
    ensures items { sums.new.items ≡ slice_set sums.old.items band.now.trip
        (Some (weight_in sums.old.items band.now.trip + band_weight_of period.now band.now)) }
    ensures within { band_weight_of period.now band.now ≤ greatest_band_weight }
{
    let before = sums[band.trip as usize].unwrap_or(0);
    sums[band.trip as usize] = Some(before + u128::from(band_weight(period, band)));
}

// Of each of so many trips, the weight of its bands, where it has some.
fn weights_of_bands(
    alloc: Global,
    trips: usize,
    bands: &[Band],
    period: &Period,
) -> Result<Vec<Option<u128>>, NoMemory>
    requires bands { AreBands trips bands.now }
    ensures value { IfOk result (λ sums. sums.items ≡ weights_of_bands period.now bands.now trips) }
    ensures light { IfOk result (λ sums. All (λ sum. unwrap_or sum 0 < 2 ^ 92) sums.items) }
{
    let mut sums = vec![in alloc; None; trips]?;
    for band in bands {
        add_band(&mut sums, period, band);
    }
    Ok(sums)
}

// The weight of a trip of which it is known whether its service runs, and what its bands weigh.
fn weight_by(feed: &Feed, period: &Period, trip: u32, running: bool, bands: Option<u128>) -> u128
    requires trip { trip < length feed.now.trips }
    requires light { unwrap_or bands 0 < 2 ^ 92 }
    ensures value { result ≡
        (if running then running_weight feed.now period.now trip bands else 0) }
    ensures light { result < 2 ^ 92 }
{
    if !running {
        return 0;
    }
    match bands {
        Some(weight) => weight,
        None => u128::from(trip_weight(period, departure_at(feed.calls(trip), 0))),
    }
}

// The weight of a trip, where it is known which services run, and what the bands of trips weigh.
fn weight_at(
    feed: &Feed,
    period: &Period,
    running: &[bool],
    bands: &[Option<u128>],
    trip: u32,
) -> u128
    requires trip { trip < length feed.now.trips }
    requires running { running.now ≡
        map (is_on feed.now period.now) (range_with_len 0 (length feed.now.services)) }
    requires bands { bands.now
        ≡ weights_of_bands period.now feed.now.bands (length feed.now.trips) }
    requires light { All (λ sum. unwrap_or sum 0 < 2 ^ 92) bands.now }
    ensures value { result ≡ weight_of feed.now period.now trip }
    ensures light { result < 2 ^ 92 }
{
    let service = feed.trips()[trip as usize].service;
    weight_by(
        feed,
        period,
        trip,
        running[service as usize],
        bands[trip as usize],
    )
}

/// The weights of all trips, in the order of the trips.
pub(crate) fn trip_weights(
    alloc: Global,
    feed: &Feed,
    period: &Period,
) -> Result<Vec<u128>, NoMemory>
    ensures value { IfOk result (λ weights. weights.items ≡ weights_of feed.now period.now) }
    ensures light { IfOk result (λ weights. AreLight feed.now weights.items) }
{
    let running = running_services(alloc, feed, period)?;
    let bands = weights_of_bands(alloc, feed.trips().len(), feed.bands(), period)?;
    let mut weights = Vec::new(alloc);
    let trips = feed.trips().len() as u32;
    for trip in 0..trips {
        weights.push(weight_at(feed, period, running.as_slice(), bands.as_slice(), trip))?;
    }
    Ok(weights)
}
