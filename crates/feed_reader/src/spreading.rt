//! The times of untimed calls, between those of timed ones.

ghost use Rattle.std.specs.Prelude.{◌≡◌, ◌<◌, ◌≤◌, ◌+◌, ◌*◌, ◌/◌, IfOk, false, length};
ghost use Rattle.feed_reader.specs.Calls.{call_of, calls_of, is_aside, spread_times, time_between};
ghost use Rattle.feed_reader.specs.Spreading.{IsGapAt};

use crate::call_times::{arrival_at, departure_at, is_timed, timed_from, times_at};
use crate::row_call::RowCall;
use crate::timetable::Call;
use gtfs_rows::NoMemory;
use std::alloc::Global;

/// The places of two timed calls around a place: the last before it and the first from it on.
#[derive(Clone, Copy, Debug, Drop)]
pub(crate) struct Gap {
    pub first: usize,
    pub last: usize,
}

// The time at a place between two timed ones.
fn time_between(calls: &[RowCall], gap: Gap, place: usize) -> u32
    requires after { gap.first ≤ place }
    requires within { place ≤ gap.last }
    requires apart { gap.first < gap.last }
    ensures value { result ≡ time_between calls.now gap.first gap.last place }
{
    let left = departure_at(calls, gap.first);
    let whole = arrival_at(calls, gap.last).saturating_sub(left);
    left + part_of(whole, place - gap.first, gap.last - gap.first)
}

// So many of some even steps, rounded down.
fn part_of(whole: u32, step: usize, steps: usize) -> u32
    requires within { step ≤ steps }
    requires some { 0 < steps }
    ensures value { result ≡ whole * step / steps }
    ensures within { result ≤ whole }
{
    let part = whole as u128 * step as u128 / steps as u128;
    part as u32
}

// The times of the call at a place.
fn spread_times(calls: &[RowCall], gap: Gap, place: usize) -> (u32, u32)
    requires kept { is_aside calls.now ≡ false }
    requires place { place < length calls.now }
    requires gap { IsGapAt calls.now place gap }
    ensures value { result ≡ spread_times calls.now place }
{
    match times_at(calls, place) {
        Some(times) => times,
        None => {
            let time = time_between(calls, gap, place);
            (time, time)
        }
    }
}

// The gap around the next place. Only behind a timed call it is another, so each call is looked at
// once.
fn next_gap(calls: &[RowCall], gap: Gap, place: usize) -> Gap
    requires place { place < length calls.now }
    requires gap { IsGapAt calls.now place gap }
    ensures value { IsGapAt calls.now (place + 1) result }
{
    if !is_timed(calls, place) {
        return gap;
    }
    Gap {
        first: place,
        last: timed_from(calls, place + 1),
    }
}

// A row as a call with these times.
fn call_of(call: RowCall, times: (u32, u32)) -> Call
    ensures value { result ≡ call_of call times }
{
    Call {
        stop: call.stop.unwrap_or(0),
        arrival: times.0,
        departure: times.1,
        pickup: call.pickup,
        drop: call.drop,
    }
}

/// The calls of a trip that is not set aside, each with its times.
pub(crate) fn spread(alloc: Global, calls: &[RowCall]) -> Result<Vec<Call>, NoMemory>
    requires kept { is_aside calls.now ≡ false }
    ensures value { IfOk result (λ list. list.items ≡ calls_of calls.now) }
{
    let mut list = Vec::new(alloc);
    let mut gap = Gap {
        first: 0,
        last: timed_from(calls, 0),
    };
    for place in 0..calls.len() {
        let times = spread_times(calls, gap, place);
        list.push(call_of(calls[place], times))?;
        gap = next_gap(calls, gap, place);
    }
    Ok(list)
}
