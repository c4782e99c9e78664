//! The times of the calls of a trip, whose rows stand by sequence.

ghost use Rattle.std.specs.Prelude.{◌≡◌, unwrap_or};
ghost use Rattle.feed_reader.specs.Calls.{arrival_at, departure_at, is_timed, timed_from, times_at, times_of};

use crate::row_call::RowCall;

/// The times of a row. A single time is both its arrival and its departure.
pub(crate) fn times_of(call: RowCall) -> Option<(u32, u32)>
    ensures value { result ≡ times_of call }
{
    match (call.arrival, call.departure) {
        (None, None) => None,
        (Some(arrival), None) => Some((arrival, arrival)),
        (None, Some(departure)) => Some((departure, departure)),
        (Some(arrival), Some(departure)) => Some((arrival, departure)),
    }
}

/// The times of the call at a place.
pub(crate) fn times_at(calls: &[RowCall], place: usize) -> Option<(u32, u32)>
    ensures value { result ≡ times_at calls.now place }
{
    match calls.get(place) {
        None => None,
        Some(call) => times_of(*call),
    }
}

/// Whether the call at a place is timed.
pub(crate) fn is_timed(calls: &[RowCall], place: usize) -> bool
    ensures value { result ≡ is_timed calls.now place }
{
    times_at(calls, place).is_some()
}

/// The arrival at a place, 0 where there is none.
pub(crate) fn arrival_at(calls: &[RowCall], place: usize) -> u32
    ensures value { result ≡ arrival_at calls.now place }
{
    match times_at(calls, place) {
        None => 0,
        Some(times) => times.0,
    }
}

/// The departure at a place, 0 where there is none.
pub(crate) fn departure_at(calls: &[RowCall], place: usize) -> u32
    ensures value { result ≡ departure_at calls.now place }
{
    match times_at(calls, place) {
        None => 0,
        Some(times) => times.1,
    }
}

/// The first timed place from this one on, 0 where there is none.
pub(crate) fn timed_from(calls: &[RowCall], place: usize) -> usize
    ensures value { result ≡ unwrap_or (timed_from calls.now place) 0 }
{
    for next in place..calls.len() {
        if is_timed(calls, next) {
            return next;
        }
    }
    0
}
