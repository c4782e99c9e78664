//! Faults of the calls of a trip, whose rows stand by sequence.

ghost use Rattle.std.specs.Prelude.{◌≡◌, ◌+◌};
ghost use Rattle.feed_reader.specs.CallFaults.{Finds};
ghost use Rattle.feed_reader.specs.Calls.{double_faults, doubles_of, falls_in, falls_of, left_at, times_of};

use crate::call_fault::CallFault;
use crate::call_times::{times_at, times_of};
use crate::row_call::RowCall;

// The fault of a call that has the sequence of the one before it.
fn double_of(before: RowCall, call: RowCall) -> Option<CallFault>
    ensures value { Finds (λ rows. double_faults rows before call) result }
{
    if before.sequence == call.sequence {
        return Some(CallFault::Double(call.row));
    }
    None
}

/// The first fault of a sequence that stood before.
pub(crate) fn first_double(calls: &[RowCall]) -> Option<CallFault>
    ensures value { Finds (λ rows. doubles_of rows calls.now) result }
{
    for place in 1..calls.len() {
        let double = double_of(calls[place - 1], calls[place]);
        if double.is_some() {
            return double;
        }
    }
    None
}

// The first fault of a call where the timed call before it departs at this time.
fn fall_of(left: u32, call: RowCall) -> Option<CallFault>
    ensures value { Finds (λ rows. falls_of rows left call (times_of call)) result }
{
    let Some(times) = times_of(call) else {
        return None;
    };
    if times.0 < left {
        return Some(CallFault::ArrivalFalls(call.row));
    }
    if times.1 < times.0 {
        return Some(CallFault::DepartureFalls(call.row));
    }
    None
}

// The departure of the timed call before the next place, by that before this one.
fn left_behind(calls: &[RowCall], place: usize, left: u32) -> u32
    requires left { left ≡ left_at calls.now place }
    ensures value { result ≡ left_at calls.now (place + 1) }
{
    match times_at(calls, place) {
        None => left,
        Some(times) => times.1,
    }
}

/// The first fault of times that fall.
pub(crate) fn first_fall(calls: &[RowCall]) -> Option<CallFault>
    ensures value { Finds (λ rows. falls_in rows calls.now) result }
{
    let mut left = 0;
    for place in 0..calls.len() {
        let fall = fall_of(left, calls[place]);
        if fall.is_some() {
            return fall;
        }
        left = left_behind(calls, place, left);
    }
    None
}
