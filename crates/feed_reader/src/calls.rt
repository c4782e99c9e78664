//! The calls of one trip from its rows by sequence.

ghost use Rattle.std.specs.Prelude.{◌≡◌, ◌||◌, IfErr, IfOk, IfSome, OnOk, is_none, option_map};
ghost use Rattle.std.specs.List.{list_any};
ghost use Rattle.std.specs.Vec.{vec_items};
ghost use Rattle.feed_reader.specs.CallFaults.{HasNoCallFault, IsFirstCallFault, kept_calls};
ghost use Rattle.feed_reader.specs.Calls.{is_aside, trip_call_faults};
ghost use Rattle.feed_reader.specs.TimesRise.{TimesRise};

use crate::call_fault::CallFault;
use crate::call_times::is_timed;
use crate::falls::{first_double, first_fall};
use crate::row_call::RowCall;
use crate::spreading::spread;
use crate::timetable::Call;
use std::alloc::Global;

// Whether a row is at no stop.
fn misses_stop(calls: &[RowCall]) -> bool
    ensures value { result ≡ list_any (λ call. is_none call.stop) calls.now }
{
    calls.iter().any(|call| call.stop.is_none())
}

// Whether the trip is set aside.
fn is_aside(calls: &[RowCall]) -> bool
    ensures value { result ≡ is_aside calls.now }
{
    if calls.len() < 2 {
        return true;
    }
    misses_stop(calls) || !is_timed(calls, 0) || !is_timed(calls, calls.len() - 1)
}

/// The calls of a trip from its rows by sequence, None where the trip is set aside. Their times do
/// not fall.
///
/// # Refusals
///
/// The first fault of the trip: of a sequence that stood before, or else, where the trip is not set
/// aside, of times that fall. `NoMemory` may come in its place.
pub(crate) fn read_calls(alloc: Global, calls: &[RowCall]) -> Result<Option<Vec<Call>>, CallFault>
    ensures value { IfOk result (λ read. option_map vec_items read ≡ kept_calls calls.now) }
    ensures rising { IfOk result (λ read. IfSome read (λ list. TimesRise list.items)) }
    ensures faultless { OnOk result (HasNoCallFault (λ rows. trip_call_faults rows calls.now)) }
    ensures refused { IfErr result (IsFirstCallFault (λ rows. trip_call_faults rows calls.now)) }
{
    if let Some(found) = first_double(calls) {
        return Err(found);
    }
    if is_aside(calls) {
        return Ok(None);
    }
    if let Some(found) = first_fall(calls) {
        return Err(found);
    }
    let list = spread(alloc, calls)?;
    Ok(Some(list))
}
