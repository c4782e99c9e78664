//! The stretches of rows by trip, and the calls of one trip by sequence.

ghost use Rattle.std.specs.Prelude.{◌≡◌, ℕ, OnOk, filter, true};
ghost use Rattle.std.specs.List.Sorted.{IsNonDecreasingBy, IsPermutation};
ghost use Rattle.feed_reader.specs.StopTimes.{in_sequence};
ghost use Rattle.feed_reader.specs.Stretches.{is_stretch_of, stretch_trip};
ghost use Rattle.feed_reader.specs.TripCalls.{sequence_of};

use crate::call_rows::Stretch;
use crate::row_call::RowCall;
use gtfs_rows::NoMemory;

/// A row of stop_times.txt, with the number of its trip among the rows of trips.txt.
#[derive(Clone, Copy, Debug, Drop)]
pub(crate) struct TripCall {
    pub trip: u32,
    pub call: RowCall,
}

/// Puts the stretches in the order of their trips. Those of one trip stay as they stand.
pub(crate) fn group_by_trip(stretches: &mut Vec<Stretch>) -> Result<(), NoMemory>
    ensures sorted { OnOk result (IsNonDecreasingBy stretch_trip stretches.new.items) }
    ensures each { OnOk result (
        (trip : ℕ) → filter (is_stretch_of trip) stretches.new.items
        ≡ filter (is_stretch_of trip) stretches.old.items
        ) }
    ensures same { IsPermutation stretches.old.items stretches.new.items }
{
    stretches.sort_by_key(|stretch| stretch.trip)?;
    Ok(())
}

// Whether the calls stand by sequence.
fn stand_by_sequence(calls: &[RowCall]) -> bool
    ensures sorted { result ≡ true → IsNonDecreasingBy sequence_of calls.now }
{
    for place in 1..calls.len() {
        if calls[place].sequence < calls[place - 1].sequence {
            return false;
        }
    }
    true
}

/// Puts the calls in the order of their sequences. Those of one sequence stay as they stand.
pub(crate) fn order_by_sequence(calls: &mut Vec<RowCall>) -> Result<(), NoMemory>
    ensures value { OnOk result (calls.new.items ≡ in_sequence calls.old.items) }
{
    if stand_by_sequence(calls.as_slice()) {
        return Ok(());
    }
    calls.sort_by_key(|call| call.sequence)?;
    Ok(())
}
