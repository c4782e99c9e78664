//! The calls of the trips of trips.txt, from the rows of stop_times.txt as they stand in the file.

ghost use Rattle.std.specs.Prelude.{◌≡◌, ◌≤◌, ◌+◌, ◌++◌, ◌∷◌, [], All, IfErr, IfOk, OnOk, drop, flat_map, is_some, length, option_map};
ghost use Rattle.std.specs.List.{prefix_len};
ghost use Rattle.std.specs.List.Sorted.{IsNonDecreasingBy};
ghost use Rattle.std.specs.Vec.{vec_items};
ghost use Rattle.feed_reader.specs.CallFaults.{HasNoCallFault, IsFirstCallFault};
ghost use Rattle.feed_reader.specs.StopTimes.{in_sequence};
ghost use Rattle.feed_reader.specs.Stretches.{IsWithin, calls_on, is_stretch_of, rows_on, stretch_trip};
ghost use Rattle.feed_reader.specs.TimesRise.{TimesRise};
ghost use Rattle.feed_reader.specs.TripCalls.{faults_of_trips, kept_of, list_kept, lists_of};

use crate::call_fault::CallFault;
use crate::call_lists::CallLists;
use crate::call_rows::{CallRows, Stretch};
use crate::calls::read_calls;
use crate::order::{group_by_trip, order_by_sequence};
use crate::row_call::RowCall;
use crate::timetable::Call;
use gtfs_rows::NoMemory;
use std::alloc::Global;

/// Which trips of trips.txt are not set aside, and the calls of each of these, in order.
#[derive(Drop)]
pub(crate) struct TripCalls {
    pub kept: Vec<bool>,
    pub lists: CallLists,
}

impl TripCalls {
    // Appends a trip by its calls, None where it is set aside.
    fn push(&mut self, read: Option<Vec<Call>>) -> Result<(), NoMemory>
        ensures kept { OnOk result (self.new.kept.items ≡ self.old.kept.items ++ is_some read ∷ []) }
        ensures lists { OnOk result (
            self.new.lists ≡ self.old.lists ++ list_kept (option_map vec_items read)
            ) }
    {
        self.kept.push(read.is_some())?;
        match read {
            None => Ok(()),
            Some(calls) => self.lists.push(calls),
        }
    }
}

// The end of the stretches of this trip that begin at a place.
fn end_of(stretches: &[Stretch], start: usize, trip: u32) -> usize
    requires start { start ≤ length stretches.now }
    ensures value { result ≡ start + prefix_len (is_stretch_of trip) (drop start stretches.now) }
    ensures within { result ≤ length stretches.now }
{
    for place in start..stretches.len() {
        if stretches[place].trip != trip {
            return place;
        }
    }
    stretches.len()
}

// The calls of these stretches by sequence.
fn calls_by_sequence(
    alloc: Global,
    calls: &[RowCall],
    stretches: &[Stretch],
) -> Result<Vec<RowCall>, NoMemory>
    requires within { All (IsWithin (length calls.now)) stretches.now }
    ensures value { IfOk result
        (λ found. found.items ≡ in_sequence (flat_map (calls_on calls.now) stretches.now)) }
{
    let mut found = Vec::new(alloc);
    for stretch in stretches {
        append_calls(&mut found, calls, *stretch)?;
    }
    order_by_sequence(&mut found)?;
    Ok(found)
}

// Appends the calls of a stretch.
fn append_calls(
    found: &mut Vec<RowCall>,
    calls: &[RowCall],
    stretch: Stretch,
) -> Result<(), NoMemory>
    requires within { IsWithin (length calls.now) stretch }
    ensures ok { OnOk result (found.new.items ≡ found.old.items ++ calls_on calls.now stretch) }
{
    found.extend_from_slice(&calls[stretch.start..stretch.end])?;
    Ok(())
}

// The calls of so many trips from stretches that stand by trip.
fn read_groups(
    alloc: Global,
    trips: u32,
    calls: &[RowCall],
    stretches: &[Stretch],
) -> Result<TripCalls, CallFault>
    requires sorted { IsNonDecreasingBy stretch_trip stretches.now }
    requires within { All (IsWithin (length calls.now)) stretches.now }
    ensures kept { IfOk result
        (λ found. found.kept.items ≡ kept_of (rows_on calls.now stretches.now) trips) }
    ensures lists { IfOk result
        (λ found. found.lists ≡ lists_of (rows_on calls.now stretches.now) trips) }
    ensures rising { IfOk result (λ found. All TimesRise found.lists) }
    ensures faultless { OnOk result
        (HasNoCallFault (faults_of_trips (rows_on calls.now stretches.now) trips)) }
    ensures refused { IfErr result
        (IsFirstCallFault (faults_of_trips (rows_on calls.now stretches.now) trips)) }
{
    let mut found = TripCalls {
        kept: Vec::new(alloc),
        lists: CallLists::new(alloc),
    };
    let mut start = 0;
    for trip in 0..trips {
        let end = end_of(stretches, start, trip);
        let list = calls_by_sequence(alloc, calls, &stretches[start..end])?;
        let read = read_calls(alloc, list.as_slice())?;
        found.push(read)?;
        start = end;
    }
    Ok(found)
}

/// The calls of so many trips of trips.txt from the rows of stop_times.txt in file order. Rows of
/// other trips are passed over.
///
/// # Refusals
///
/// The first fault of the trips, one trip after the other. `NoMemory` may come in its place.
pub(crate) fn read_trips(alloc: Global, trips: u32, rows: CallRows) -> Result<TripCalls, CallFault>
    ensures kept { IfOk result (λ found. found.kept.items ≡ kept_of rows trips) }
    ensures lists { IfOk result (λ found. found.lists ≡ lists_of rows trips) }
    ensures rising { IfOk result (λ found. All TimesRise found.lists) }
    ensures faultless { OnOk result (HasNoCallFault (faults_of_trips rows trips)) }
    ensures refused { IfErr result (IsFirstCallFault (faults_of_trips rows trips)) }
{
    let (calls, mut stretches) = rows.into_parts()?;
    group_by_trip(&mut stretches)?;
    read_groups(alloc, trips, calls.as_slice(), stretches.as_slice())
}
