//! The calls of each trip.

ghost use Rattle.std.specs.Prelude.{◌≡◌, ◌<◌, ◌++◌, ◌∷◌, [], OnOk, OnErr, length, slice_index_or};
ghost use Rattle.feed_reader.specs.CallCuts.{AreEnds, lists_to, start_at};

use crate::timetable::Call;
use gtfs_rows::NoMemory;
use std::alloc::Global;
use std::marker::Model;

/// A list of calls for each trip: the calls one after the other, and where each list ends.
#[derive(Drop)]
pub(crate) struct CallLists {
    calls: Vec<Call>,
    ends: Vec<usize>,
}

impl Model for CallLists {
    ghost use Rattle.std.specs.Prelude.{List, length};
    ghost use Rattle.feed_reader.specs.CallCuts.{AreEnds, lists_to};
    ghost use Rattle.feed_reader.specs.declared.timetable.Call.{Call};

    ghost Value = { List (List Call) };

    ghost view = { λ l. lists_to 0 l.ends.items l.calls.items };

    ghost invariant = { λ l. AreEnds 0 l.ends.items (length l.calls.items) };
}

impl CallLists {
    /// No lists. It takes no memory.
    pub fn new(alloc: Global) -> CallLists
        ensures value { result ≡ [] }
    {
        CallLists {
            calls: Vec::new(alloc),
            ends: Vec::new(alloc),
        }
    }

    /// Appends a list.
    pub fn push(&mut self, calls: Vec<Call>) -> Result<(), NoMemory>
        ensures ok { OnOk result (self.new ≡ self.old ++ calls.items ∷ []) }
        ensures err { OnErr result (self.new ≡ self.old) }
    {
        let start = self.calls.as_slice().len();
        self.calls.extend_from_slice(calls.as_slice())?;
        let end = self.calls.as_slice().len();
        if self.ends.push(end).is_err() {
            self.calls.truncate(start);
            return Err(NoMemory);
        }
        Ok(())
    }

    /// How many lists it has.
    pub fn len(&self) -> usize
        ensures value { result ≡ length self.now }
    {
        self.ends.as_slice().len()
    }

    /// The list of a trip.
    pub fn get(&self, trip: u32) -> &[Call]
        requires trip { trip < length self.now }
        ensures value { result.now ≡ slice_index_or self.now trip [] }
    {
        list_at(self.calls.as_slice(), self.ends.as_slice(), trip as usize)
    }
}

// Where the list at a place starts.
fn start_at(ends: &[usize], place: usize) -> usize
    requires place { place < length ends.now }
    ensures value { result ≡ start_at ends.now place }
{
    if place == 0 { 0 } else { ends[place - 1] }
}

// The list at a place.
fn list_at<'a>(calls: &'a [Call], ends: &[usize], place: usize) -> &'a [Call]
    requires ends { AreEnds 0 ends.now (length calls.now) }
    requires place { place < length ends.now }
    ensures value { result.now ≡ slice_index_or (lists_to 0 ends.now calls.now) place [] }
{
    let start = start_at(ends, place);
    let end = ends[place];
    &calls[start..end]
}
