//! Why the calls of a trip are refused.

ghost use Rattle.std.specs.Prelude.{◌≡◌};
ghost use Rattle.feed_reader.specs.declared.call_fault.CallFault.TheVariants as found;

use std::alloc::{AllocError, AllocFailed};

/// The first fault of the calls of a trip, with the number of its row, counted from 0 behind the
/// header. Where the field of an arrival that falls is empty, its time is that of the departure.
#[derive(Clone, Copy, Debug, Drop)]
pub(crate) enum CallFault {
    /// The sequence stood before in the trip.
    Double(u32),
    /// It arrives before the timed call before it departs.
    ArrivalFalls(u32),
    /// It departs before it arrives.
    DepartureFalls(u32),
    NoMemory,
}

impl From<gtfs_rows::NoMemory> for CallFault {
    ghost from_gives = { λ _ e. e ≡ found.NoMemory };

    fn from(_error: gtfs_rows::NoMemory) -> CallFault {
        CallFault::NoMemory
    }
}

impl From<AllocError> for CallFault {
    ghost from_gives = { λ _ e. e ≡ found.NoMemory };

    fn from(_error: AllocError) -> CallFault {
        CallFault::NoMemory
    }
}

impl<T: Drop> From<AllocFailed<T>> for CallFault {
    ghost from_gives = { λ _ e. e ≡ found.NoMemory };

    fn from(_failed: AllocFailed<T>) -> CallFault {
        CallFault::NoMemory
    }
}
