//! Why a feed is refused.

ghost use Rattle.std.specs.Prelude.{◌≡◌};
ghost use Rattle.feed_reader.specs.Handed.{of_sheet};
ghost use Rattle.feed_reader.specs.declared.fault.FeedFault.TheVariants as fault;

use gtfs_rows::{Name, Place, RowFault};
use std::alloc::{AllocError, AllocFailed};

/// The first fault of a feed, in the order of its files, their rows and the rules of each.
#[derive(Drop)]
pub enum FeedFault {
    /// A file is not there that has to be. With its name.
    MissingFile(Name),
    /// A sheet or a field of it is refused.
    Row(RowFault),
    /// An id, or the sequence of a call of a trip, stood before.
    DoubleId(Place),
    /// An id names nothing.
    UnknownId(Place),
    /// A call departs before it arrives, or arrives before the call before it departs.
    TimesFall(Place),
    /// A headway is 0 or past its limit, or a band ends before it begins.
    BadHeadway(Place),
    NoMemory,
}

impl From<gtfs_rows::NoMemory> for FeedFault {
    ghost from_gives = { λ _ e. e ≡ fault.NoMemory };

    fn from(_error: gtfs_rows::NoMemory) -> FeedFault {
        FeedFault::NoMemory
    }
}

impl From<AllocError> for FeedFault {
    ghost from_gives = { λ _ e. e ≡ fault.NoMemory };

    fn from(_error: AllocError) -> FeedFault {
        FeedFault::NoMemory
    }
}

impl<T: Drop> From<AllocFailed<T>> for FeedFault {
    ghost from_gives = { λ _ e. e ≡ fault.NoMemory };

    fn from(_failed: AllocFailed<T>) -> FeedFault {
        FeedFault::NoMemory
    }
}

impl From<RowFault> for FeedFault {
    ghost from_gives = { λ found e. e ≡ of_sheet found };

    fn from(found: RowFault) -> FeedFault {
        match found {
            RowFault::NoMemory => FeedFault::NoMemory,
            other => FeedFault::Row(other),
        }
    }
}
