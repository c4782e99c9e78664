//! Why a feed has no lines.

ghost use Rattle.std.specs.Prelude.{◌≡◌};
ghost use Rattle.headways.specs.declared.fault.LineFault.TheVariants as fault;

use gtfs_rows::NoMemory;
use std::alloc::{AllocError, AllocFailed};

/// A limit of a line.
#[derive(Clone, Copy, Debug, Drop, PartialEq, Eq)]
pub enum Limit {
    /// 4,294,967,295 thousandths of departures.
    Weight,
    /// 1,000,000,000 ticks of a ride or a dwell.
    Cost,
}

/// The first fault of the lines of a feed.
#[derive(Clone, Copy, Debug, Drop, PartialEq, Eq)]
pub enum LineFault {
    /// `count` is above the limit.
    Range { limit: Limit, count: u128 },
    NoMemory,
}

impl From<NoMemory> for LineFault {
    ghost from_gives = { λ _ found. found ≡ fault.NoMemory };

    fn from(_error: NoMemory) -> LineFault {
        LineFault::NoMemory
    }
}

impl From<AllocError> for LineFault {
    ghost from_gives = { λ _ found. found ≡ fault.NoMemory };

    fn from(_error: AllocError) -> LineFault {
        LineFault::NoMemory
    }
}

impl<T: Drop> From<AllocFailed<T>> for LineFault {
    ghost from_gives = { λ _ found. found ≡ fault.NoMemory };

    fn from(_failed: AllocFailed<T>) -> LineFault {
        LineFault::NoMemory
    }
}
