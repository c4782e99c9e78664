//! Why a table is refused.

ghost use Rattle.std.specs.Prelude.{◌≡◌};
ghost use Rattle.demand.specs.Handed.{of_sheet};
ghost use Rattle.demand.specs.declared.fault.DemandFault.TheVariants as fault;

use gtfs_rows::{Place, RowFault};
use std::alloc::{AllocError, AllocFailed};

/// A limit of a table. docs/FORMATS.md has their values.
#[derive(Clone, Copy, Debug, Drop, PartialEq, Eq)]
pub enum Limit {
    Zones,
    Units,
}

/// The first fault of a table, in the order of its rows and of the fields of each.
#[derive(Drop)]
pub enum DemandFault {
    /// The sheet or a field of it is refused.
    Row(RowFault),
    /// A zone is none of these.
    UnknownZone(Place),
    /// A stop is none of the feed's.
    UnknownStop(Place),
    /// `count` is above the limit.
    Range { limit: Limit, count: u128 },
    NoMemory,
}

impl From<gtfs_rows::NoMemory> for DemandFault {
    ghost from_gives = { λ _ e. e ≡ fault.NoMemory };

    fn from(_error: gtfs_rows::NoMemory) -> DemandFault {
        DemandFault::NoMemory
    }
}

impl From<AllocError> for DemandFault {
    ghost from_gives = { λ _ e. e ≡ fault.NoMemory };

    fn from(_error: AllocError) -> DemandFault {
        DemandFault::NoMemory
    }
}

impl<T: Drop> From<AllocFailed<T>> for DemandFault {
    ghost from_gives = { λ _ e. e ≡ fault.NoMemory };

    fn from(_failed: AllocFailed<T>) -> DemandFault {
        DemandFault::NoMemory
    }
}

impl From<RowFault> for DemandFault {
    ghost from_gives = { λ found e. e ≡ of_sheet found };

    fn from(found: RowFault) -> DemandFault {
        match found {
            RowFault::NoMemory => DemandFault::NoMemory,
            other => DemandFault::Row(other),
        }
    }
}
