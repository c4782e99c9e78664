//! Why there is no network of a city.

ghost use Rattle.std.specs.Prelude.{◌≡◌};
ghost use Rattle.network.specs.declared.fault.BuildFault.TheVariants as fault;

use gtfs_rows::NoMemory;
use std::alloc::{AllocError, AllocFailed};

/// A limit of the network of a city. docs/FORMATS.md has their values.
#[derive(Clone, Copy, Debug, Drop, PartialEq, Eq)]
pub enum Limit {
    /// Thousandths of departures of a kept line.
    Weight,
    Nodes,
    Arcs,
    /// Ticks of an arc.
    Cost,
}

/// Why there is no network.
#[derive(Clone, Copy, Debug, Drop, PartialEq, Eq)]
pub enum BuildFault {
    /// `count` is above the limit.
    Range { limit: Limit, count: u128 },
    NoMemory,
}

impl From<NoMemory> for BuildFault {
    ghost from_gives = { λ _ found. found ≡ fault.NoMemory };

    fn from(_error: NoMemory) -> BuildFault {
        BuildFault::NoMemory
    }
}

impl From<AllocError> for BuildFault {
    ghost from_gives = { λ _ found. found ≡ fault.NoMemory };

    fn from(_error: AllocError) -> BuildFault {
        BuildFault::NoMemory
    }
}

impl<T: Drop> From<AllocFailed<T>> for BuildFault {
    ghost from_gives = { λ _ found. found ≡ fault.NoMemory };

    fn from(_failed: AllocFailed<T>) -> BuildFault {
        BuildFault::NoMemory
    }
}
