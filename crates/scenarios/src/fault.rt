//! Why a scenario is refused.

ghost use Rattle.std.specs.Prelude.{◌≡◌};
ghost use Rattle.scenarios.specs.Handed.{of_sheet};
ghost use Rattle.scenarios.specs.declared.fault.ScenarioFault.TheVariants as fault;

use gtfs_rows::{Place, RowFault};
use std::alloc::{AllocError, AllocFailed};

/// The first fault of a scenario. Its places are in the file `scenario`.
#[derive(Drop)]
pub enum ScenarioFault {
    /// The sheet is refused.
    Row(RowFault),
    /// The target is no route or no stop of the feed.
    UnknownId(Place),
    /// There is no such edit, or the target or the value is none that the edit may have.
    BadValue(Place),
    NoMemory,
}

impl From<gtfs_rows::NoMemory> for ScenarioFault {
    ghost from_gives = { λ _ e. e ≡ fault.NoMemory };

    fn from(_error: gtfs_rows::NoMemory) -> ScenarioFault {
        ScenarioFault::NoMemory
    }
}

impl From<AllocError> for ScenarioFault {
    ghost from_gives = { λ _ e. e ≡ fault.NoMemory };

    fn from(_error: AllocError) -> ScenarioFault {
        ScenarioFault::NoMemory
    }
}

impl<T: Drop> From<AllocFailed<T>> for ScenarioFault {
    ghost from_gives = { λ _ e. e ≡ fault.NoMemory };

    fn from(_failed: AllocFailed<T>) -> ScenarioFault {
        ScenarioFault::NoMemory
    }
}

impl From<RowFault> for ScenarioFault {
    ghost from_gives = { λ found e. e ≡ of_sheet found };

    fn from(found: RowFault) -> ScenarioFault {
        match found {
            RowFault::NoMemory => ScenarioFault::NoMemory,
            other => ScenarioFault::Row(other),
        }
    }
}
