//! Faults of a sheet and of a field.

ghost use Rattle.std.specs.Prelude.{◌≡◌};
ghost use Rattle.gtfs_rows.specs.declared.row_fault.RowFault.TheVariants.{NoMemory};

use crate::memory;
use crate::place::Place;
use std::alloc::{AllocError, AllocFailed};

/// Why a sheet or a field of it is refused.
#[derive(Drop)]
pub enum RowFault {
    /// The bytes are not UTF-8. Row 0.
    NotUtf8(Place),
    /// There is no record. Row 0.
    NoHeader(Place),
    /// A required column is not in the first record. Row 1, with the column.
    MissingColumn(Place),
    /// The name of a wanted column stands twice in the first record. Row 1, with the column.
    DoubleColumn(Place),
    /// The record has more or fewer fields than the first. With its row.
    RowWidth(Place),
    /// The field is none that its reader accepts. With its row, column and field.
    BadField(Place),
    NoMemory,
}

impl From<memory::NoMemory> for RowFault {
    ghost from_gives = { λ _ fault. fault ≡ NoMemory };

    fn from(_error: memory::NoMemory) -> RowFault {
        RowFault::NoMemory
    }
}

impl From<AllocError> for RowFault {
    ghost from_gives = { λ _ fault. fault ≡ NoMemory };

    fn from(_error: AllocError) -> RowFault {
        RowFault::NoMemory
    }
}

impl<T: Drop> From<AllocFailed<T>> for RowFault {
    ghost from_gives = { λ _ fault. fault ≡ NoMemory };

    fn from(_failed: AllocFailed<T>) -> RowFault {
        RowFault::NoMemory
    }
}
