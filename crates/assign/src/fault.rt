//! Why a demand was not assigned.

ghost use Rattle.std.specs.Prelude.{◌≡◌};
ghost use Rattle.assign.specs.declared.fault.AssignFault.TheVariants as fault;

use std::alloc::AllocError;

/// Why a demand was not assigned.
#[derive(Clone, Copy, Debug, Drop, PartialEq, Eq)]
pub enum AssignFault {
    /// No way leads from a zone with demand to its destination. Both are numbers of zones.
    Unreachable { origin: u32, destination: u32 },
    /// The visitor failed, and counted it.
    VisitorFailed,
    NoMemory,
}

impl From<AllocError> for AssignFault {
    ghost from_gives = { λ _ found. found ≡ fault.NoMemory };

    fn from(_error: AllocError) -> AssignFault {
        AssignFault::NoMemory
    }
}
