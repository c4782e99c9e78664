//! Why a report was not written whole.

ghost use Rattle.std.specs.Prelude.{◌≡◌};
ghost use Rattle.line_report.specs.declared.fault.ReportFault.TheVariants as fault;

use desk_io::WriteFault;
use std::alloc::AllocError;

/// Why a report was not written whole.
#[derive(Clone, Copy, Debug, Drop, PartialEq, Eq)]
pub enum ReportFault {
    /// The sink failed after so many bytes of the report.
    WriteFault { sent: usize },
    NoMemory,
}

impl From<AllocError> for ReportFault {
    ghost from_gives = { λ _ found. found ≡ fault.NoMemory };

    fn from(_error: AllocError) -> ReportFault {
        ReportFault::NoMemory
    }
}

impl From<WriteFault> for ReportFault {
    ghost from_gives = { λ from found. found ≡ fault.WriteFault from.sent };

    fn from(error: WriteFault) -> ReportFault {
        ReportFault::WriteFault { sent: error.sent }
    }
}
