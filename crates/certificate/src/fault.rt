//! What stops the reading of a line.

ghost use Rattle.std.specs.Prelude.{◌≡◌};
ghost use Rattle.certificate.specs.declared.fault.Fault.TheVariants.{NoMemory};
ghost use Rattle.certificate.specs.Stops.{refusal_of};

use crate::refused::{Limit, Refused};
use lp_model::NetFault;
use std::alloc::AllocError;

/// The first fault of a line. Where it is a wrong byte, no text goes on so.
#[derive(Clone, Copy, Debug, Drop, PartialEq, Eq)]
pub enum Fault {
    /// The number of bytes from the wrong one to the last, 0 where the input ends too early.
    Stop(usize),
    /// `count` is above the limit.
    Range { limit: Limit, count: u128 },
    /// An arc or the destination breaks a rule of networks.
    Arc(NetFault),
    NoMemory,
}

impl From<AllocError> for Fault {
    ghost from_gives = { λ _ fault. fault ≡ NoMemory };

    fn from(_error: AllocError) -> Fault {
        Fault::NoMemory
    }
}

impl Fault {
    /// The refusal of the fault in a text of this length.
    pub fn refusal(self, length: usize) -> Refused
        ensures value { result ≡ refusal_of length self }
    {
        match self {
            Fault::Stop(left) => Refused::Grammar {
                at: length.saturating_sub(left) as u64,
            },
            Fault::Range { limit, count } => Refused::Range { limit, count },
            Fault::Arc(fault) => Refused::Arc(fault),
            Fault::NoMemory => Refused::NoMemory,
        }
    }
}
