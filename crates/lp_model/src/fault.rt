//! Why numbers make no network.

ghost use Rattle.std.specs.Prelude.{◌≡◌};
ghost use Rattle.lp_model.specs.declared.fault.NetFault.TheVariants.{NoMemory};

use std::alloc::AllocError;

/// A limit of a network. docs/FORMATS.md has their values.
#[derive(Clone, Copy, Debug, Drop, PartialEq, Eq)]
pub enum Limit {
    Nodes,
    Arcs,
    K,
    Cost,
    Weight,
}

/// A fault of a network. An `arc` is the number of the faulty arc.
#[derive(Clone, Copy, Debug, Drop, PartialEq, Eq)]
pub enum NetFault {
    /// `count` is above the limit.
    Range { limit: Limit, count: u128 },
    /// The arc leaves or enters a node that is not there. Without an arc, a destination is not there.
    NodeOutside { arc: Option<u32>, node: u128 },
    /// The arc costs 0 ticks.
    ZeroCost { arc: u32 },
    /// The arc is boarded and has the weight 0.
    ZeroWeight { arc: u32 },
    /// The arc's tail is below the tail of the arc before.
    NotGrouped { arc: u32 },
    NoMemory,
}

impl From<AllocError> for NetFault {
    ghost from_gives = { λ _ fault. fault ≡ NoMemory };

    fn from(_error: AllocError) -> NetFault {
        NetFault::NoMemory
    }
}
