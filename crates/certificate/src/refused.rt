//! Why a text is no valid certificate.

ghost use Rattle.std.specs.Prelude.{◌≡◌};
ghost use Rattle.certificate.specs.Limits.{greatest};

use definitions::{
    ARC_LIMIT, COST_LIMIT, K_LIMIT, LABEL_LIMIT, NODE_LIMIT, UNIT_LIMIT, VOLUME_LIMIT, WAIT_LIMIT,
    WEIGHT_LIMIT,
};
use lp_model::NetFault;

/// A limit of a text. docs/FORMATS.md has their values.
#[derive(Clone, Copy, Debug, Drop, PartialEq, Eq)]
pub enum Limit {
    Nodes,
    Arcs,
    K,
    Cost,
    Weight,
    Units,
    Label,
    Volume,
    Wait,
}

impl Limit {
    /// The greatest value within the limit.
    pub fn greatest(self) -> u128
        ensures value { result ≡ greatest self }
    {
        match self {
            Limit::Nodes => NODE_LIMIT as u128,
            Limit::Arcs => ARC_LIMIT as u128,
            Limit::K => K_LIMIT as u128,
            Limit::Cost => COST_LIMIT as u128,
            Limit::Weight => WEIGHT_LIMIT as u128,
            Limit::Units => UNIT_LIMIT as u128,
            Limit::Label => LABEL_LIMIT as u128,
            Limit::Volume => VOLUME_LIMIT as u128,
            Limit::Wait => WAIT_LIMIT,
        }
    }
}

/// Why a text is refused: the first faulty line decides, and then the first condition that fails.
///
/// An `arc` is the number of an arc, and a `node` that of a node. Volumes are in units, labels in
/// ticks, waits in ticks times units.
#[derive(Clone, Copy, Debug, Drop, PartialEq, Eq)]
pub enum Refused {
    /// The byte at this place, counted from 0, is wrong, or the text ends there too early.
    Grammar {
        at: u64,
    },
    /// The demand of the node and the volumes into it (`due`) differ from the volumes out of it (`sent`).
    NotConserved {
        node: u128,
        due: u128,
        sent: u128,
    },
    /// `K` times the volume of the boarding arc (`left`) is above its weight times the wait at its tail (`right`).
    WaitShort {
        arc: u32,
        left: u128,
        right: u128,
    },
    /// The label of the node is too high. With an arc: it (`left`) is above what that free arc leads to
    /// (`right`). Without one: the weighted savings of its boarding arcs (`left`) are above `K` (`right`),
    /// or, at the destination, it (`left`) is not 0 (`right`).
    DualBroken {
        node: u128,
        arc: Option<u32>,
        left: u128,
        right: u128,
    },
    /// `count` is above the limit.
    Range {
        limit: Limit,
        count: u128,
    },
    /// An arc or the destination breaks a rule of networks. It is never a `Range` and never a `NoMemory`.
    Arc(NetFault),
    NoMemory,
}
