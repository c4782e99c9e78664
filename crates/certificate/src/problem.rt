//! A problem: a network, a destination, and the demand of each node.

ghost use Rattle.std.specs.Prelude.{◌≡◌, ℕ, List};

use lp_model::Network;
use std::marker::Model;

/// The demand of each node in units, seen as its list.
#[derive(Drop)]
pub struct Units {
    items: Vec<u64>,
}

impl Model for Units {
    ghost Value = { List ℕ };

    ghost view = { λ units. units.items.items };
}

impl Units {
    /// The demand of these numbers. It takes no memory.
    pub fn new(items: Vec<u64>) -> Units
        ensures value { result ≡ items.items }
    {
        Units { items }
    }

    /// The numbers.
    pub fn as_slice(&self) -> &[u64]
        ensures value { result.now ≡ self.now }
    {
        self.items.as_slice()
    }
}

/// A network, the node to which all travel, and how many units begin at each node.
#[derive(Drop)]
pub struct Problem {
    pub net: Network,
    pub dest: u32,
    pub demand: Units,
}
