//! Totals over the destinations of a demand.

ghost use Rattle.std.specs.Prelude.{◌≡◌, ℕ, List};

use std::marker::Model;

/// The volumes of the arcs, in units (1/1,000,000 trip), seen as a list.
#[derive(Drop)]
pub struct Volumes {
    volumes: Vec<u64>,
}

impl Model for Volumes {
    ghost Value = { List ℕ };

    ghost view = { λ v. v.volumes.items };
}

impl Volumes {
    /// These volumes. It takes no memory.
    pub fn new(volumes: Vec<u64>) -> Volumes
        ensures value { result ≡ volumes.items }
    {
        Volumes { volumes }
    }

    /// The volumes, one for each arc.
    pub fn as_slice(&self) -> &[u64]
        ensures value { result.now ≡ self.now }
    {
        self.volumes.as_slice()
    }
}

/// Totals over the destinations that have demand.
#[derive(Drop)]
pub struct Totals {
    /// The units (1/1,000,000 trip) of the demand.
    pub units: u64,
    /// How many destinations have demand.
    pub destinations: u32,
    /// The costs of the volumes and waits, in ticks times units.
    pub cost: u128,
    /// The bounds of the labels, in ticks times units.
    pub bound: u128,
    /// How far the cost may lie above the bound, in ticks times units.
    pub slack: u128,
    /// The volumes of each arc, added up.
    pub volumes: Volumes,
}

#[cfg(test)]
mod tests {
    use super::{Totals, Volumes};
    use std::test::Fail;

    #[test]
    fn volumes_and_totals_hold_what_they_are_made_of(rt: HostRuntime) -> Result<(), Fail> {
        let volumes = Volumes::new(vec![in rt.alloc(); 3u64, 0, 5]?);
        assert_eq!(rt; volumes.as_slice(), [3, 0, 5].as_slice());
        let totals = Totals {
            units: 8,
            destinations: 2,
            cost: 21,
            bound: 20,
            slack: 4,
            volumes,
        };
        assert_eq!(rt; totals.volumes.as_slice(), [3, 0, 5].as_slice());
        assert_eq!(rt; (totals.units, totals.destinations), (8, 2));
        assert_eq!(rt; (totals.cost, totals.bound, totals.slack), (21, 20, 4));
        Ok(())
    }
}
