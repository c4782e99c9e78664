//! A certificate whose lines are good, to be judged.

ghost use Rattle.std.specs.Prelude.{◌≡◌, ◌==◌, sum, if◌then◌else◌};
ghost use Rattle.definitions.specs.Plan.{cost_of_plan};
ghost use Rattle.definitions.specs.Dual.{bound_of_labels};
ghost use Rattle.certificate.specs.Spelling.{network_of};
ghost use Rattle.certificate.specs.Valid.{verdict_of};

mod conservation;
mod labels;
mod waits;

use crate::checking::Verdict;
use lp_model::{Network, bound_of, cost_of, slack};
use std::marker::Model;

/// A problem, and the labels, volumes and waits that are claimed for it.
#[derive(Drop)]
pub struct Claim {
    pub network: Network,
    pub destination: u32,
    pub units: u64,
    pub demand: Vec<u64>,
    pub labels: Vec<u64>,
    pub volumes: Vec<u64>,
    pub waits: Vec<u128>,
}

impl Model for Claim {
    ghost use Rattle.certificate.specs.Spelling.{Certificate};

    ghost Value = { Certificate };

    ghost use Rattle.certificate.specs.Claims.{certificate_of_claim, IsClaim};

    ghost view = { certificate_of_claim };

    ghost invariant = { IsClaim };
}

impl Claim {
    /// What the claim shows where it holds.
    pub fn verdict(&self) -> Verdict
        ensures value { result ≡ verdict_of self.now }
    {
        Verdict {
            units: self.units(),
            cost: self.cost(),
            bound: self.bound(),
            slack: self.slack(),
        }
    }

    // The units that are assigned.
    fn units(&self) -> u64
        ensures value { result ≡ sum self.now.demand }
    {
        self.units
    }

    // The cost of the volumes and waits.
    fn cost(&self) -> u128
        ensures value { result ≡ cost_of_plan (network_of self.now) self.now.volumes self.now.waits }
    {
        cost_of(&self.network, &self.volumes, &self.waits)
    }

    // The bound of the labels.
    fn bound(&self) -> u128
        ensures value { result ≡ bound_of_labels self.now.demand self.now.labels }
    {
        bound_of(&self.demand, &self.labels)
    }

    // The slack of an assignment of these units to one destination.
    fn slack(&self) -> u128
        ensures value { result ≡ (verdict_of self.now).slack }
    {
        let net = &self.network;
        let destinations = destinations_of(self.units);
        slack(
            net.boarding_stops(),
            self.units,
            net.longest_wait(),
            destinations,
        )
    }
}

// How many destinations have demand, where all units go to one.
fn destinations_of(units: u64) -> u32
    ensures value { result ≡ (if units == 0 then 0 else 1) }
{
    if units == 0 { 0 } else { 1 }
}

#[cfg(test)]
mod tests;
