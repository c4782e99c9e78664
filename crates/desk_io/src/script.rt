//! Which calls of an object in memory fail, and how many did.

ghost use Rattle.std.specs.Prelude.{◌≡◌, ◌≤◌, IsTrue};
ghost use Rattle.definitions.specs.Causes.{Rose};
ghost use Rattle.desk_io.specs.InMemory.{no_calls, next_fails, with_call};

use std::marker::Model;

/// Numbers the calls from 0. Those whose numbers stand in `failing` are to fail.
#[derive(Drop)]
pub struct Script {
    made: u64,
    faults: u64,
    failing: Vec<u64>,
}

impl Model for Script {
    ghost use Rattle.desk_io.specs.InMemory.{Calls};

    ghost Value = { Calls };

    ghost view = { λ s. record { made = s.made; faults = s.faults; failing = s.failing.items } };
}

impl Script {
    /// No call was made yet.
    pub fn new(failing: Vec<u64>) -> Script
        ensures value { result ≡ no_calls failing.items }
    {
        Script {
            made: 0,
            faults: 0,
            failing,
        }
    }

    /// The number of failed calls.
    pub fn faults(&self) -> u64
        ensures value { result ≡ self.now.faults }
    {
        self.faults
    }

    /// Whether the next call is one that is to fail.
    pub fn next_fails(&self) -> bool
        ensures value { result ≡ next_fails self.now }
    {
        self.failing.contains(&self.made)
    }

    /// Counts a call, and a fault where it failed.
    pub fn count(&mut self, failed: bool)
        ensures value { self.new ≡ with_call self.old failed }
        ensures rose { IsTrue failed → Rose self.old.faults self.new.faults }
        ensures count { self.old.faults ≤ self.new.faults }
    {
        self.made = self.made.saturating_add(1);
        if failed {
            self.faults = self.faults.saturating_add(1);
        }
    }
}
