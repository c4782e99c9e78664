//! A visitor in memory.

ghost use Rattle.std.specs.Prelude.{◌≡◌, ◌++◌, ◌∷◌, [], Some, IfOk, OnErr, OnOk};
ghost use Rattle.assign.specs.Visits.{visit_of};

use crate::Visitor;
use desk_io::{Counted, Failed};
use label_setting::Workspace;
use loading::Loads;
use lp_model::Network;
use std::alloc::{AllocError, Global};
use std::marker::Model;

/// A destination that was shown, with what was found for it.
#[derive(Drop)]
pub struct Shown {
    pub dest: u32,
    pub demand: Vec<u64>,
    pub labels: Vec<u64>,
    pub volumes: Vec<u64>,
    pub waits: Vec<u128>,
}

impl Model for Shown {
    ghost use Rattle.assign.specs.Visits.{Visit, visit_of};

    ghost Value = { Visit };

    ghost view = { λ s. visit_of s.dest s.demand.items s.labels.items s.volumes.items s.waits.items };
}

/// Keeps what it is shown, or fails each time.
#[derive(Drop)]
pub struct Album {
    alloc: Global,
    shown: Vec<Shown>,
    fails: bool,
    faults: u64,
}

impl Album {
    /// An empty album.
    pub fn new(alloc: Global, fails: bool) -> Album {
        Album {
            alloc,
            shown: Vec::new(alloc),
            fails,
            faults: 0,
        }
    }

    /// What was shown so far.
    pub fn shown(&self) -> &[Shown] {
        &self.shown
    }

    // Keeps a destination.
    fn keep(
        &mut self,
        dest: u32,
        g: &[u64],
        ws: &Workspace,
        loads: &Loads,
    ) -> Result<(), AllocError>
        ensures kept { OnOk result (self.new.shown.items ≡ self.old.shown.items
            ++ visit_of dest g.now ws.now.labels loads.now.volumes loads.now.waits ∷ []) }
        ensures unchanged { OnErr result (self.new.shown.items ≡ self.old.shown.items) }
        ensures faults { self.new.faults ≡ self.old.faults }
    {
        let shown = shown_of(self.alloc, dest, g, ws, loads)?;
        self.shown.push(shown)?;
        Ok(())
    }
}

// A destination with what was found for it.
fn shown_of(
    alloc: Global,
    dest: u32,
    g: &[u64],
    ws: &Workspace,
    loads: &Loads,
) -> Result<Shown, AllocError>
    ensures value { IfOk result (λ shown. shown
        ≡ visit_of dest g.now ws.now.labels loads.now.volumes loads.now.waits) }
{
    Ok(Shown {
        dest,
        demand: g.to_vec(alloc)?,
        labels: ws.labels().to_vec(alloc)?,
        volumes: loads.volumes().to_vec(alloc)?,
        waits: loads.waits().to_vec(alloc)?,
    })
}

impl Counted for Album {
    ghost count = { λ a. a.faults };

    fn faults(&self) -> u64 {
        self.faults
    }
}

impl Visitor for Album {
    ghost visits = { λ a. Some a.shown.items };

    fn visit(
        &mut self,
        _net: &Network,
        dest: u32,
        g: &[u64],
        ws: &Workspace,
        loads: &Loads,
    ) -> Result<(), Failed> {
        if self.fails || self.keep(dest, g, ws, loads).is_err() {
            self.faults = self.faults.saturating_add(1);
            return Err(Failed);
        }
        Ok(())
    }
}
