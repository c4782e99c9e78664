//! A visitor that keeps nothing.

ghost use Rattle.std.specs.Prelude.{◌≡◌, ◌≤◌, [], None, is_ok, true};

use crate::visitor::Visitor;
use desk_io::{Counted, Failed};
use label_setting::Workspace;
use loading::Loads;
use lp_model::Network;

/// Is shown each destination, keeps nothing of it and never fails.
#[derive(Drop)]
pub(crate) struct Unshown;

impl Counted for Unshown {
    ghost count = { λ _. 0 };

    fn faults(&self) -> u64 {
        0
    }
}

impl Visitor for Unshown {
    ghost visits = { λ _. None };

    fn visit(
        &mut self,
        _net: &Network,
        _dest: u32,
        _g: &[u64],
        _ws: &Workspace,
        _loads: &Loads,
    ) -> Result<(), Failed> {
        Ok(())
    }
}
