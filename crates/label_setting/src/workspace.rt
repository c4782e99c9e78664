//! Room for the labels of one destination after another.

ghost use Rattle.std.specs.Prelude.{◌≡◌, ◌<◌, ◌≤◌, All, IfOk};
ghost use Rattle.definitions.specs.declared.limits.TheConstants.{LABEL_LIMIT};
ghost use Rattle.definitions.specs.Reach.{IsReach};
ghost use Rattle.definitions.specs.Labels.{SolvesLabels, IsOrder};
ghost use Rattle.definitions.specs.Dual.{IsDualFeasible};
ghost use Rattle.label_setting.specs.Workspace.{unused, IsRoomFor};

use crate::settling::Settling;
use crate::solving::solve;
use lp_model::Network;
use std::alloc::{AllocError, Global};
use std::marker::Model;

/// Room for the labels of a network, and what was found last.
#[derive(Drop)]
pub struct Workspace {
    nodes: u32,
    arcs: u32,
    state: Settling,
}

impl Model for Workspace {
    ghost use Rattle.label_setting.specs.Workspace.{WorkspaceData, shown, IsReady};

    ghost Value = { WorkspaceData };

    ghost view = { λ w. shown w.nodes w.arcs w.state };

    ghost invariant = { λ w. IsReady w.nodes w.arcs w.state };
}

impl Workspace {
    /// Room for the labels of a network, in which nothing was found. It is used again for each
    /// destination, also of another network with as many nodes and arcs.
    ///
    /// # Refusals
    ///
    /// `AllocError` where there is no memory.
    pub fn new(alloc: Global, net: &Network) -> Result<Workspace, AllocError>
        ensures value { IfOk result (λ workspace. workspace ≡ unused net.now) }
    {
        Ok(Workspace {
            nodes: net.nodes(),
            arcs: net.arcs(),
            state: Settling::new(alloc, net)?,
        })
    }

    /// The labels that were found last, one a node, in ticks (1/1000 second).
    pub fn labels(&self) -> &[u64]
        ensures value { result.now ≡ self.now.labels }
    {
        &self.state.labels
    }

    /// For each node whether it reaches the destination.
    pub fn reached(&self) -> &[bool]
        ensures value { result.now ≡ self.now.reached }
    {
        &self.state.reached
    }

    /// The nodes that reach the destination, once each, by label not falling, ties by number.
    pub fn order(&self) -> &[u32]
        ensures value { result.now ≡ self.now.order }
    {
        &self.state.order[..self.state.settled as usize]
    }
}

/// Finds the labels to `dest`, in ticks: for each node that reaches it the greatest whole number
/// that its arcs permit, and for the others the greatest label of those that do. It takes no memory.
///
/// The method is that of Spiess and Florian (1989): nodes are settled by label, and a boarding arc
/// joins those of its tail in the order of what it leads to.
#[tactic(auto, using(definitions::proofs::LabelLemmas::labels_dual))]
pub fn labels(net: &Network, dest: u32, ws: &mut Workspace)
    requires room { IsRoomFor net.now ws.old }
    requires there { dest < net.now.nodes }
    ensures room { IsRoomFor net.now ws.new }
    ensures reach { IsReach net.now dest ws.new.reached }
    ensures labels { SolvesLabels net.now dest ws.new.reached ws.new.labels }
    ensures order { IsOrder ws.new.reached ws.new.labels ws.new.order }
    ensures dual { IsDualFeasible net.now dest ws.new.labels }
    ensures within { All (λ label. label ≤ LABEL_LIMIT) ws.new.labels }
{
    net.rules();
    solve(net, dest, &mut ws.state);
}

#[cfg(test)]
mod tests;
