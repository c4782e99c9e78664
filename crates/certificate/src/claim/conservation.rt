//! Whether the volumes are conserved.

ghost use Rattle.std.specs.Prelude.{◌≡◌, ℕ, ◌<◌, length, MatchOption, OnOk, IfErr};
ghost use Rattle.definitions.specs.Plan.{flow_out_of, due_at};
ghost use Rattle.certificate.specs.Spelling.{network_of};
ghost use Rattle.certificate.specs.Judged.{IsConservedAt, IsUnconserved, IsConserved, IsFirstUnconserved};

use crate::claim::Claim;
use crate::refused::Refused;
use lp_model::{flow_in, flow_out};

impl Claim {
    /// Whether each node but the destination sends on its demand and what flows in. A refusal is
    /// that of the first node that does not.
    pub fn judge_conservation(&self) -> Result<(), Refused>
        ensures ok { OnOk result (IsConserved self.now) }
        ensures refused { IfErr result (IsFirstUnconserved self.now) }
    {
        for node in 0..self.network.nodes() {
            if let Some(refused) = self.conservation_refusal(node) {
                return Err(refused);
            }
        }
        Ok(())
    }

    // The refusal at a node.
    fn conservation_refusal(&self, node: u32) -> Option<Refused>
        requires within { node < self.now.nodes }
        ensures judged { MatchOption result (IsConservedAt self.now node) (IsUnconserved self.now node) }
    {
        if node == self.destination {
            return None;
        }
        let due = self.due(node);
        let sent = self.sent(node);
        if due != sent {
            return Some(Refused::NotConserved {
                node: node as u128,
                due,
                sent,
            });
        }
        None
    }

    // The demand of a node and what flows in.
    fn due(&self, node: u32) -> u128
        requires within { node < self.now.nodes }
        ensures value { result ≡ due_at (network_of self.now) 1 self.now.demand self.now.volumes node }
    {
        self.demand[node as usize] as u128 + flow_in(&self.network, &self.volumes, node)
    }

    // What flows out of a node.
    fn sent(&self, node: u32) -> u128
        requires within { node < self.now.nodes }
        ensures value { result ≡ flow_out_of (network_of self.now) self.now.volumes node }
    {
        flow_out(&self.network, &self.volumes, node)
    }
}
