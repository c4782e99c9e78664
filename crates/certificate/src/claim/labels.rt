//! Whether the labels are dual feasible.

ghost use Rattle.std.specs.Prelude.{◌≡◌, ◌≢◌, ℕ, ◌+◌, ◌*◌, ◌-◌, ◌<◌, ◌≤◌, length, slice_index, IsFalse, MatchOption, OnOk, IfErr};
ghost use Rattle.std.specs.List.{range_with_len};
ghost use Rattle.definitions.specs.Network.{is_boarding, weight_of, out_arcs};
ghost use Rattle.definitions.specs.Dual.{saving, time_through};
ghost use Rattle.certificate.specs.Spelling.{network_of};
ghost use Rattle.certificate.specs.Judged.{IsLabelKept, IsLabelBroken, IsNotZero, AreFreeArcsKept, IsFreeArcBroken, savings_at, AreLabelsKept, IsFirstLabelBroken};

use crate::claim::Claim;
use crate::refused::Refused;

impl Claim {
    /// Whether each label is 0 at the destination and elsewhere no higher than the node's arcs
    /// permit. A refusal is that of the first node whose label is too high: at its first free arc,
    /// or else for its boarding arcs together.
    pub fn judge_labels(&self) -> Result<(), Refused>
        ensures ok { OnOk result (AreLabelsKept self.now) }
        ensures refused { IfErr result (IsFirstLabelBroken self.now) }
    {
        for node in 0..self.network.nodes() {
            if let Some(refused) = self.label_refusal(node) {
                return Err(refused);
            }
        }
        Ok(())
    }

    // The refusal at a node.
    fn label_refusal(&self, node: u32) -> Option<Refused>
        requires within { node < self.now.nodes }
        ensures judged { MatchOption result (IsLabelKept self.now node) (IsLabelBroken self.now node) }
    {
        if node == self.destination {
            return self.destination_refusal(node);
        }
        if let Some(refused) = self.free_arc_refusal(node) {
            return Some(refused);
        }
        self.savings_refusal(node)
    }

    // The refusal at the destination.
    fn destination_refusal(&self, node: u32) -> Option<Refused>
        requires within { node < self.now.nodes }
        requires here { node ≡ self.now.destination }
        ensures judged { MatchOption result (slice_index self.now.labels node ≡ 0) (IsNotZero self.now node) }
    {
        let label = self.label(node);
        if label == 0 {
            return None;
        }
        Some(Refused::DualBroken {
            node: node as u128,
            arc: None,
            left: label as u128,
            right: 0,
        })
    }

    // The refusal at the first free arc of a node that leads to less than the node's label.
    fn free_arc_refusal(&self, node: u32) -> Option<Refused>
        requires within { node < self.now.nodes }
        ensures judged { MatchOption result (AreFreeArcsKept self.now node) (IsFreeArcBroken self.now node) }
    {
        let label = self.label(node);
        let (first, end) = self.own_arcs(node);
        for arc in first..end {
            if let Some(through) = self.leads_below(arc, label) {
                return Some(Refused::DualBroken {
                    node: node as u128,
                    arc: Some(arc),
                    left: label as u128,
                    right: through,
                });
            }
        }
        None
    }

    // The refusal at a node whose boarding arcs save more than `K` together.
    fn savings_refusal(&self, node: u32) -> Option<Refused>
        requires within { node < self.now.nodes }
        ensures judged { MatchOption result
            (savings_at self.now node ≤ self.now.k)
            (λ answer. (self.now.k < savings_at self.now node) × (answer ≡ Refused.DualBroken node None (savings_at self.now node) self.now.k)) }
    {
        let left = self.savings_of(node);
        let right = self.network.k() as u128;
        if left > right {
            return Some(Refused::DualBroken {
                node: node as u128,
                arc: None,
                left,
                right,
            });
        }
        None
    }

    // The label of a node.
    fn label(&self, node: u32) -> u64
        requires within { node < self.now.nodes }
        ensures value { result ≡ slice_index self.now.labels node }
    {
        self.labels[node as usize]
    }

    // The number of a node's first arc, and the number after that of its last.
    fn own_arcs(&self, node: u32) -> (u32, u32)
        requires within { node < self.now.nodes }
        ensures order { result.0 ≤ result.1 }
        ensures within { result.1 ≤ length self.now.arcs }
        ensures arcs { out_arcs (network_of self.now) node ≡ range_with_len result.0 (result.1 - result.0) }
    {
        let first = self.network.first(node);
        let count = self.network.out(node).len() as u32;
        (first, first + count)
    }

    // What a free arc leads to, where that is below a label.
    fn leads_below(&self, arc: u32, label: u64) -> Option<u128>
        requires within { arc < length self.now.arcs }
        ensures below { MatchOption result
            (IsFalse (is_boarding (network_of self.now) arc) → label ≤ time_through (network_of self.now) self.now.labels arc)
            (λ through. IsFalse (is_boarding (network_of self.now) arc) × (through ≡ time_through (network_of self.now) self.now.labels arc) × (through < label)) }
    {
        if self.network.arc(arc).weight.is_some() {
            return None;
        }
        let through = self.through(arc);
        if through < label as u128 {
            Some(through)
        } else {
            None
        }
    }

    // What an arc leads to: the label of its head and its cost.
    fn through(&self, arc: u32) -> u128
        requires within { arc < length self.now.arcs }
        ensures value { result ≡ time_through (network_of self.now) self.now.labels arc }
    {
        let arc = self.network.arc(arc);
        self.labels[arc.head as usize] as u128 + arc.cost as u128
    }

    // The savings of a node's boarding arcs, each times its weight.
    fn savings_of(&self, node: u32) -> u128
        requires within { node < self.now.nodes }
        ensures value { result ≡ savings_at self.now node }
    {
        let label = self.label(node);
        let (first, end) = self.own_arcs(node);
        let mut total = 0;
        for arc in first..end {
            total += self.saving_of(arc, label);
        }
        total
    }

    // What a boarding arc saves against a label, times its weight; 0 for a free one.
    fn saving_of(&self, arc: u32, label: u64) -> u128
        requires within { arc < length self.now.arcs }
        ensures value { result ≡ weight_of (network_of self.now) arc * saving (network_of self.now) self.now.labels label arc }
        ensures small { result ≤ 79228162495817593515539431425 }
    {
        let weight = self.network.arc(arc).weight.unwrap_or(0);
        let saved = (label as u128).saturating_sub(self.through(arc));
        weight as u128 * saved
    }
}
