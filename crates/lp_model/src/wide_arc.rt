//! The numbers of an arc, judged before they are an arc.

ghost use Rattle.std.specs.Prelude.{◌≡◌, ◌<◌, List, [], slice_get, MatchResult, Some};
ghost use Rattle.lp_model.specs.Faults.{arc_faults, weight_faults};
ghost use Rattle.lp_model.specs.Wide.{arc_of_wide};

use crate::fault::{Limit, NetFault};
use definitions::{COST_LIMIT, NetArc, WEIGHT_LIMIT};

/// An arc whose numbers may be larger than those of any arc, as a text may have them.
#[derive(Clone, Copy, Debug, Drop, PartialEq, Eq)]
pub struct WideArc {
    pub tail: u128,
    pub head: u128,
    pub cost: u128,
    pub weight: Option<u128>,
}

impl From<NetArc> for WideArc {
    ghost from_gives = { λ arc wide. arc_of_wide wide ≡ arc };

    fn from(arc: NetArc) -> WideArc {
        WideArc {
            tail: arc.tail as u128,
            head: arc.head as u128,
            cost: arc.cost as u128,
            weight: arc.weight.map(|weight| weight as u128),
        }
    }
}

impl WideArc {
    /// The arc of these numbers as arc `number` of a network of so many nodes, where `before` is
    /// the tail of the arc before, 0 for the first.
    ///
    /// # Refusals
    ///
    /// The first that applies, in this order: `NodeOutside` of the tail, then of the head,
    /// `ZeroCost`, `Range` of the cost, `ZeroWeight`, `Range` of the weight, `NotGrouped`.
    pub fn judge(&self, nodes: u32, before: u32, number: u32) -> Result<NetArc, NetFault>
        ensures judged { MatchResult result
            (λ arc. (arc ≡ arc_of_wide self.now) × (arc_faults nodes before number (arc_of_wide self.now) ≡ []))
            (λ fault. slice_get (arc_faults nodes before number (arc_of_wide self.now)) 0 ≡ Some fault) }
    {
        if self.tail >= nodes as u128 {
            return Err(NetFault::NodeOutside {
                arc: Some(number),
                node: self.tail,
            });
        }
        if self.head >= nodes as u128 {
            return Err(NetFault::NodeOutside {
                arc: Some(number),
                node: self.head,
            });
        }
        if self.cost == 0 {
            return Err(NetFault::ZeroCost { arc: number });
        }
        if self.cost > COST_LIMIT as u128 {
            return Err(NetFault::Range {
                limit: Limit::Cost,
                count: self.cost,
            });
        }
        let weight = judge_weight(self.weight, number)?;
        if self.tail < before as u128 {
            return Err(NetFault::NotGrouped { arc: number });
        }
        Ok(NetArc {
            tail: self.tail as u32,
            head: self.head as u32,
            cost: self.cost as u32,
            weight,
        })
    }
}

// The weight of arc `number`, where it is one.
fn judge_weight(weight: Option<u128>, number: u32) -> Result<Option<u32>, NetFault>
    ensures judged { MatchResult result
        (λ w. (w ≡ weight) × (weight_faults number weight ≡ []))
        (λ fault. slice_get (weight_faults number weight) 0 ≡ Some fault) }
{
    match weight {
        None => Ok(None),
        Some(0) => Err(NetFault::ZeroWeight { arc: number }),
        Some(weight) => {
            if weight > WEIGHT_LIMIT as u128 {
                return Err(NetFault::Range {
                    limit: Limit::Weight,
                    count: weight,
                });
            }
            Ok(Some(weight as u32))
        }
    }
}
