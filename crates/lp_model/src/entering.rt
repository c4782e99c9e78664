//! Arcs as the nodes that they lead to look at them.

ghost use Rattle.std.specs.Prelude.{◌≡◌, ◌<◌, ◌≤◌, All, IfOk, length, map, nat_lt};
ghost use Rattle.definitions.specs.declared.limits.TheConstants.{ARC_LIMIT};
ghost use Rattle.lp_model.specs.Entered.{entering_as, entering_in};

use definitions::NetArc;
use std::alloc::{AllocError, Global};

/// An arc that enters a node: its tail, its cost in ticks (1/1000 second), its weight (1/1000
/// departure in the window), which is 0 for a free arc, and its number.
#[derive(Clone, Copy, Debug, Drop, PartialEq, Eq)]
pub struct Entering {
    pub tail: u32,
    pub cost: u32,
    pub weight: u32,
    pub arc: u32,
}

impl Entering {
    // The arc of a number.
    fn of(arc: u32, entry: &NetArc) -> Entering
        ensures { result ≡ entering_as arc entry.now }
    {
        Entering {
            tail: entry.tail,
            cost: entry.cost,
            weight: entry.weight.unwrap_or(0),
            arc,
        }
    }

    /// Whether passengers wait for the arc.
    pub fn is_boarding(self) -> bool
        ensures value { result ≡ nat_lt 0 self.weight }
    {
        self.weight > 0
    }
}

/// The arcs of these numbers, in their order.
pub fn entering_of(
    alloc: Global,
    arcs: &[NetArc],
    numbers: &[u32],
) -> Result<Vec<Entering>, AllocError>
    requires few { length arcs.now ≤ ARC_LIMIT }
    requires there { All (λ arc. arc < length arcs.now) numbers.now }
    ensures value { IfOk result (λ entering. entering.items ≡ map (entering_in arcs.now) numbers.now) }
{
    let mut entering = Vec::with_capacity(alloc, numbers.len())?;
    for arc in numbers {
        entering.push(Entering::of(*arc, &arcs[*arc as usize]))?;
    }
    Ok(entering)
}
