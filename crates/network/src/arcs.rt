//! The arcs of a city, as they are added one after the other.

ghost use Rattle.std.specs.Prelude.{◌≡◌, [], ◌∷◌, IfErr, IfOk, OnOk};
ghost use Rattle.network.specs.Adding.{Adds, arc_with};
ghost use Rattle.network.specs.Arcs.{free_arc, walk_arc};
ghost use Rattle.network.specs.Faults.{IsFirstFault, cost_faults};
ghost use Rattle.network.specs.Towns.{HasNode};
ghost use Rattle.network.specs.declared.fault.BuildFault.TheVariants as fault;

use crate::fault::{BuildFault, Limit};
use crate::kinds::{ArcKind, NodeKind};
use crate::town::Town;
use definitions::{COST_LIMIT, NetArc};
use std::alloc::Global;

/// Arcs, and what each of them stands for.
#[derive(Drop)]
pub(crate) struct CityArcs {
    pub(crate) arcs: Vec<NetArc>,
    pub(crate) kinds: Vec<ArcKind>,
}

impl CityArcs {
    /// No arcs, with room for so many.
    pub(crate) fn with_room(alloc: Global, room: usize) -> Result<CityArcs, BuildFault>
        ensures arcs { IfOk result (λ found. found.arcs.items ≡ []) }
        ensures kinds { IfOk result (λ found. found.kinds.items ≡ []) }
        ensures no_memory { IfErr result (λ e. e ≡ fault.NoMemory) }
    {
        Ok(CityArcs {
            arcs: Vec::with_capacity(alloc, room)?,
            kinds: Vec::with_capacity(alloc, room)?,
        })
    }

    /// Adds an arc between nodes of these numbers, unless its cost is past the limit.
    pub(crate) fn push(
        &mut self,
        kind: ArcKind,
        tail: u32,
        head: u32,
        cost: u128,
        weight: Option<u32>,
    ) -> Result<(), BuildFault>
        ensures added { OnOk result
            (Adds self.old self.new (arc_with kind tail head cost weight ∷ [])) }
        ensures refused { IfErr result
            (IsFirstFault (cost_faults (arc_with kind tail head cost weight ∷ []))) }
    {
        if cost > u128::from(COST_LIMIT) {
            return Err(BuildFault::Range {
                limit: Limit::Cost,
                count: cost,
            });
        }
        let cost = cost as u32;
        self.arcs.push(NetArc {
            tail,
            head,
            cost,
            weight,
        })?;
        self.kinds.push(kind)?;
        Ok(())
    }

    /// Adds a free arc.
    pub(crate) fn free(
        &mut self,
        town: &Town,
        kind: ArcKind,
        from: NodeKind,
        to: NodeKind,
        cost: u128,
    ) -> Result<(), BuildFault>
        requires from { HasNode town.now from }
        requires to { HasNode town.now to }
        ensures added { OnOk result
            (Adds self.old self.new (free_arc town.now kind from to cost ∷ [])) }
        ensures refused { IfErr result
            (IsFirstFault (cost_faults (free_arc town.now kind from to cost ∷ []))) }
    {
        self.push(kind, town.number(from), town.number(to), cost, None)
    }

    /// Adds a walk of so many seconds.
    pub(crate) fn walk(
        &mut self,
        town: &Town,
        kind: ArcKind,
        from: NodeKind,
        to: NodeKind,
        seconds: u64,
    ) -> Result<(), BuildFault>
        requires from { HasNode town.now from }
        requires to { HasNode town.now to }
        ensures added { OnOk result
            (Adds self.old self.new (walk_arc town.now kind from to seconds ∷ [])) }
        ensures refused { IfErr result
            (IsFirstFault (cost_faults (walk_arc town.now kind from to seconds ∷ []))) }
    {
        self.free(town, kind, from, to, town.walk_ticks(seconds))
    }
}

#[cfg(test)]
mod tests {
    use super::*;
    use std::test::Fail;

    #[test]
    fn a_cost_past_the_limit_is_refused(rt: HostRuntime) -> Result<(), Fail> {
        let mut arcs = CityArcs::with_room(rt.alloc(), 1).map_err(|_| "arcs")?;
        assert_eq!(rt; arcs.push(ArcKind::Walk, 0, 1, 1_000_000_000, None), Ok(()));
        let fault = BuildFault::Range {
            limit: Limit::Cost,
            count: 1_000_000_001,
        };
        let past = arcs.push(ArcKind::Walk, 0, 1, 1_000_000_001, None);
        assert_eq!(rt; past, Err(fault));
        assert_eq!(rt; arcs.arcs.as_slice().len(), 1);
        Ok(())
    }
}
