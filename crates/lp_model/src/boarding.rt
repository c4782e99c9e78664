//! Boarding arcs among arcs.

ghost use Rattle.std.specs.Prelude.{◌≡◌, is_some};
ghost use Rattle.std.specs.List.{list_any, filter_map};
ghost use Rattle.definitions.specs.Totals.{least_of};

use definitions::NetArc;

/// Whether one of the arcs is a boarding arc.
pub fn has_boarding(arcs: &[NetArc]) -> bool
    ensures value { result ≡ list_any (λ arc. is_some arc.weight) arcs.now }
{
    arcs.iter().any(|arc| arc.weight.is_some())
}

/// The least weight of the boarding arcs, 0 where there is none.
pub fn least_weight_of(arcs: &[NetArc]) -> u32
    ensures value { result ≡ least_of (filter_map (λ arc. arc.weight) arcs.now) }
{
    arcs.iter().filter_map(|arc| arc.weight).min().unwrap_or(0)
}
