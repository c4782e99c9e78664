//! Weak duality, as a theorem about the definitions alone.

ghost use Rattle.definitions.specs.Duality.{WeakDuality};

/// No plan costs less than the bound of dual feasible labels.
///
/// For every well-formed network, every destination, a demand for each node and dual feasible
/// labels, and for every plan at every scale: the scale times the bound is at most the plan's cost. A fractional solution with
/// the common denominator M is a plan at scale M, at M times its cost, so no solution of the linear
/// program of Spiess and Florian (1989) costs less than the bound.
pub fn weak_duality()
    ensures no_plan_is_cheaper { WeakDuality }
{}
