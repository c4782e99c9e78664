//! The pairs of one destination, among pairs by destination.

ghost use Rattle.std.specs.Prelude.{◌≡◌, ◌+◌, ◌<◌, ◌≤◌, All, EachIndex, length, replicate, slice_index, sum, take};
ghost use Rattle.definitions.specs.declared.limits.TheConstants.{UNIT_LIMIT};
ghost use Rattle.demand.specs.Pairs.{units_from_to};
ghost use Rattle.assign.specs.Conditions.{AreOrdered, units_of_pairs};
ghost use Rattle.assign.specs.Spans.{IsSpanOf, PartsAt};

use demand::Pair;

/// Where the pairs that lead to a zone begin, or would.
pub(crate) fn begin_of(pairs: &[Pair], zone: u32) -> usize
    requires ordered { AreOrdered pairs.now }
    ensures starts { PartsAt pairs.now zone result }
{
    let mut begin = 0;
    while begin < pairs.len() && pairs[begin].destination < zone {
        begin += 1;
    }
    begin
}

/// The end of the pairs that lead to a zone, which begin at `from`.
pub(crate) fn end_of(pairs: &[Pair], zone: u32, from: usize) -> usize
    requires ordered { AreOrdered pairs.now }
    requires starts { PartsAt pairs.now zone from }
    ensures span { IsSpanOf pairs.now zone from result }
{
    let mut end = from;
    while end < pairs.len() && pairs[end].destination == zone {
        end += 1;
    }
    end
}

/// Writes the units of the pairs of a zone at their origins and 0 at all other nodes, and gives
/// the sum.
pub(crate) fn fill(pairs: &[Pair], zone: u32, from: usize, to: usize, demand: &mut [u64]) -> u64
    requires span { IsSpanOf pairs.now zone from to }
    requires origins { All (λ pair. pair.origin < length demand.old) pairs.now }
    requires within { units_of_pairs pairs.now ≤ UNIT_LIMIT }
    ensures each { EachIndex demand.new (λ node. slice_index demand.new node ≡ units_from_to pairs.now node zone) }
    ensures total { sum demand.new ≡ result }
    ensures units { units_of_pairs (take from pairs.now) + result ≡ units_of_pairs (take to pairs.now) }
{
    clear(demand);
    let mut units = 0;
    for place in from..to {
        let pair = pairs[place];
        demand[pair.origin as usize] += pair.units;
        units += pair.units;
    }
    units
}

// Sets each number to 0.
fn clear(demand: &mut [u64])
    ensures { demand.new ≡ replicate (length demand.old) 0 }
{
    demand.fill(0);
}
