//! Whether each pair reaches.

ghost use Rattle.std.specs.Prelude.{◌<◌, IsTrue, MatchOption, take};
ghost use Rattle.definitions.specs.Reach.{IsReach};
ghost use Rattle.assign.specs.Conditions.{ArePairs};
ghost use Rattle.assign.specs.Reached.{AllPairsReach, IsFirstUnreached};
ghost use Rattle.assign.specs.Spans.{IsSpanOf};
ghost use Rattle.assign.specs.Visits.{goal_of};
ghost use Rattle.assign.specs.Ways.{AreWays};

use crate::spans::end_of;
use crate::ways::Ways;
use demand::Pair;
use network::CityNet;

/// The first pair whose origin does not reach its destination.
///
/// The time is linear where a hub joins all pairs; only a zone to which it does not costs that
/// once more.
pub(crate) fn first_unreached(city: &CityNet, pairs: &[Pair], ways: &mut Ways) -> Option<Pair>
    requires pairs { ArePairs city.now.zones pairs.now }
    requires ways { AreWays city.now.net ways.old }
    ensures ways { AreWays city.now.net ways.new }
    ensures first { MatchOption result (AllPairsReach city.now pairs.now)
        (λ pair. IsFirstUnreached city.now pairs.now pair.origin pair.destination) }
{
    take_hub(city, pairs, ways);
    let mut place = 0;
    for zone in 0..city.zones() {
        let end = end_of(pairs, zone, place);
        let found = unreached_in(city, pairs, zone, place, end, ways);
        if found.is_some() {
            return found;
        }
        place = end;
    }
    None
}

// Takes a hub on the way to the first destination, where there is one.
fn take_hub(city: &CityNet, pairs: &[Pair], ways: &mut Ways)
    requires pairs { ArePairs city.now.zones pairs.now }
    requires ways { AreWays city.now.net ways.old }
    ensures ways { AreWays city.now.net ways.new }
{
    if let Some(pair) = pairs.first() {
        ways.find_hub(city.net(), city.goal(pair.destination));
    }
}

// The first of the pairs of a zone whose origin does not reach, where those before them do.
fn unreached_in(
    city: &CityNet,
    pairs: &[Pair],
    zone: u32,
    from: usize,
    to: usize,
    ways: &mut Ways,
) -> Option<Pair>
    requires zone { zone < city.now.zones }
    requires pairs { ArePairs city.now.zones pairs.now }
    requires span { IsSpanOf pairs.now zone from to }
    requires ways { AreWays city.now.net ways.old }
    requires before { AllPairsReach city.now (take from pairs.now) }
    ensures ways { AreWays city.now.net ways.new }
    ensures first { MatchOption result (AllPairsReach city.now (take to pairs.now))
        (λ pair. IsFirstUnreached city.now pairs.now pair.origin pair.destination) }
{
    if all_joined(city, pairs, zone, from, to, ways) {
        return None;
    }
    ways.to_goal.find(city.net(), city.goal(zone));
    unmarked_in(city, pairs, zone, from, to, &ways.to_goal.reached)
}

// Whether the hub joins all pairs of a zone, where those before them reach.
fn all_joined(
    city: &CityNet,
    pairs: &[Pair],
    zone: u32,
    from: usize,
    to: usize,
    ways: &Ways,
) -> bool
    requires zone { zone < city.now.zones }
    requires pairs { ArePairs city.now.zones pairs.now }
    requires span { IsSpanOf pairs.now zone from to }
    requires ways { AreWays city.now.net ways.now }
    requires before { AllPairsReach city.now (take from pairs.now) }
    ensures all { IsTrue result → AllPairsReach city.now (take to pairs.now) }
{
    city.rules();
    for place in from..to {
        if !ways.joins(city.net(), pairs[place].origin, city.goal(zone)) {
            return false;
        }
    }
    true
}

// The first of the pairs of a zone whose origin is not marked, where those before them reach.
fn unmarked_in(
    city: &CityNet,
    pairs: &[Pair],
    zone: u32,
    from: usize,
    to: usize,
    reached: &[bool],
) -> Option<Pair>
    requires pairs { ArePairs city.now.zones pairs.now }
    requires span { IsSpanOf pairs.now zone from to }
    requires reach { IsReach city.now.net (goal_of city.now zone) reached.now }
    requires before { AllPairsReach city.now (take from pairs.now) }
    ensures first { MatchOption result (AllPairsReach city.now (take to pairs.now))
        (λ pair. IsFirstUnreached city.now pairs.now pair.origin pair.destination) }
{
    city.rules();
    for place in from..to {
        let pair = pairs[place];
        if !reached[pair.origin as usize] {
            return Some(pair);
        }
    }
    None
}
