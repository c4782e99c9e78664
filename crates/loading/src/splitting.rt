//! Whole units split over weights by largest remainders (Hamilton's method), without memory.

ghost use Rattle.std.specs.Prelude.{◌≡◌, ◌≢◌, ℕ, ◌+◌, ◌-◌, ◌*◌, ◌/◌, ◌%◌, ◌<◌, ◌≤◌, All, length, sum, slice_index, EachIndex};
ghost use Rattle.std.specs.List.{range_with_len};
ghost use Rattle.definitions.specs.declared.limits.TheConstants.{ARC_LIMIT, UNIT_LIMIT};
ghost use Rattle.definitions.specs.Split.{share};
ghost use Rattle.loading.specs.Places.{IsNumbered, AreApart};

use std::cmp::Reverse;

/// Splits `units` over the weights by largest remainders (Hamilton's method).
///
/// Writes into `out`, place by place, the whole part of each weight's even share, and one more
/// where a unit is left for it: units that no whole part takes go one each to the largest
/// remainders, ties to the lower place. A weight of 0 gets 0. `out` and `scratch` are as long as
/// `weights`; what `scratch` holds is of no use before or after.
///
/// The time is linear where no unit is left, and otherwise that of a partial selection.
pub fn split(units: u64, weights: &[u32], out: &mut [u64], scratch: &mut [u32])
    requires out_per_weight { length out.old ≡ length weights.now }
    requires scratch_per_weight { length scratch.old ≡ length weights.now }
    requires few { length weights.now ≤ ARC_LIMIT }
    requires units { units ≤ UNIT_LIMIT }
    requires positive { 0 < sum weights.now }
    ensures shares { EachIndex out.new (λ place. slice_index out.new place ≡ share units (slice_index weights.now) (range_with_len 0 (length weights.now)) place) }
    ensures all_given { sum out.new ≡ units }
    ensures no_weight { EachIndex out.new (λ place. slice_index weights.now place ≡ 0 → slice_index out.new place ≡ 0) }
{
    let all = total_of(weights);
    give_whole(units, weights, all, out, scratch);
    let left = left_of(units, out);
    if left > 0 {
        give_left(left, units, weights, all, out, scratch);
    }
}

// The sum of the weights.
fn total_of(weights: &[u32]) -> u64
    requires few { length weights.now ≤ ARC_LIMIT }
    ensures value { result ≡ sum weights.now }
{
    let mut total = 0u64;
    for weight in weights {
        total += *weight as u64;
    }
    total
}

// The whole part of a weight's even share.
fn whole_of(units: u64, weight: u32, all: u64) -> u64
    requires positive { 0 < all }
    requires part { weight ≤ all }
    ensures value { result ≡ units * weight / all }
{
    match units.checked_mul(weight as u64) {
        Some(product) => product / all,
        None => (units as u128 * weight as u128 / all as u128) as u64,
    }
}

// What the whole part leaves of an even share.
fn remainder_of(units: u64, weight: u32, all: u64, whole: u64) -> u64
    requires positive { 0 < all }
    requires whole { whole ≡ units * weight / all }
    ensures value { result ≡ units * weight % all }
{
    match units.checked_mul(weight as u64) {
        Some(product) => product - whole * all,
        None => (units as u128 * weight as u128 - whole as u128 * all as u128) as u64,
    }
}

// What the whole part leaves at a place.
fn remainder_at(units: u64, weights: &[u32], all: u64, wholes: &[u64], place: u32) -> u64
    requires positive { 0 < all }
    requires wholes { EachIndex wholes.now (λ place. slice_index wholes.now place ≡ units * slice_index weights.now place / all) }
    requires whole_per_weight { length wholes.now ≡ length weights.now }
    ensures value { result ≡ units * slice_index weights.now place % all }
{
    match weights.get(place as usize) {
        Some(weight) => remainder_of(units, *weight, all, wholes[place as usize]),
        None => 0,
    }
}

// Gives each place its whole part, and numbers the scratch.
#[tactic(auto, using(crate::proofs::ElementLemmas::element_within))]
fn give_whole(units: u64, weights: &[u32], all: u64, out: &mut [u64], scratch: &mut [u32])
    requires out_per_weight { length out.old ≡ length weights.now }
    requires scratch_per_weight { length scratch.old ≡ length weights.now }
    requires few { length weights.now ≤ ARC_LIMIT }
    requires all { all ≡ sum weights.now }
    requires positive { 0 < all }
    ensures wholes { EachIndex out.new (λ place. slice_index out.new place ≡ units * slice_index weights.now place / all) }
    ensures numbers { IsNumbered (length weights.now) scratch.new }
{
    for place in 0..weights.len() {
        out[place] = whole_of(units, weights[place], all);
        scratch[place] = place as u32;
    }
}

// The units that are not given out.
#[tactic(auto, using(std::proofs::lemmas::List::Sums::sum_by_more_le))]
fn left_of(units: u64, out: &[u64]) -> u64
    requires within { sum out.now ≤ units }
    ensures value { result ≡ units - sum out.now }
{
    let mut given = 0u64;
    for share in out {
        given += *share;
    }
    units - given
}

// Gives one unit more to each of the places that come first: as many as units are left.
fn give_left(left: u64, units: u64, weights: &[u32], all: u64, out: &mut [u64], scratch: &mut [u32])
    requires out_per_weight { length out.old ≡ length weights.now }
    requires numbers { IsNumbered (length weights.now) scratch.old }
    requires all { all ≡ sum weights.now }
    requires positive { 0 < all }
    requires wholes { EachIndex out.old (λ place. slice_index out.old place ≡ units * slice_index weights.now place / all) }
    requires within { EachIndex out.old (λ place. slice_index out.old place ≤ UNIT_LIMIT) }
    requires left { left ≡ units - sum out.old }
    requires few { left < length scratch.old }
    ensures shares { EachIndex out.new (λ place. slice_index out.new place ≡ share units (slice_index weights.now) (range_with_len 0 (length weights.now)) place) }
{
    let (first, _, _) = scratch.select_nth_unstable_by_key(left as usize, |place| {
        (
            Reverse(remainder_at(units, weights, all, out, *place)),
            *place,
        )
    });
    give_each(first, out);
}

// Gives one unit more to each of some places.
fn give_each(places: &[u32], out: &mut [u64])
    requires there { All (λ place. place < length out.old) places.now }
    requires apart { AreApart places.now }
    requires within { EachIndex out.old (λ place. slice_index out.old place ≤ UNIT_LIMIT) }
    ensures given { (at : ℕ) → at < length places.now → slice_index out.new (slice_index places.now at) ≡ slice_index out.old (slice_index places.now at) + 1 }
    ensures kept { (place : ℕ) → ((at : ℕ) → at < length places.now → slice_index places.now at ≢ place) → slice_index out.new place ≡ slice_index out.old place }
{
    for at in 0..places.len() {
        out[places[at] as usize] += 1;
    }
}

#[cfg(test)]
mod tests {
    use super::*;
    use std::test::Fail;

    // The split of units over three weights, of which the second is positive.
    #[tactic(auto, using(crate::proofs::ElementLemmas::element_within))]
    fn split_of(units: u64, weights: &[u32; 3]) -> Option<[u64; 3]> {
        if units > 1_000_000_000_000_000 || weights[1] == 0 {
            return None;
        }
        let mut out = [9; 3];
        let mut scratch = [9; 3];
        split(units, weights, &mut out, &mut scratch);
        Some(out)
    }

    #[test]
    fn units_go_by_largest_remainders(rt: HostRuntime) -> Result<(), Fail> {
        // The whole parts by hand, and then one unit each to the largest remainders.
        let cases = [
            (10, [6000, 4000, 0], [6, 4, 0]),
            (2, [6000, 6000, 6000], [1, 1, 0]),
            (1, [1, 2, 0], [0, 1, 0]),
            (5, [0, 3, 3], [0, 3, 2]),
            (0, [0, 7, 0], [0, 0, 0]),
            // 1.4, 2.8 and 2.8.
            (7, [1, 2, 2], [1, 3, 3]),
            // 10^15 units over the greatest weights.
            (
                1_000_000_000_000_000,
                [4_294_967_295, 4_294_967_295, 0],
                [500_000_000_000_000, 500_000_000_000_000, 0],
            ),
        ];
        for (units, weights, shares) in cases {
            assert_eq!(rt;
                split_of(units, &weights),
                Some(shares),
                "{units} over {weights:?}"
            );
        }
        // Slices of one and of two places.
        let mut out = [9; 2];
        let mut scratch = [9; 2];
        split(10, &[6000, 4000], &mut out, &mut scratch);
        assert_eq!(rt; out, [6, 4]);
        let mut out = [9; 1];
        let mut scratch = [9; 1];
        split(0, &[7], &mut out, &mut scratch);
        assert_eq!(rt; out, [0]);
        Ok(())
    }

    #[test]
    #[tactic(auto, using(crate::proofs::ElementLemmas::element_within))]
    fn units_left_go_to_the_larger_of_many_remainders(rt: HostRuntime) -> Result<(), Fail> {
        // 50 units over 20 weights of 2, at each third place, and 40 of 1: even shares of 1.25 and
        // 0.625. The whole parts hold 20 units, and the 30 left go to the weights of 1, whose
        // remainder is the larger: to the first 30 of them, which are those below place 45.
        let mut weights = [1u32; 60];
        for place in 0..20 {
            weights[3 * place] = 2;
        }
        assert!(rt; weights[1] > 0);
        let mut out = [9u64; 60];
        let mut scratch = [9u32; 60];
        split(50, &weights, &mut out, &mut scratch);
        for place in 0..60 {
            let share = u64::from(place % 3 == 0 || place < 45);
            assert_eq!(rt; out[place], share, "at {place}");
        }
        Ok(())
    }
}
