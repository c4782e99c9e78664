//! The pairs of the amounts of a demand.

ghost use Rattle.std.specs.Prelude.{◌≡◌, ◌<◌, ◌≤◌, ◌+◌, ◌*◌, ◌^◌, ℕ, [], All, IfOk, OnOk, sum_by};
ghost use Rattle.std.specs.List.{fold};
ghost use Rattle.demand.specs.Joined.{joined, place};
ghost use Rattle.demand.specs.Laws.{AreInOrder, IsPairAmong};
ghost use Rattle.demand.specs.Pairs.{is_of, pairs_of};

use crate::limits::ZONE_LIMIT;
use crate::tables::Pair;
use definitions::UNIT_LIMIT;
use gtfs_rows::NoMemory;
use std::alloc::Global;

/// The pairs of amounts, by destination and then by origin, each with the sum of its amounts.
pub fn pairs_of(alloc: Global, mut amounts: Vec<Pair>) -> Result<Vec<Pair>, NoMemory>
    requires units { sum_by (λ amount. amount.units) amounts.items ≤ UNIT_LIMIT }
    ensures value { IfOk result (λ pairs. (zones : ℕ) → zones ≤ ZONE_LIMIT
        → All (IsPairAmong zones) amounts.items → pairs.items ≡ pairs_of zones amounts.items) }
    ensures total { IfOk result (λ pairs. sum_by (λ pair. pair.units) pairs.items
        ≡ sum_by (λ amount. amount.units) amounts.items) }
    ensures among { IfOk result (λ pairs. (zones : ℕ)
        → All (IsPairAmong zones) amounts.items → All (IsPairAmong zones) pairs.items) }
    ensures ordered { IfOk result (λ pairs. All (λ amount. amount.origin < ZONE_LIMIT) amounts.items
        → AreInOrder pairs.items) }
{
    amounts.sort_unstable_by_key(|amount| place(amount));
    let pairs = joined_of(alloc, amounts.as_slice())?;
    Ok(pairs)
}

// Where an amount stands among those of as many zones as may be, by destination and then by origin.
fn place(amount: &Pair) -> u64
    ensures value { result ≡ place amount.now }
{
    u64::from(amount.destination) * u64::from(ZONE_LIMIT) + u64::from(amount.origin)
}

// The amounts in their order, those of one pair added up.
fn joined_of(alloc: Global, amounts: &[Pair]) -> Result<Vec<Pair>, NoMemory>
    requires units { sum_by (λ amount. amount.units) amounts.now ≤ UNIT_LIMIT }
    ensures value { IfOk result (λ pairs. pairs.items ≡ fold joined [] amounts.now) }
{
    let mut pairs = Vec::new(alloc);
    for amount in amounts {
        join(&mut pairs, *amount)?;
    }
    Ok(pairs)
}

// Adds an amount to the last pair, where that is of the same zones, or appends it.
fn join(pairs: &mut Vec<Pair>, amount: Pair) -> Result<(), NoMemory>
    requires room { sum_by (λ pair. pair.units) pairs.old.items + amount.units < 2 ^ 64 }
    ensures ok { OnOk result (pairs.new.items ≡ joined pairs.old.items amount) }
{
    let count = pairs.as_slice().len();
    if count > 0 && is_same(&pairs[count - 1], &amount) {
        pairs[count - 1].units += amount.units;
        return Ok(());
    }
    pairs.push(amount)?;
    Ok(())
}

// Whether two amounts are of the same zones.
fn is_same(pair: &Pair, amount: &Pair) -> bool
    ensures value { result ≡ is_of pair.now.origin pair.now.destination amount.now }
{
    amount.origin == pair.origin && amount.destination == pair.destination
}
