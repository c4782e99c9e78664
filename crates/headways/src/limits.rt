//! The limits of a line.

ghost use Rattle.std.specs.Prelude.{◌≡◌, ◌≤◌, [], IfErr, IfOk, OnOk};
ghost use Rattle.headways.specs.Faults.{IsFirstFault, limit_faults, weight_faults};
ghost use Rattle.headways.specs.declared.fault.Limit.TheVariants as limit;

use crate::fault::{Limit, LineFault};
use definitions::{COST_LIMIT, WEIGHT_LIMIT};

// The count, where it is not past its limit.
fn within(limit: Limit, most: u32, count: u128) -> Result<u32, LineFault>
    ensures value { IfOk result (λ found. found ≡ count) }
    ensures faultless { OnOk result (limit_faults limit most count ≡ []) }
    ensures refused { IfErr result (IsFirstFault (limit_faults limit most count)) }
{
    if count > u128::from(most) {
        return Err(LineFault::Range { limit, count });
    }
    Ok(count as u32)
}

/// The weight of a line, where it is within its limit.
pub(crate) fn weight_of(count: u128) -> Result<u32, LineFault>
    ensures value { IfOk result (λ found. found ≡ count) }
    ensures within { OnOk result (count ≤ WEIGHT_LIMIT) }
    ensures faultless { OnOk result (weight_faults count ≡ []) }
    ensures refused { IfErr result (IsFirstFault (weight_faults count)) }
{
    within(Limit::Weight, WEIGHT_LIMIT, count)
}

/// The ticks of a ride or a dwell, where they are within their limit.
pub(crate) fn cost_of(count: u128) -> Result<u32, LineFault>
    ensures value { IfOk result (λ found. found ≡ count) }
    ensures faultless { OnOk result (limit_faults limit.Cost COST_LIMIT count ≡ []) }
    ensures refused { IfErr result (IsFirstFault (limit_faults limit.Cost COST_LIMIT count)) }
{
    within(Limit::Cost, COST_LIMIT, count)
}
