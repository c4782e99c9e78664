//! The lines that a scenario keeps, if their weights and the nodes of the city are within limits.

ghost use Rattle.std.specs.Prelude.{◌≡◌, ◌<◌, ◌≤◌, ◌+◌, ◌++◌, ◌^◌, ℕ, [], IfErr, IfOk, OnOk, length};
ghost use Rattle.definitions.specs.declared.limits.TheConstants.{NODE_LIMIT, WEIGHT_LIMIT};
ghost use Rattle.network.specs.Faults.{IsFirstFault, limit_faults, node_faults, weight_faults};
ghost use Rattle.network.specs.Kept.{AreKept, nodes_for};
ghost use Rattle.network.specs.Nodes.{kept_lines, nodes_of};
ghost use Rattle.network.specs.Sources.{weight_in};
ghost use Rattle.network.specs.declared.fault.BuildFault.TheVariants as fault;
ghost use Rattle.network.specs.declared.fault.Limit.TheVariants as limit;

use crate::fault::{BuildFault, Limit};
use crate::given::Given;
use crate::kinds::KeptLine;
use definitions::{NODE_LIMIT, WEIGHT_LIMIT};
use std::alloc::Global;

/// The lines that the scenario keeps, in their order.
///
/// # Refusals
///
/// `Range` of the first of their weights that is past its limit, then of the number of nodes.
/// `NoMemory` may come in place of any of these.
pub(crate) fn kept_lines(alloc: Global, given: &Given) -> Result<Vec<KeptLine>, BuildFault>
    ensures value { IfOk result (λ kept. kept.items ≡ kept_lines given.now) }
    ensures light { OnOk result (weight_faults given.now ≡ []) }
    ensures few { OnOk result (node_faults given.now ≡ []) }
    ensures refused { IfErr result (IsFirstFault (weight_faults given.now ++ node_faults given.now)) }
{
    judge_weights(given)?;
    judge_nodes(given)?;
    keep_lines(alloc, given)
}

// Judges the weights of the kept lines.
fn judge_weights(given: &Given) -> Result<(), BuildFault>
    ensures faultless { OnOk result (weight_faults given.now ≡ []) }
    ensures refused { IfErr result (IsFirstFault (weight_faults given.now)) }
{
    for number in 0..given.lines() {
        judge_line(given, number)?;
    }
    Ok(())
}

// Judges the weight of a line, where those before it are within the limit.
fn judge_line(given: &Given, number: u32) -> Result<(), BuildFault>
    requires number { number < length given.now.lines }
    requires before { (before : ℕ) → before < number → weight_in given.now before ≤ WEIGHT_LIMIT }
    ensures within { OnOk result (weight_in given.now number ≤ WEIGHT_LIMIT) }
    ensures refused { IfErr result (IsFirstFault (weight_faults given.now)) }
{
    judge_weight(given.weight(number))
}

// Refuses a weight that is past the limit.
fn judge_weight(weight: u64) -> Result<(), BuildFault>
    ensures within { OnOk result (weight ≤ WEIGHT_LIMIT) }
    ensures refused { IfErr result (IsFirstFault (limit_faults limit.Weight WEIGHT_LIMIT weight)) }
{
    if weight > u64::from(WEIGHT_LIMIT) {
        return Err(BuildFault::Range {
            limit: Limit::Weight,
            count: u128::from(weight),
        });
    }
    Ok(())
}

// Judges the number of nodes.
fn judge_nodes(given: &Given) -> Result<(), BuildFault>
    ensures faultless { OnOk result (node_faults given.now ≡ []) }
    ensures refused { IfErr result (IsFirstFault (node_faults given.now)) }
{
    judge_count(count_nodes(given))
}

// Refuses a number of nodes that is past the limit.
fn judge_count(count: u128) -> Result<(), BuildFault>
    ensures faultless { OnOk result (limit_faults limit.Nodes NODE_LIMIT count ≡ []) }
    ensures refused { IfErr result (IsFirstFault (limit_faults limit.Nodes NODE_LIMIT count)) }
{
    if count > u128::from(NODE_LIMIT) {
        let limit = Limit::Nodes;
        return Err(BuildFault::Range { limit, count });
    }
    Ok(())
}

// How many nodes there are.
fn count_nodes(given: &Given) -> u128
    ensures value { result ≡ length (nodes_of given.now) }
{
    let mut count = u128::from(given.front());
    for number in 0..given.lines() {
        count += nodes_for(given, number);
    }
    count
}

// How many nodes a line takes.
fn nodes_for(given: &Given, number: u32) -> u128
    requires number { number < length given.now.lines }
    ensures value { result ≡ nodes_for given.now number }
    ensures within { result < 2 ^ 65 }
{
    if given.weight(number) > 0 {
        2 * given.segments(number) as u128
    } else {
        0
    }
}

// The kept lines of sources within the limits.
fn keep_lines(alloc: Global, given: &Given) -> Result<Vec<KeptLine>, BuildFault>
    requires light { weight_faults given.now ≡ [] }
    requires few { node_faults given.now ≡ [] }
    ensures value { IfOk result (λ kept. kept.items ≡ kept_lines given.now) }
    ensures no_memory { IfErr result (λ e. e ≡ fault.NoMemory) }
{
    let mut kept = Vec::new(alloc);
    let mut next = given.front();
    for number in 0..given.lines() {
        next = keep_line(given, number, next, &mut kept)?;
    }
    Ok(kept)
}

// Adds a line to the kept ones, if it is kept, and gives the first node of the next one.
fn keep_line(
    given: &Given,
    number: u32,
    next: u64,
    kept: &mut Vec<KeptLine>,
) -> Result<u64, BuildFault>
    requires number { number < length given.now.lines }
    requires light { weight_faults given.now ≡ [] }
    requires few { node_faults given.now ≡ [] }
    requires before { AreKept given.now number kept.old.items next }
    ensures after { IfOk result (λ next. AreKept given.now (number + 1) kept.new.items next) }
    ensures no_memory { IfErr result (λ e. e ≡ fault.NoMemory) }
{
    let weight = given.weight(number);
    if weight == 0 {
        return Ok(next);
    }
    let segments = given.segments(number) as u64;
    kept.push(KeptLine {
        line: number,
        route: given.route(number),
        weight: weight as u32,
        first_node: next as u32,
    })?;
    Ok(next + 2 * segments)
}

#[cfg(test)]
mod tests {
    use super::*;
    use std::test::Fail;

    #[test]
    fn a_weight_past_the_limit_is_refused(rt: HostRuntime) -> Result<(), Fail> {
        assert_eq!(rt; judge_weight(4_294_967_295), Ok(()));
        let fault = BuildFault::Range {
            limit: Limit::Weight,
            count: 4_294_967_296,
        };
        assert_eq!(rt; judge_weight(4_294_967_296), Err(fault));
        Ok(())
    }

    #[test]
    fn a_node_past_the_limit_is_refused(rt: HostRuntime) -> Result<(), Fail> {
        assert_eq!(rt; judge_count(1_048_576), Ok(()));
        let fault = BuildFault::Range {
            limit: Limit::Nodes,
            count: 1_048_577,
        };
        assert_eq!(rt; judge_count(1_048_577), Err(fault));
        Ok(())
    }
}
