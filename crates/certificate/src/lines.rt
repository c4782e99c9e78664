//! One line each from the front of bytes: its shape is judged first, then its numbers.

ghost use Rattle.std.specs.Prelude.{◌≡◌, ◌+◌, ◌<◌, ◌≤◌, [], IfOk, codes};
ghost use Rattle.definitions.specs.declared.limits.TheConstants.{UNIT_LIMIT as UNITS};
ghost use Rattle.lp_model.specs.Faults.{arc_faults};
ghost use Rattle.lp_model.specs.Wide.{arc_of_wide};
ghost use Rattle.certificate.specs.Bytes.{Gives};
ghost use Rattle.certificate.specs.Limits.{greatest};
ghost use Rattle.certificate.specs.Lines.{word_at, number_line_at, destination_line_at, demand_line_at, weight_at, wide_arc_at, arc_line_at, limit_of, fault_of, unless};

use crate::bytes::{byte_of, literal_of, number_of};
use crate::fault::Fault;
use crate::refused::Limit;
use definitions::{NetArc, UNIT_LIMIT};
use lp_model::{Limit as NetLimit, NetFault, WideArc};

// A word, a blank, a number and the end of the line.
#[tactic(auto, unfolding(crate::specs::Lines::word_at))]
fn word_of<'a>(word: &[u8], bytes: &'a [u8]) -> Result<(u128, &'a [u8]), Fault>
    ensures read { Gives (λ x. (x.0, x.1.now)) result (word_at word.now bytes.now) }
    ensures below { IfOk result (λ x. x.0 < 10000000000000000000000000000) }
{
    let blank = literal_of(word, bytes)?;
    let number = byte_of(b' ', blank)?;
    number_of(b'\n', number)
}

/// A word, a blank, a number within the limit and the end of the line.
pub fn number_line_of<'a>(
    word: &[u8],
    limit: Limit,
    bytes: &'a [u8],
) -> Result<(u128, &'a [u8]), Fault>
    ensures read { Gives (λ x. (x.0, x.1.now)) result (number_line_at word.now limit bytes.now) }
    ensures within { IfOk result (λ x. x.0 ≤ greatest limit) }
{
    let (number, rest) = word_of(word, bytes)?;
    if number > limit.greatest() {
        return Err(Fault::Range {
            limit,
            count: number,
        });
    }
    Ok((number, rest))
}

/// The line of the destination, which is one of the nodes.
pub fn destination_line_of(nodes: u32, bytes: &[u8]) -> Result<(u32, &[u8]), Fault>
    ensures read { Gives (λ x. (x.0, x.1.now)) result (destination_line_at nodes bytes.now) }
    ensures within { IfOk result (λ x. x.0 < nodes) }
{
    let (number, rest) = word_of(b"destination", bytes)?;
    if number >= nodes as u128 {
        return Err(Fault::Arc(NetFault::NodeOutside {
            arc: None,
            node: number,
        }));
    }
    Ok((number as u32, rest))
}

/// The line of a node's demand. The nodes before it have `units`, and the destination has none.
pub fn demand_line_of(is_destination: bool, units: u64, bytes: &[u8]) -> Result<(u64, &[u8]), Fault>
    requires within { units ≤ UNITS }
    ensures read { Gives (λ x. (x.0, x.1.now)) result (demand_line_at is_destination units bytes.now) }
    ensures within { IfOk result (λ x. units + x.0 ≤ UNITS) }
{
    if is_destination {
        let rest = literal_of(b"g 0\n", bytes)?;
        return Ok((0, rest));
    }
    let (number, rest) = word_of(b"g", bytes)?;
    let count = units as u128 + number;
    if count > UNIT_LIMIT as u128 {
        return Err(Fault::Range {
            limit: Limit::Units,
            count,
        });
    }
    Ok((number as u64, rest))
}

// The weight of an arc, or `-` for a free one, and the end of the line.
#[tactic(auto, unfolding(crate::specs::Lines::weight_at))]
fn weight_of(bytes: &[u8]) -> Result<(Option<u128>, &[u8]), Fault>
    ensures read { Gives (λ x. (x.0, x.1.now)) result (weight_at bytes.now) }
{
    match bytes {
        [] => Err(Fault::Stop(0)),
        [b'-', rest @ ..] => {
            let rest = byte_of(b'\n', rest)?;
            Ok((None, rest))
        }
        _ => {
            let (number, rest) = number_of(b'\n', bytes)?;
            Ok((Some(number), rest))
        }
    }
}

// The numbers of an arc.
#[tactic(auto, unfolding(crate::specs::Lines::wide_arc_at))]
fn wide_arc_of(bytes: &[u8]) -> Result<(WideArc, &[u8]), Fault>
    ensures read { Gives (λ x. (x.0, x.1.now)) result (wide_arc_at bytes.now) }
{
    let rest = literal_of(b"a ", bytes)?;
    let (tail, rest) = number_of(b' ', rest)?;
    let (head, rest) = number_of(b' ', rest)?;
    let (cost, rest) = number_of(b' ', rest)?;
    let (weight, rest) = weight_of(rest)?;
    let wide = WideArc {
        tail,
        head,
        cost,
        weight,
    };
    Ok((wide, rest))
}

// A limit of networks, as one of texts.
fn limit_of(limit: NetLimit) -> Limit
    ensures value { result ≡ limit_of limit }
{
    match limit {
        NetLimit::Nodes => Limit::Nodes,
        NetLimit::Arcs => Limit::Arcs,
        NetLimit::K => Limit::K,
        NetLimit::Cost => Limit::Cost,
        NetLimit::Weight => Limit::Weight,
    }
}

// A fault of a network, as one of a text.
fn fault_of(fault: NetFault) -> Fault
    ensures value { result ≡ fault_of fault }
{
    match fault {
        NetFault::Range { limit, count } => Fault::Range {
            limit: limit_of(limit),
            count,
        },
        NetFault::NoMemory => Fault::NoMemory,
        NetFault::NodeOutside { .. }
        | NetFault::ZeroCost { .. }
        | NetFault::ZeroWeight { .. }
        | NetFault::NotGrouped { .. } => Fault::Arc(fault),
    }
}

/// The line of arc `number` of a network of so many nodes, where `before` is the tail of the arc
/// before, 0 for the first.
pub fn arc_line_of(
    nodes: u32,
    before: u32,
    number: u32,
    bytes: &[u8],
) -> Result<(NetArc, &[u8]), Fault>
    ensures read { Gives (λ x. (x.0, x.1.now)) result (arc_line_at nodes before number bytes.now) }
    ensures sound { IfOk result (λ x. arc_faults nodes before number x.0 ≡ []) }
{
    let (wide, rest) = wide_arc_of(bytes)?;
    match wide.judge(nodes, before, number) {
        Ok(arc) => Ok((arc, rest)),
        Err(fault) => Err(fault_of(fault)),
    }
}
