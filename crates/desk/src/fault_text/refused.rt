//! The fault texts of refused texts.

ghost use Rattle.std.specs.Prelude.{◌≡◌, [], ◌∷◌, codes};
ghost use Rattle.std.specs.List.{concat};
ghost use Rattle.definitions.specs.Decimal.{numeral, line_end};
ghost use Rattle.desk.specs.FaultText.{refused_text, net_fault_text, arc_text};
ghost use Rattle.desk.specs.Pieces.{piece_text};
ghost use Rattle.desk.specs.Printing.{Prints};

use super::limits::{net_limit_name, text_limit_name};
use crate::pieces::{Piece, write_numbered, write_pieces};
use certificate::Refused;
use desk_io::{Failed, Sink};
use lp_model::NetFault;

/// Writes the fault text of a refused text.
pub fn write_refused<E: Sink>(err: &mut E, refused: &Refused) -> Result<(), Failed>
    ensures prints { Prints (E.count err.old) (E.count err.new) (E.written err.old) (E.written err.new) (concat (refused_text refused.now)) }
{
    match refused {
        Refused::Grammar { at } => {
            write_numbered(err, "error 12: refused grammar at ", *at as u128)
        }
        Refused::NotConserved { node, due, sent } => write_not_conserved(err, *node, *due, *sent),
        Refused::WaitShort { arc, left, right } => write_wait_short(err, *arc, *left, *right),
        Refused::DualBroken {
            node,
            arc,
            left,
            right,
        } => write_dual_broken(err, *node, *arc, *left, *right),
        Refused::Range { limit, count } => {
            let name = text_limit_name(*limit);
            write_range(err, name, *count)
        }
        Refused::Arc(fault) => write_net_fault(err, fault),
        Refused::NoMemory => write_pieces(
            err,
            &[
                Piece::Text("error 12: refused no memory"),
                Piece::Text("\n"),
            ],
        ),
    }
}

// Writes the fault text of a rule of networks that a text breaks.
fn write_net_fault<E: Sink>(err: &mut E, fault: &NetFault) -> Result<(), Failed>
    ensures prints { Prints (E.count err.old) (E.count err.new) (E.written err.old) (E.written err.new) (concat (net_fault_text fault.now)) }
{
    match fault {
        NetFault::Range { limit, count } => {
            let name = net_limit_name(*limit);
            write_range(err, name, *count)
        }
        NetFault::NodeOutside { arc, node } => write_node_outside(err, *arc, *node),
        NetFault::ZeroCost { arc } => {
            write_numbered(err, "error 12: refused zero-cost arc ", *arc as u128)
        }
        NetFault::ZeroWeight { arc } => {
            write_numbered(err, "error 12: refused zero-weight arc ", *arc as u128)
        }
        NetFault::NotGrouped { arc } => {
            write_numbered(err, "error 12: refused not-grouped arc ", *arc as u128)
        }
        NetFault::NoMemory => write_pieces(
            err,
            &[
                Piece::Text("error 12: refused no memory"),
                Piece::Text("\n"),
            ],
        ),
    }
}

// Writes the fault text of a limit that is passed.
fn write_range<E: Sink>(err: &mut E, name: &str, count: u128) -> Result<(), Failed>
    ensures prints { Prints (E.count err.old) (E.count err.new) (E.written err.old) (E.written err.new)
        (concat (codes "error 12: refused range " ∷ name.now ∷ codes " " ∷ numeral count ∷ line_end ∷ [])) }
{
    write_pieces(
        err,
        &[
            Piece::Text("error 12: refused range "),
            Piece::Text(name),
            Piece::Text(" "),
            Piece::Number(count),
            Piece::Text("\n"),
        ],
    )
}

// Writes the fault text of a node that is not there.
fn write_node_outside<E: Sink>(err: &mut E, arc: Option<u32>, node: u128) -> Result<(), Failed>
    ensures prints { Prints (E.count err.old) (E.count err.new) (E.written err.old) (E.written err.new)
        (concat (codes "error 12: refused node-outside arc " ∷ arc_text arc ∷ codes " node " ∷ numeral node ∷ line_end ∷ [])) }
{
    let arc = arc_piece(arc);
    write_pieces(
        err,
        &[
            Piece::Text("error 12: refused node-outside arc "),
            arc,
            Piece::Text(" node "),
            Piece::Number(node),
            Piece::Text("\n"),
        ],
    )
}

// Writes the fault text of a node that does not send on what is due.
fn write_not_conserved<E: Sink>(
    err: &mut E,
    node: u128,
    due: u128,
    sent: u128,
) -> Result<(), Failed>
    ensures prints { Prints (E.count err.old) (E.count err.new) (E.written err.old) (E.written err.new)
        (concat (codes "error 12: refused not-conserved node " ∷ numeral node ∷ codes " due " ∷ numeral due ∷ codes " sent " ∷ numeral sent ∷ line_end ∷ [])) }
{
    write_pieces(
        err,
        &[
            Piece::Text("error 12: refused not-conserved node "),
            Piece::Number(node),
            Piece::Text(" due "),
            Piece::Number(due),
            Piece::Text(" sent "),
            Piece::Number(sent),
            Piece::Text("\n"),
        ],
    )
}

// Writes the fault text of a boarding arc whose wait is short.
fn write_wait_short<E: Sink>(err: &mut E, arc: u32, left: u128, right: u128) -> Result<(), Failed>
    ensures prints { Prints (E.count err.old) (E.count err.new) (E.written err.old) (E.written err.new)
        (concat (codes "error 12: refused wait-short arc " ∷ numeral arc ∷ codes " left " ∷ numeral left ∷ codes " right " ∷ numeral right ∷ line_end ∷ [])) }
{
    write_pieces(
        err,
        &[
            Piece::Text("error 12: refused wait-short arc "),
            Piece::Number(arc as u128),
            Piece::Text(" left "),
            Piece::Number(left),
            Piece::Text(" right "),
            Piece::Number(right),
            Piece::Text("\n"),
        ],
    )
}

// Writes the fault text of a node whose label is too high.
fn write_dual_broken<E: Sink>(
    err: &mut E,
    node: u128,
    arc: Option<u32>,
    left: u128,
    right: u128,
) -> Result<(), Failed>
    ensures prints { Prints (E.count err.old) (E.count err.new) (E.written err.old) (E.written err.new)
        (concat (codes "error 12: refused dual-broken node " ∷ numeral node ∷ codes " arc " ∷ arc_text arc ∷ codes " left " ∷ numeral left ∷ codes " right " ∷ numeral right ∷ line_end ∷ [])) }
{
    let arc = arc_piece(arc);
    write_pieces(
        err,
        &[
            Piece::Text("error 12: refused dual-broken node "),
            Piece::Number(node),
            Piece::Text(" arc "),
            arc,
            Piece::Text(" left "),
            Piece::Number(left),
            Piece::Text(" right "),
            Piece::Number(right),
            Piece::Text("\n"),
        ],
    )
}

// An arc's number, or `-` without one.
fn arc_piece(arc: Option<u32>) -> Piece<'static>
    ensures piece { piece_text result ≡ arc_text arc }
{
    match arc {
        Some(arc) => Piece::Number(arc as u128),
        None => Piece::Text("-"),
    }
}
