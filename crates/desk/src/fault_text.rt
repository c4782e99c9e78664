//! The line that tells why a run did not end well.

ghost use Rattle.std.specs.Prelude.{◌≡◌};
ghost use Rattle.std.specs.List.{concat};
ghost use Rattle.desk.specs.FaultText.{fault_text, unreached_text, usage_text};
ghost use Rattle.desk.specs.Printing.{Prints};

mod limits;
mod placed;
mod refused;
mod tables;

use crate::pieces::{Piece, write_numbered, write_pieces};
use crate::status::{Cause, Unreached, UsageFault};
use desk_io::{Failed, Sink};
use limits::limit_name;
use refused::write_refused;
use tables::{write_demand, write_feed, write_scenario};

/// Writes the fault text of a cause, which is one line, and nothing where the run is done.
///
/// It takes no memory, so that want of memory can be told too.
pub fn write_fault_text<E: Sink>(err: &mut E, cause: &Cause) -> Result<(), Failed>
    ensures prints { Prints (E.count err.old) (E.count err.new) (E.written err.old) (E.written err.new) (fault_text cause.now) }
{
    match cause {
        Cause::Done => Ok(()),
        Cause::Usage(fault) => write_usage(err, fault),
        Cause::Feed(fault) => write_feed(err, fault),
        Cause::Demand(fault) => write_demand(err, fault),
        Cause::Scenario(fault) => write_scenario(err, fault),
        Cause::Unreachable(unreached) => write_unreached(err, unreached),
        Cause::Range(limit, count) => {
            let name = limit_name(*limit);
            write_pieces(
                err,
                &[
                    Piece::Text("error 7: range "),
                    Piece::Text(name),
                    Piece::Text(" "),
                    Piece::Number(*count),
                    Piece::Text("\n"),
                ],
            )
        }
        Cause::ReadFault => write_pieces(
            err,
            &[Piece::Text("error 8: read fault"), Piece::Text("\n")],
        ),
        Cause::WriteFault { sent } => write_numbered(err, "error 9: write fault ", *sent as u128),
        Cause::NoMemory => write_pieces(
            err,
            &[Piece::Text("error 11: no memory"), Piece::Text("\n")],
        ),
        Cause::Refused(refused) => write_refused(err, refused),
    }
}

// Writes the fault text of what is wrong with the words.
fn write_usage<E: Sink>(err: &mut E, fault: &UsageFault) -> Result<(), Failed>
    ensures prints { Prints (E.count err.old) (E.count err.new) (E.written err.old) (E.written err.new) (concat (usage_text fault.now)) }
{
    match fault {
        UsageFault::Words => write_pieces(
            err,
            &[Piece::Text("error 2: usage words"), Piece::Text("\n")],
        ),
        UsageFault::Date => write_pieces(
            err,
            &[Piece::Text("error 2: usage date"), Piece::Text("\n")],
        ),
        UsageFault::Window => write_pieces(
            err,
            &[Piece::Text("error 2: usage window"), Piece::Text("\n")],
        ),
        UsageFault::NoFile(path) => {
            let path = Piece::Shown(path.as_str().as_bytes());
            write_pieces(
                err,
                &[
                    Piece::Text("error 2: usage no file "),
                    path,
                    Piece::Text("\n"),
                ],
            )
        }
    }
}

// Writes the fault text of demand that does not reach.
fn write_unreached<E: Sink>(err: &mut E, unreached: &Unreached) -> Result<(), Failed>
    ensures prints { Prints (E.count err.old) (E.count err.new) (E.written err.old) (E.written err.new) (concat (unreached_text unreached.now)) }
{
    match unreached {
        Unreached::Pair(origin, destination) => {
            let origin = Piece::Shown(origin.as_str().as_bytes());
            let destination = Piece::Shown(destination.as_str().as_bytes());
            write_pieces(
                err,
                &[
                    Piece::Text("error 6: unreachable "),
                    origin,
                    Piece::Text(" "),
                    destination,
                    Piece::Text("\n"),
                ],
            )
        }
        Unreached::Node(node) => {
            write_numbered(err, "error 6: unreachable node ", *node as u128)
        }
    }
}
