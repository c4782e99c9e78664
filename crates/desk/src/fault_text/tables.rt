//! The fault texts of a feed, of the tables of a demand and of a scenario.

ghost use Rattle.std.specs.Prelude.{◌≡◌, [], ◌∷◌, codes};
ghost use Rattle.std.specs.List.{concat};
ghost use Rattle.desk.specs.PlacedText.{demand_text, feed_text, scenario_text, table_limit_name};
ghost use Rattle.desk.specs.Printing.{Prints};

use super::placed::{write_no_memory, write_placed, write_placed_file, write_row};
use crate::pieces::{Piece, write_pieces};
use demand::DemandFault;
use desk_io::{Failed, Sink};
use feed_reader::FeedFault;
use scenarios::ScenarioFault;

/// Writes the fault text of a feed.
pub fn write_feed<E: Sink>(err: &mut E, fault: &FeedFault) -> Result<(), Failed>
    ensures prints { Prints (E.count err.old) (E.count err.new) (E.written err.old) (E.written err.new) (concat (feed_text fault.now)) }
{
    let head = "error 3: feed ";
    match fault {
        FeedFault::MissingFile(name) => write_placed_file(err, head, "missing-file", name.as_str()),
        FeedFault::Row(fault) => write_row(err, head, fault),
        FeedFault::DoubleId(place) => write_placed(err, head, "double-id", place),
        FeedFault::UnknownId(place) => write_placed(err, head, "unknown-id", place),
        FeedFault::TimesFall(place) => write_placed(err, head, "times-fall", place),
        FeedFault::BadHeadway(place) => write_placed(err, head, "bad-headway", place),
        FeedFault::NoMemory => write_no_memory(err, head),
    }
}

/// Writes the fault text of the zones, the walks or the demand.
pub fn write_demand<E: Sink>(err: &mut E, fault: &DemandFault) -> Result<(), Failed>
    ensures prints { Prints (E.count err.old) (E.count err.new) (E.written err.old) (E.written err.new) (concat (demand_text fault.now)) }
{
    let head = "error 4: demand ";
    match fault {
        DemandFault::Row(fault) => write_row(err, head, fault),
        DemandFault::UnknownZone(place) => write_placed(err, head, "unknown-zone", place),
        DemandFault::UnknownStop(place) => write_placed(err, head, "unknown-stop", place),
        DemandFault::Range { limit, count } => {
            let name = table_limit_name(*limit);
            write_pieces(
                err,
                &[
                    Piece::Text("error 4: demand range "),
                    Piece::Text(name),
                    Piece::Text(" "),
                    Piece::Number(*count),
                    Piece::Text("\n"),
                ],
            )
        }
        DemandFault::NoMemory => write_no_memory(err, head),
    }
}

/// Writes the fault text of a scenario.
pub fn write_scenario<E: Sink>(err: &mut E, fault: &ScenarioFault) -> Result<(), Failed>
    ensures prints { Prints (E.count err.old) (E.count err.new) (E.written err.old) (E.written err.new) (concat (scenario_text fault.now)) }
{
    let head = "error 5: scenario ";
    match fault {
        ScenarioFault::Row(fault) => write_row(err, head, fault),
        ScenarioFault::UnknownId(place) => write_placed(err, head, "unknown-id", place),
        ScenarioFault::BadValue(place) => write_placed(err, head, "bad-value", place),
        ScenarioFault::NoMemory => write_no_memory(err, head),
    }
}

// The name of a limit of a table.
fn table_limit_name(limit: demand::Limit) -> &'static str
    ensures name { result.now ≡ table_limit_name limit }
{
    match limit {
        demand::Limit::Zones => "zones",
        demand::Limit::Units => "units",
    }
}
