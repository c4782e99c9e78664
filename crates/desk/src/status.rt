//! How a run ends.

ghost use Rattle.std.specs.Prelude.{◌≡◌};
ghost use Rattle.desk.specs.Ends.{NamesPath};
ghost use Rattle.desk.specs.Status.{code_of};

use certificate::Refused;
use demand::DemandFault;
use desk_io::Name;
use feed_reader::FeedFault;
use scenarios::ScenarioFault;
use std::alloc::Global;

/// How a run ended: the exit code of the program, and why.
#[derive(Drop)]
pub struct Status {
    pub code: u8,
    pub cause: Cause,
}

/// Why a run ended as it did. docs/FORMATS.md lists the codes and the fault texts.
#[derive(Drop)]
pub enum Cause {
    /// The whole output was written.
    Done,
    Usage(UsageFault),
    /// The feed is refused.
    Feed(FeedFault),
    /// The zones, the walks, the demand or the zone that is asked for are refused.
    Demand(DemandFault),
    /// The scenario is refused.
    Scenario(ScenarioFault),
    /// Some demand does not reach its destination: for `assign` and `gen` the first pair by
    /// destination and then by origin, for `solve` the least node.
    Unreachable(Unreached),
    /// A limit was passed, other than inside a text that is checked or solved: the limit, and the count that passed it.
    Range(Limit, u128),
    /// The folder failed.
    ReadFault,
    /// The output failed after so many of its bytes.
    WriteFault { sent: usize },
    NoMemory,
    /// The text is no valid certificate, or no network text.
    Refused(Refused),
}

/// What is wrong with the words.
#[derive(Drop)]
pub enum UsageFault {
    /// They are no command.
    Words,
    /// The text of the date is none.
    Date,
    /// The texts of the window are no times, or no window.
    Window,
    /// A file that they name is not there.
    NoFile(Name),
}

/// Demand that does not reach its destination.
#[derive(Drop)]
pub enum Unreached {
    /// That between the zones of these names: the origin, and the destination.
    Pair(gtfs_rows::Name, gtfs_rows::Name),
    /// That of this node, in the problem of a network text.
    Node(u32),
}

/// A limit of a run. docs/FORMATS.md has their values.
#[derive(Clone, Copy, Debug, Drop, PartialEq, Eq)]
pub enum Limit {
    File,
    Files,
    Zones,
    Units,
    Weight,
    Cost,
    Nodes,
    Arcs,
    Document,
}

impl Status {
    /// The status of a cause.
    pub fn of(cause: Cause) -> Status
        ensures status { result ≡ record { code = code_of cause; cause = cause } }
    {
        let code = match &cause {
            Cause::Done => 0,
            Cause::Usage(_) => 2,
            Cause::Feed(_) => 3,
            Cause::Demand(_) => 4,
            Cause::Scenario(_) => 5,
            Cause::Unreachable(_) => 6,
            Cause::Range(_, _) => 7,
            Cause::ReadFault => 8,
            Cause::WriteFault { .. } => 9,
            Cause::NoMemory => 11,
            Cause::Refused(_) => 12,
        };
        Status { code, cause }
    }
}

impl Cause {
    /// The usage fault of a file that is not there, or want of memory for its path.
    pub fn no_file(alloc: Global, path: &str) -> Cause
        ensures cause { NamesPath path.now result }
    {
        match String::from_str(alloc, path) {
            Ok(name) => Cause::Usage(UsageFault::NoFile(Name::new(name))),
            Err(_) => Cause::NoMemory,
        }
    }
}
