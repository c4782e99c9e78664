//! The lines of a feed in a period.

ghost use Rattle.std.specs.Prelude.{◌≡◌, ◌<◌, ◌^◌, length};

use crate::line::Line;
use std::marker::Model;

/// The lines of a feed in a period, in the order of their first counted trips, and how many trips
/// are counted.
#[derive(Drop)]
pub struct Lines {
    lines: Vec<Line>,
    trips: u64,
}

impl Model for Lines {
    ghost use Rattle.std.specs.Prelude.{◌<◌, ◌^◌, length};
    ghost use Rattle.headways.specs.Lines.{LinesData};

    ghost Value = { LinesData };

    ghost view = { λ found. record { lines = found.lines.items; trips = found.trips } };

    ghost invariant = { λ found. length found.lines.items < 2 ^ 32 };
}

impl Lines {
    pub(crate) fn new(lines: Vec<Line>, trips: u64) -> Lines
        requires few { length lines.items < 2 ^ 32 }
        ensures lines { result.lines ≡ lines.items }
        ensures trips { result.trips ≡ trips }
    {
        Lines { lines, trips }
    }

    /// The lines, in the order of their first counted trips.
    pub fn list(&self) -> &[Line]
        ensures value { result.now ≡ self.now.lines }
        ensures few { length result.now < 2 ^ 32 }
    {
        self.lines.as_slice()
    }

    /// How many trips are counted.
    pub fn counted(&self) -> u64
        ensures value { result ≡ self.now.trips }
    {
        self.trips
    }
}
