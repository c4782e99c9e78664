//! The parts of a label.

/// A part of the expected time to a destination: how much of it is spent in one way.
#[derive(Clone, Copy, Debug, Drop, PartialEq, Eq)]
pub enum Part {
    /// On foot: to a stop, between stops and from a stop.
    Walk,
    /// At stops, for a line.
    Wait,
    /// On board, between stops and at them.
    Ride,
    /// The ticks of boardings and alightings, with the fares that stand for time.
    Board,
}
