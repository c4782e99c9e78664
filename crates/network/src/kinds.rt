//! What the nodes and the arcs of a city network stand for.

/// What a node stands for. A `line` is the place of a line among the kept ones, and a `place` is
/// that of a stop along it; both count from 0.
#[derive(Clone, Copy, Debug, Drop, PartialEq, Eq)]
pub enum NodeKind {
    /// Where passengers of a zone begin.
    Origin { zone: u32 },
    /// Where passengers to a zone end.
    Goal { zone: u32 },
    /// At a stop, before the first boarding.
    First { stop: u32 },
    /// At a stop, after an alighting.
    Later { stop: u32 },
    /// On board, as the line leaves a place.
    Leave { line: u32, place: u32 },
    /// On board, as the line reaches a place.
    Reach { line: u32, place: u32 },
}

/// What an arc stands for.
#[derive(Clone, Copy, Debug, Drop, PartialEq, Eq)]
pub enum ArcKind {
    /// From a zone to a stop, on foot.
    Access,
    /// From a stop to a zone, on foot.
    Egress,
    /// From a stop to another one, on foot.
    Walk,
    /// On board of a line, as the first boarding.
    BoardFirst,
    /// On board of a line after another one: a transfer.
    BoardLater,
    /// On board, from a place to the next.
    Ride,
    /// On board, at a place.
    Dwell,
    /// Off board, at a stop.
    Alight,
}

/// A line that a scenario keeps.
#[derive(Clone, Copy, Debug, Drop, PartialEq, Eq)]
pub struct KeptLine {
    /// Its place in `Lines`.
    pub line: u32,
    /// The number of its route.
    pub route: u32,
    /// Thousandths of departures in the window, in the scenario.
    pub weight: u32,
    /// The node at which it leaves its first place. The other nodes of the line follow.
    pub first_node: u32,
}
