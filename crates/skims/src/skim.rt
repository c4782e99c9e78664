//! A label with its parts.

/// The expected time from one zone to another, and how much of it is spent in which way: all in
/// ticks (1/1000 second), rounded down.
#[derive(Clone, Copy, Debug, Drop, PartialEq, Eq)]
pub struct Skim {
    /// All of it.
    pub label: u64,
    /// On foot.
    pub walk: u64,
    /// Waiting at stops.
    pub wait: u64,
    /// On board.
    pub ride: u64,
    /// Boarding and alighting.
    pub board: u64,
}
