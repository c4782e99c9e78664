//! An amount of trips.

/// A number of trips, cut off after its sixth decimal.
#[derive(Clone, Copy, Debug, Drop, PartialEq, Eq)]
pub struct Trips {
    /// Millionths of trips.
    pub units: u64,
    /// Whether a digit other than 0 was dropped.
    pub dropped: bool,
}
