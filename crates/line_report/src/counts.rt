//! What was read and what was set aside before an assignment.

/// Counts of what was read. Units are millionths of trips.
#[derive(Clone, Copy, Debug, Drop, PartialEq, Eq)]
pub struct Counts {
    pub zones: u64,
    /// Trips that run on the date and depart in the window, before the scenario.
    pub counted: u64,
    /// Trips that were set aside.
    pub trips_aside: u64,
    /// Rows of transfers.txt that were set aside.
    pub transfers_aside: u64,
    /// Pairs of zones with units.
    pub pairs: u64,
    /// Units inside zones, which are not assigned.
    pub inside: u128,
    /// Rows of the demand whose further digits were dropped.
    pub dropped: u64,
}
