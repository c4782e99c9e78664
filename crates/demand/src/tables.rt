//! Plain types of the tables. Zones and stops are named by their numbers.

/// A walk between a zone and a stop, for access and for egress.
#[derive(Clone, Copy, Debug, Drop, PartialEq, Eq)]
pub struct ZoneLink {
    pub zone: u32,
    pub stop: u32,
    pub seconds: u64,
}

/// A walk from a stop to another one.
#[derive(Clone, Copy, Debug, Drop, PartialEq, Eq)]
pub struct WalkRow {
    pub from: u32,
    pub to: u32,
    pub seconds: u64,
}

/// The units from a zone to another one.
#[derive(Clone, Copy, Debug, Drop, PartialEq, Eq)]
pub struct Pair {
    pub origin: u32,
    pub destination: u32,
    pub units: u64,
}
