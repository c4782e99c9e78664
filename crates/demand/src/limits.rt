//! Limits of the tables.

/// The most zones.
pub const ZONE_LIMIT: u32 = 4096;
