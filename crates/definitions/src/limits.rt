//! The greatest values that the desk accepts. docs/FORMATS.md lists them with their names.

/// Nodes of a network.
pub const NODE_LIMIT: u32 = 1_048_576;

/// Arcs of a network.
pub const ARC_LIMIT: u32 = 4_194_304;

/// Units (1/1,000,000 trip) of a demand table or of one text.
pub const UNIT_LIMIT: u64 = 1_000_000_000_000_000;

/// The weight of a boarding arc (1/1000 departure in the window).
pub const WEIGHT_LIMIT: u32 = 4_294_967_295;

/// The cost of an arc, in ticks.
pub const COST_LIMIT: u32 = 1_000_000_000;

/// The wait constant `K`: at combined weight `F` passengers wait `K / F` ticks.
pub const K_LIMIT: u64 = 345_600_000_000;

/// A label in a text, in ticks.
pub const LABEL_LIMIT: u64 = 9_223_372_036_854_775_807;

/// The volume of an arc in a text, in units.
pub const VOLUME_LIMIT: u64 = 1_000_000_000_000_000;

/// The wait of a node in a text, in ticks times units.
pub const WAIT_LIMIT: u128 = 1_000_000_000_000_000_000_000_000_000;

/// The bytes of one file.
pub const FILE_LIMIT: usize = 268_435_456;
