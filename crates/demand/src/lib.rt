//! Zones, walks and demand: the tables that say who wants to go where.
#![tactic(auto)]

mod amounts;
mod cells;
mod columns;
mod demand;
mod fault;
mod limits;
mod pairs;
mod stop_numbers;
mod tables;
mod walks;
mod zones;

pub use demand::Demand;
pub use fault::{DemandFault, Limit};
pub use limits::ZONE_LIMIT;
pub use tables::{Pair, WalkRow, ZoneLink};
pub use walks::Walks;
pub use zones::Zones;

#[cfg(test)]
mod tests;
