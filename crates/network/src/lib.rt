//! The network of a city, on which passengers are assigned.
#![tactic(auto)]

mod access;
mod arcs;
mod boardings;
mod building;
mod city;
mod city_arcs;
mod counting;
mod fault;
mod given;
mod groups;
mod kept;
mod kinds;
mod layers;
mod nodes;
mod parts;
mod riding;
mod stations;
mod stop_walks;
mod stops;
mod town;
mod ways;

pub use building::build;
pub use city::CityNet;
pub use fault::{BuildFault, Limit};
pub use kinds::{ArcKind, KeptLine, NodeKind};
