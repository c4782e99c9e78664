//! Scenarios: edits of the weights, fares, stops, waits and walks of a feed.
#![tactic(auto)]

mod edit;
mod fare;
mod fault;
mod index;
mod layer;
mod rows;
mod scenario;

pub use fare::TimeFare;
pub use fault::ScenarioFault;
pub use layer::Layer;
pub use scenario::Scenario;
