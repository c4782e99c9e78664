//! What passengers choose at each node of a network, by the labels of their destination.
#![tactic(auto)]

mod choosing;

pub use choosing::{attractive, choose};
pub use definitions::Choice;
