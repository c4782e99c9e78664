//! Splits of whole units, and the volumes and waits that follow from the choices of passengers.
#![tactic(auto)]

mod arriving;
mod carrying;
mod loads;
mod splitting;
mod totals;
mod waiting;

pub use loads::{Loads, Unreachable, load};
pub use splitting::split;
pub use totals::{Totals, Volumes};
