//! The dates on which services run, windows of a day, and what trips weigh in them.
#![tactic(auto)]

mod bad_period;
mod period;
mod running;
mod weights;

pub use bad_period::BadPeriod;
pub use period::Period;
pub use running::runs;
pub use weights::{band_weight, trip_weight};
