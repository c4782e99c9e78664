//! The lines of a feed in a period: trips of one route with the same calls, and what they weigh.
#![tactic(auto)]

mod fault;
mod grouping;
mod keys;
mod limits;
mod line;
mod line_list;
mod line_reading;
mod means;
mod numbering;
mod reading;
mod weights;

pub use fault::{Limit, LineFault};
pub use line::{Line, LinePlace, Places, Ticks};
pub use line_list::Lines;
pub use reading::lines;
