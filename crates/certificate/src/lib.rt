//! Certificates of an assignment to one destination and their checker, and network texts.
#![tactic(auto)]

mod bytes;
mod checker;
mod checking;
mod claim;
mod draft;
mod fault;
mod lines;
mod network_reading;
mod places;
mod problem;
mod refused;
mod rows;
mod stage;
mod writing;

pub use checker::Checker;
pub use checking::{Verdict, check_text, one_answer};
pub use network_reading::{one_network_answer, read_network};
pub use places::places_are_of_the_form;
pub use problem::{Problem, Units};
pub use refused::{Limit, Refused};
pub use writing::{write_certificate, write_network};
