//! Skims of a city: the expected times between its zones, and how much of them is spent walking,
//! waiting, riding and boarding.
#![tactic(auto)]

mod filling;
mod laws;
mod part;
mod skim;
mod space;

pub use laws::{one_parts, parts_are_near_labels};
pub use part::Part;
pub use skim::Skim;
pub use space::{SkimSpace, fill};
