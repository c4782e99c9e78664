//! Labels to one destination after another, in room that is made once.
#![tactic(auto)]

mod heap;
mod permitted;
mod plain;
mod queue;
mod settling;
mod solving;
mod workspace;

pub use plain::{PlainLabels, plain_labels};
pub use queue::{Queue, Taken};
pub use workspace::{Workspace, labels};
