//! What the desk's contracts speak of: limits, networks, plans, dual labels, labels, choices,
//! volumes and the spelling of numbers. Its only calls are theorems about these definitions.
#![tactic(auto)]

mod arc;
mod choice;
mod duality;
mod gap;
mod labels;
mod limits;
mod loading;
mod splitting;

pub use arc::NetArc;
pub use choice::Choice;
pub use duality::weak_duality;
pub use gap::gaps_are_small;
pub use labels::{labels_are_dual, labels_are_unique};
pub use limits::{
    ARC_LIMIT, COST_LIMIT, FILE_LIMIT, K_LIMIT, LABEL_LIMIT, NODE_LIMIT, UNIT_LIMIT, VOLUME_LIMIT,
    WAIT_LIMIT, WEIGHT_LIMIT,
};
pub use loading::volume_laws;
pub use splitting::split_laws;
