//! Passengers of all zones assigned to the network of a city, one destination after the other.
#![tactic(auto)]

mod asked;
mod assigning;
mod certifying;
mod documents;
mod fault;
mod job_fault;
mod job_laws;
mod job_parts;
mod jobs;
mod marking;
mod preparing;
mod print;
mod printing;
mod reaching;
mod reports;
mod room;
mod running;
mod skim_table;
mod spans;
mod sums;
mod tables;
mod unshown;
mod visitor;
mod ways;

pub use assigning::assign;
pub use fault::AssignFault;
pub use job_fault::{JobFault, Limit};
pub use job_laws::one_outcome;
pub use job_parts::Job;
pub use jobs::job;
pub use print::Print;
pub use reports::{DOCUMENT_LIMIT, report};
pub use visitor::Visitor;

#[cfg(test)]
mod tests;
