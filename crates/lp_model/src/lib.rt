//! Networks, and the totals of flows and labels on them.
#![tactic(auto)]

mod boarding;
mod entering;
mod fault;
mod grouping;
mod judging;
mod network;
mod totals;
mod wait_constant;
mod wide_arc;

pub use definitions::NetArc;
pub use entering::Entering;
pub use fault::{Limit, NetFault};
pub use network::Network;
pub use totals::{bound_of, cost_of, flow_in, flow_out, slack};
pub use wait_constant::{WAIT_PERCENT_LIMIT, WINDOW_LIMIT, k_of};
pub use wide_arc::WideArc;
