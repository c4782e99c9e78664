//! Reports of an assignment, written to a sink.
#![tactic(auto)]

mod counts;
mod fault;
mod line_table;
mod loads;
mod number_lines;
mod page;
mod passengers;
mod rows;
mod segment_table;
mod stop_table;
mod summarising;
mod sums;
mod table;
mod volumes;

pub use counts::Counts;
pub use fault::ReportFault;
pub use line_table::lines;
pub use loads::loads_follow;
pub use page::Page;
pub use rows::{Rows, header_text, page_from, send};
pub use segment_table::segments;
pub use stop_table::stops;
pub use summarising::summary;

#[cfg(test)]
mod tests;
