//! Sheets of rows and fields, and the readers of a field.
#![tactic(auto)]

mod amount;
mod clocks;
mod dates;
mod decimals;
mod digits;
mod field_list;
mod header;
mod memory;
mod parts;
mod place;
mod records;
mod row_fault;
mod rows;
mod sheet;
mod texts;
mod timetable;
mod trimming;
mod wanted;

pub use amount::Trips;
pub use clocks::clock;
pub use dates::date;
pub use decimals::trips;
pub use digits::whole;
pub use memory::NoMemory;
pub use place::Place;
pub use row_fault::RowFault;
pub use sheet::Sheet;
pub use texts::{Blob, Name};
pub use timetable::{Band, Exception, Week};
pub use wanted::Wanted;
