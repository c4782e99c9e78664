//! What is told of a fault, and of three numbers.

use crate::fault::DemandFault;
use gtfs_rows::{Place, RowFault};
use std::alloc::{AllocError, Global};
use std::fmt::Write;
use std::str::from_utf8;

/// The name of a fault with its file, row, column and field, or its limit and count.
pub fn told(alloc: Global, fault: DemandFault) -> Result<String, AllocError> {
    match fault {
        DemandFault::Row(fault) => row_told(alloc, fault),
        DemandFault::UnknownZone(place) => placed(alloc, "unknown zone", &place),
        DemandFault::UnknownStop(place) => placed(alloc, "unknown stop", &place),
        DemandFault::Range { limit, count } => format!(in alloc; "range: {limit:?} {count}"),
        DemandFault::NoMemory => Err(AllocError),
    }
}

// What a fault of a sheet or of a field tells.
fn row_told(alloc: Global, fault: RowFault) -> Result<String, AllocError> {
    match fault {
        RowFault::NotUtf8(place) => placed(alloc, "not UTF-8", &place),
        RowFault::NoHeader(place) => placed(alloc, "no header", &place),
        RowFault::MissingColumn(place) => placed(alloc, "missing column", &place),
        RowFault::DoubleColumn(place) => placed(alloc, "double column", &place),
        RowFault::RowWidth(place) => placed(alloc, "row width", &place),
        RowFault::BadField(place) => placed(alloc, "bad field", &place),
        RowFault::NoMemory => Err(AllocError),
    }
}

// The name of a fault, and its place; what is empty there is not to be seen.
fn placed(alloc: Global, name: &str, place: &Place) -> Result<String, AllocError> {
    let file = place.file.as_str();
    let column = place.column.as_str();
    let field = from_utf8(place.field.as_slice()).unwrap_or("?");
    format!(in alloc; "{name}: {file} {} {column} {field}", place.row)
}

/// Appends three numbers.
pub fn push_three(shown: &mut String, from: u32, to: u32, count: u64) -> Result<(), AllocError> {
    write!(shown, "{from}-{to}:{count} ")
}
