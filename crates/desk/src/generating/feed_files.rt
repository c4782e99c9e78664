//! The files of the feed that take no draws.

ghost use Rattle.std.specs.Prelude.{◌≡◌, IfOk};
ghost use Rattle.desk.specs.Generated.{calendar_dates_text, routes_text, stops_text, trips_text};

use super::rows::{header, push, push_last};
use std::alloc::{AllocError, Global};

/// The file of the stops.
pub(super) fn stops(alloc: Global, stops: u32) -> Result<Vec<u8>, AllocError>
    ensures text { IfOk result (λ text. text.items ≡ stops_text stops) }
{
    let mut text = header(alloc, "stop_id")?;
    for stop in 0..stops {
        push_last(&mut text, "s", stop)?;
    }
    Ok(text)
}

/// The file of the routes, one a line.
pub(super) fn routes(alloc: Global, lines: u32) -> Result<Vec<u8>, AllocError>
    ensures text { IfOk result (λ text. text.items ≡ routes_text lines) }
{
    let mut text = header(alloc, "route_id")?;
    for line in 0..lines {
        push_last(&mut text, "r", line)?;
    }
    Ok(text)
}

/// The file of the one date of service.
pub(super) fn calendar_dates(alloc: Global) -> Result<Vec<u8>, AllocError>
    ensures text { IfOk result (λ text. text.items ≡ calendar_dates_text) }
{
    Vec::from_slice(alloc, b"service_id,date,exception_type\nall,20250602,1\n")
}

/// The file of the trips, one a line.
pub(super) fn trips(alloc: Global, lines: u32) -> Result<Vec<u8>, AllocError>
    ensures text { IfOk result (λ text. text.items ≡ trips_text lines) }
{
    let mut text = header(alloc, "route_id,service_id,trip_id")?;
    for line in 0..lines {
        push(&mut text, "r", line)?;
        push_last(&mut text, ",all,t", line)?;
    }
    Ok(text)
}
