//! The faults of a field at its place. Where there is no memory for the place, that is answered.

ghost use Rattle.std.specs.Prelude.{◌≡◌, ◌+◌, ◌<◌, ◌^◌, ◌∷◌, []};
ghost use Rattle.feed_reader.specs.Faults.{IsFirstFault, bad_field, place_in};
ghost use Rattle.feed_reader.specs.declared.fault.FeedFault.TheVariants as fault;

use crate::cells::place_in;
use crate::fault::FeedFault;
use gtfs_rows::RowFault;
use std::alloc::Global;

/// The fault of a field that its reader refuses.
pub(crate) fn bad_field(
    alloc: Global,
    file: &str,
    number: u64,
    column: &str,
    field: &[u8],
) -> FeedFault
    requires number { number + 2 < 2 ^ 64 }
    ensures value { IsFirstFault
        (bad_field (place_in file.now number column.now field.now) ∷ []) result }
{
    match place_in(alloc, file, number, column, field) {
        Ok(place) => FeedFault::Row(RowFault::BadField(place)),
        Err(_) => FeedFault::NoMemory,
    }
}

/// The fault of an id that stood before.
pub(crate) fn double_id(alloc: Global, file: &str, number: u64, column: &str, id: &str) -> FeedFault
    requires number { number + 2 < 2 ^ 64 }
    ensures value { IsFirstFault
        (fault.DoubleId (place_in file.now number column.now id.now) ∷ []) result }
{
    match place_in(alloc, file, number, column, id.as_bytes()) {
        Ok(place) => FeedFault::DoubleId(place),
        Err(_) => FeedFault::NoMemory,
    }
}

/// The fault of an id that names nothing.
pub(crate) fn unknown_id(
    alloc: Global,
    file: &str,
    number: u64,
    column: &str,
    id: &str,
) -> FeedFault
    requires number { number + 2 < 2 ^ 64 }
    ensures value { IsFirstFault
        (fault.UnknownId (place_in file.now number column.now id.now) ∷ []) result }
{
    match place_in(alloc, file, number, column, id.as_bytes()) {
        Ok(place) => FeedFault::UnknownId(place),
        Err(_) => FeedFault::NoMemory,
    }
}
