//! The sheet of a file of a feed, and the fault of a file that is missing.

ghost use Rattle.std.specs.Prelude.{◌≡◌, ◌∷◌, [], OnOk, IfOk, IfErr, map};
ghost use Rattle.gtfs_rows.specs.Faults.{sheet_faults};
ghost use Rattle.gtfs_rows.specs.Sheets.{sheet_of};
ghost use Rattle.feed_reader.specs.Faults.{IsFirstFault};
ghost use Rattle.feed_reader.specs.declared.fault.FeedFault.TheVariants as fault;

use crate::fault::FeedFault;
use gtfs_rows::{Name, Sheet, Wanted};
use std::alloc::Global;

/// The sheet of the bytes of a file.
///
/// # Refusals
///
/// The first fault of the sheet. `NoMemory` may come in its place.
pub(crate) fn read_sheet(
    alloc: Global,
    file: &str,
    bytes: &[u8],
    wanted: &Wanted,
) -> Result<Sheet, FeedFault>
    ensures sheet { IfOk result (λ sheet. sheet ≡ sheet_of bytes.now wanted.now) }
    ensures faultless { OnOk result
        (map fault.Row (sheet_faults file.now bytes.now wanted.now) ≡ []) }
    ensures refused { IfErr result
        (IsFirstFault (map fault.Row (sheet_faults file.now bytes.now wanted.now))) }
{
    let sheet = Sheet::read(alloc, file, bytes, wanted)?;
    Ok(sheet)
}

/// The fault of a file that has to be there and is not.
pub(crate) fn missing(alloc: Global, file: &str) -> FeedFault
    ensures value { IsFirstFault (fault.MissingFile file.now ∷ []) result }
{
    match String::from_str(alloc, file) {
        Ok(name) => FeedFault::MissingFile(Name::new(name)),
        Err(_) => FeedFault::NoMemory,
    }
}
