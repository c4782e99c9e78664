//! The transfers of transfers.txt.

ghost use Rattle.std.specs.Prelude.{◌≡◌, ◌<◌, ◌+◌, ◌^◌, ◌++◌, ◌∷◌, [], OnOk, IfOk, IfErr, length, filter_map};
ghost use Rattle.feed_reader.specs.Faults.{IsFirstFault, row_at};
ghost use Rattle.feed_reader.specs.Transfers.{is_passed_over, kind_of, transfer_faults, transfer_of, transfers_aside, transfers_faults, transfers_of};
ghost use Rattle.feed_reader.specs.TransferRows.{is_partial, unknown_sides};

use crate::cells::{text_at, whole_or};
use crate::fault::FeedFault;
use crate::refusals::{bad_field, unknown_id};
use crate::stops::StopTable;
use crate::timetable::Transfer;
use gtfs_rows::Sheet;
use std::alloc::Global;

/// The transfers, in file order, and how many rows were set aside.
#[derive(Drop)]
pub(crate) struct Transfers {
    pub list: Vec<Transfer>,
    pub aside: u64,
}

/// The transfers of the rows.
///
/// # Refusals
///
/// The first fault of the rows, in their order: of each a type that is no number, seconds that are
/// none, and where the row is not passed over a side that stops.txt does not have, `from` first.
/// `NoMemory` may come in its place.
pub(crate) fn read_transfers(
    alloc: Global,
    sheet: &Sheet,
    stops: &StopTable,
) -> Result<Transfers, FeedFault>
    requires width { sheet.now.width ≡ 8 }
    ensures transfers { IfOk result
        (λ found. found.list.items ≡ transfers_of stops.now sheet.now.rows) }
    ensures aside { IfOk result (λ found. found.aside ≡ transfers_aside stops.now sheet.now.rows) }
    ensures faultless { OnOk result (transfers_faults stops.now sheet.now.rows ≡ []) }
    ensures refused { IfErr result (IsFirstFault (transfers_faults stops.now sheet.now.rows)) }
{
    let mut list = Vec::new(alloc);
    for row in 0..sheet.rows() {
        push_transfer(alloc, sheet, row, stops, &mut list)?;
    }
    // Each row is a transfer or set aside.
    let aside = sheet.rows() - list.as_slice().len() as u64;
    Ok(Transfers { list, aside })
}

// Appends the transfer of a row, where it is not set aside.
fn push_transfer(
    alloc: Global,
    sheet: &Sheet,
    row: u64,
    stops: &StopTable,
    list: &mut Vec<Transfer>,
) -> Result<(), FeedFault>
    requires row { row < length sheet.now.rows }
    requires width { sheet.now.width ≡ 8 }
    ensures transfers { OnOk result (list.new.items ≡ list.old.items
        ++ filter_map (transfer_of stops.now) (row_at sheet.now.rows row ∷ [])) }
    ensures faultless { OnOk result (transfer_faults stops.now sheet.now.rows row ≡ []) }
    ensures refused { IfErr result (IsFirstFault (transfer_faults stops.now sheet.now.rows row)) }
{
    judge_row(alloc, sheet, row, stops)?;
    if let Some(transfer) = transfer_at(sheet, row, stops) {
        list.push(transfer)?;
    }
    Ok(())
}

// Whether a row is without a fault, or its first fault.
fn judge_row(alloc: Global, sheet: &Sheet, row: u64, stops: &StopTable) -> Result<(), FeedFault>
    requires row { row < length sheet.now.rows }
    requires width { sheet.now.width ≡ 8 }
    ensures faultless { OnOk result (transfer_faults stops.now sheet.now.rows row ≡ []) }
    ensures refused { IfErr result (IsFirstFault (transfer_faults stops.now sheet.now.rows row)) }
{
    let _rows = sheet.rows();
    let kind = sheet.field(row, 2);
    if whole_or(0, kind).is_none() {
        return Err(bad_field(alloc, "transfers.txt", row, "transfer_type", kind));
    }
    let seconds = sheet.field(row, 3);
    if whole_or(0, seconds).is_none() {
        return Err(bad_field(alloc, "transfers.txt", row, "min_transfer_time", seconds));
    }
    if is_passed_over(sheet, row) {
        return Ok(());
    }
    judge_sides(
        alloc,
        row,
        text_at(sheet, row, 0),
        text_at(sheet, row, 1),
        stops,
    )
}

// Whether stops.txt has the two sides of a row, or the first fault.
fn judge_sides(
    alloc: Global,
    row: u64,
    from: &str,
    to: &str,
    stops: &StopTable,
) -> Result<(), FeedFault>
    requires row { row + 2 < 2 ^ 64 }
    ensures faultless { OnOk result (unknown_sides stops.now row from.now to.now ≡ []) }
    ensures refused { IfErr result (IsFirstFault (unknown_sides stops.now row from.now to.now)) }
{
    if !stops.is_known(from) {
        return Err(unknown_id(alloc, "transfers.txt", row, "from_stop_id", from));
    }
    if !stops.is_known(to) {
        return Err(unknown_id(alloc, "transfers.txt", row, "to_stop_id", to));
    }
    Ok(())
}

// The transfer of a row, None where it is set aside.
fn transfer_at(sheet: &Sheet, row: u64, stops: &StopTable) -> Option<Transfer>
    requires row { row < length sheet.now.rows }
    requires width { sheet.now.width ≡ 8 }
    ensures value { result ≡ transfer_of stops.now (row_at sheet.now.rows row) }
{
    if is_passed_over(sheet, row) {
        return None;
    }
    let from = stops.side(text_at(sheet, row, 0))?;
    let to = stops.side(text_at(sheet, row, 1))?;
    Some(Transfer {
        from,
        to,
        barred: kind_at(sheet, row) == 3,
        seconds: whole_or(120, sheet.field(row, 3)).unwrap_or(0),
    })
}

// Whether a row is set aside whatever its sides name.
fn is_passed_over(sheet: &Sheet, row: u64) -> bool
    requires row { row < length sheet.now.rows }
    requires width { sheet.now.width ≡ 8 }
    ensures value { result ≡ is_passed_over (row_at sheet.now.rows row) }
{
    let from = text_at(sheet, row, 0);
    let to = text_at(sheet, row, 1);
    let kind = kind_at(sheet, row);
    is_partial(sheet, row)
        || from.is_empty()
        || to.is_empty()
        || from == to
        || kind == 4
        || kind == 5
}

// Whether a row is of some route or trip alone.
fn is_partial(sheet: &Sheet, row: u64) -> bool
    requires row { row < length sheet.now.rows }
    requires width { sheet.now.width ≡ 8 }
    ensures value { result ≡ is_partial (row_at sheet.now.rows row) }
{
    !sheet.field(row, 4).is_empty()
        || !sheet.field(row, 5).is_empty()
        || !sheet.field(row, 6).is_empty()
        || !sheet.field(row, 7).is_empty()
}

// The type of a row.
fn kind_at(sheet: &Sheet, row: u64) -> u64
    requires row { row < length sheet.now.rows }
    requires width { sheet.now.width ≡ 8 }
    ensures value { result ≡ kind_of (row_at sheet.now.rows row) }
{
    whole_or(0, sheet.field(row, 2)).unwrap_or(0)
}
