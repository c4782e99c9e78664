//! The walks between stops.

ghost use Rattle.std.specs.Prelude.{◌≡◌, ◌<◌, ◌++◌, ◌∷◌, [], All, IfErr, IfOk, OnOk, length, if◌then◌else◌};
ghost use Rattle.gtfs_rows.specs.Sheets.{sheet_of};
ghost use Rattle.feed_reader.specs.Faults.{row_at};
ghost use Rattle.demand.specs.Columns.{walk_columns, walks_file};
ghost use Rattle.demand.specs.Faults.{IsFirstFault, table_faults};
ghost use Rattle.demand.specs.Laws.{IsWalkAmong};
ghost use Rattle.demand.specs.Walks.{leads_on, walk_field_faults, walk_of, walks_faults, walks_of};
ghost use Rattle.demand.specs.Zones.{ids_of};

use crate::cells::{bad_field, place_in, text_at};
use crate::columns::walk_columns;
use crate::fault::DemandFault;
use crate::stop_numbers::StopNumbers;
use crate::tables::WalkRow;
use feed_reader::Feed;
use gtfs_rows::{NoMemory, Sheet, whole};
use std::alloc::Global;
use std::marker::Model;

/// Walks between stops, each in its direction.
#[derive(Drop)]
pub struct Walks {
    list: Vec<WalkRow>,
}

impl Model for Walks {
    ghost use Rattle.std.specs.Prelude.{List};
    ghost use Rattle.demand.specs.declared.tables.WalkRow.{WalkRow};

    ghost Value = { List WalkRow };

    ghost view = { λ w. w.list.items };
}

impl Walks {
    /// No walks. It takes no memory.
    pub fn none(alloc: Global) -> Walks
        ensures value { result ≡ [] }
    {
        Walks {
            list: Vec::new(alloc),
        }
    }

    /// The walks of a table, whose stops are those of the feed. docs/FORMATS.md has its rules.
    ///
    /// # Refusals
    ///
    /// The first that applies, in this order.
    /// - `Row` of the sheet.
    /// - Then for each row in turn: `UnknownStop` of the first stop and of the second, and `Row`
    ///   where the seconds are no number.
    /// - `NoMemory` may come in place of any of these.
    pub fn read(alloc: Global, bytes: &[u8], feed: &Feed) -> Result<Walks, DemandFault>
        ensures walks { IfOk result (λ walks. walks
            ≡ walks_of (ids_of feed.now.stops) (sheet_of bytes.now walk_columns).rows) }
        ensures faultless { OnOk result (table_faults walks_file bytes.now walk_columns
            (walks_faults (ids_of feed.now.stops) (sheet_of bytes.now walk_columns).rows) ≡ []) }
        ensures refused { IfErr result (IsFirstFault (table_faults walks_file bytes.now walk_columns
            (walks_faults (ids_of feed.now.stops) (sheet_of bytes.now walk_columns).rows))) }

        // What holds of them.
        ensures numbers { IfOk result (λ walks. All (IsWalkAmong (length feed.now.stops)) walks) }
    {
        let stops = StopNumbers::new(alloc, feed.stops())?;
        let wanted = walk_columns(alloc)?;
        let sheet = Sheet::read(alloc, "walks", bytes, &wanted)?;
        let list = read_rows(alloc, &sheet, &stops)?;
        Ok(Walks { list })
    }

    /// The walks, in the order of their rows.
    pub fn list(&self) -> &[WalkRow]
        ensures value { result.now ≡ self.now }
    {
        &self.list
    }
}

// The walks of the rows of a sheet.
fn read_rows(alloc: Global, sheet: &Sheet, stops: &StopNumbers) -> Result<Vec<WalkRow>, DemandFault>
    requires width { sheet.now.width ≡ 3 }
    ensures walks { IfOk result (λ walks. walks.items ≡ walks_of stops.now sheet.now.rows) }
    ensures faultless { OnOk result (walks_faults stops.now sheet.now.rows ≡ []) }
    ensures refused { IfErr result (IsFirstFault (walks_faults stops.now sheet.now.rows)) }
{
    let mut walks = Vec::new(alloc);
    for row in 0..sheet.rows() {
        judge_row(alloc, sheet, row, stops)?;
        push_walk(sheet, row, stops, &mut walks)?;
    }
    Ok(walks)
}

// Whether the fields of a row have a fault.
fn judge_row(alloc: Global, sheet: &Sheet, row: u64, stops: &StopNumbers) -> Result<(), DemandFault>
    requires row { row < length sheet.now.rows }
    requires width { sheet.now.width ≡ 3 }
    ensures faultless { OnOk result (walk_field_faults stops.now (row_at sheet.now.rows row) row ≡ []) }
    ensures refused { IfErr result
        (IsFirstFault (walk_field_faults stops.now (row_at sheet.now.rows row) row)) }
{
    let _rows = sheet.rows();
    let from = text_at(sheet, row, 0);
    if stops.find(from).is_none() {
        let place = place_in(alloc, "walks", row, "from_stop_id", from)?;
        return Err(DemandFault::UnknownStop(place));
    }
    let to = text_at(sheet, row, 1);
    if stops.find(to).is_none() {
        let place = place_in(alloc, "walks", row, "to_stop_id", to)?;
        return Err(DemandFault::UnknownStop(place));
    }
    let seconds = text_at(sheet, row, 2);
    if whole(seconds.as_bytes()).is_none() {
        return Err(bad_field(alloc, "walks", row, "walk_secs", seconds)?);
    }
    Ok(())
}

// Appends the walk of a row, if it leads from a stop to another one.
fn push_walk(
    sheet: &Sheet,
    row: u64,
    stops: &StopNumbers,
    walks: &mut Vec<WalkRow>,
) -> Result<(), NoMemory>
    requires row { row < length sheet.now.rows }
    requires width { sheet.now.width ≡ 3 }
    ensures ok { OnOk result (walks.new.items ≡ walks.old.items
        ++ (if leads_on (row_at sheet.now.rows row)
        then walk_of stops.now (row_at sheet.now.rows row) ∷ [] else [])) }
{
    if text_at(sheet, row, 0) == text_at(sheet, row, 1) {
        return Ok(());
    }
    walks.push(walk_at(sheet, row, stops))?;
    Ok(())
}

// The walk of a row.
fn walk_at(sheet: &Sheet, row: u64, stops: &StopNumbers) -> WalkRow
    requires row { row < length sheet.now.rows }
    requires width { sheet.now.width ≡ 3 }
    ensures value { result ≡ walk_of stops.now (row_at sheet.now.rows row) }
{
    WalkRow {
        from: stops.find(text_at(sheet, row, 0)).unwrap_or(0),
        to: stops.find(text_at(sheet, row, 1)).unwrap_or(0),
        seconds: whole(sheet.field(row, 2)).unwrap_or(0),
    }
}
