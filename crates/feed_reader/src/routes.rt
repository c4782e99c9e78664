//! The routes of routes.txt.

ghost use Rattle.std.specs.Prelude.{◌≡◌, ◌<◌, ◌++◌, ◌∷◌, [], None, OnOk, IfOk, IfErr, length, map, take};
ghost use Rattle.feed_reader.specs.Faults.{IsFirstFault, row_at};
ghost use Rattle.feed_reader.specs.Ids.{number_of};
ghost use Rattle.feed_reader.specs.Routes.{route_faults, route_id, routes_faults, routes_of};

use crate::cells::text_at;
use crate::fault::FeedFault;
use crate::ids::Ids;
use crate::refusals::{bad_field, double_id};
use gtfs_rows::Sheet;
use std::alloc::Global;

/// The ids of the routes, in file order.
///
/// # Refusals
///
/// The first fault of the rows, in their order: of each an empty id, then one that stood before.
/// `NoMemory` may come in its place.
pub(crate) fn read_routes(alloc: Global, sheet: &Sheet) -> Result<Ids, FeedFault>
    requires width { sheet.now.width ≡ 1 }
    ensures routes { IfOk result (λ ids. ids ≡ routes_of sheet.now.rows) }
    ensures faultless { OnOk result (routes_faults sheet.now.rows ≡ []) }
    ensures refused { IfErr result (IsFirstFault (routes_faults sheet.now.rows)) }
{
    let mut ids = Ids::new(alloc);
    for row in 0..sheet.rows() {
        note_route(alloc, sheet, row, &mut ids)?;
    }
    Ok(ids)
}

// Notes the id of a row behind those of the rows before it.
fn note_route(alloc: Global, sheet: &Sheet, row: u64, ids: &mut Ids) -> Result<(), FeedFault>
    requires row { row < length sheet.now.rows }
    requires width { sheet.now.width ≡ 1 }
    requires before { ids.old ≡ map route_id (take row sheet.now.rows) }
    ensures noted { OnOk result (ids.new ≡ ids.old ++ route_id (row_at sheet.now.rows row) ∷ []) }
    ensures faultless { OnOk result (route_faults sheet.now.rows row ≡ []) }
    ensures refused { IfErr result (IsFirstFault (route_faults sheet.now.rows row)) }
{
    let id = new_route(alloc, sheet, row, ids)?;
    ids.push(id)?;
    Ok(())
}

// The id of a row without a fault, or the first fault of the row.
fn new_route<'a>(alloc: Global, sheet: &'a Sheet, row: u64, ids: &Ids) -> Result<&'a str, FeedFault>
    requires row { row < length sheet.now.rows }
    requires width { sheet.now.width ≡ 1 }
    requires before { ids.now ≡ map route_id (take row sheet.now.rows) }
    ensures id { IfOk result (λ id. id.now ≡ route_id (row_at sheet.now.rows row)) }
    ensures new { OnOk result (number_of ids.now (route_id (row_at sheet.now.rows row)) ≡ None) }
    ensures faultless { OnOk result (route_faults sheet.now.rows row ≡ []) }
    ensures refused { IfErr result (IsFirstFault (route_faults sheet.now.rows row)) }
{
    let _rows = sheet.rows();
    let id = text_at(sheet, row, 0);
    if id.is_empty() {
        return Err(bad_field(alloc, "routes.txt", row, "route_id", id.as_bytes()));
    }
    if ids.find(id).is_some() {
        return Err(double_id(alloc, "routes.txt", row, "route_id", id));
    }
    Ok(id)
}
