//! The rows of a scenario, one after the other.

ghost use Rattle.std.specs.Prelude.{◌≡◌, ◌⊎◌, ◌<◌, ◌≤◌, ◌+◌, [], Some, None, IfOk, IfErr, IfSome, OnOk, codes, is_some, length, map, take, if◌then◌else◌};
ghost use Rattle.gtfs_rows.specs.Faults.{sheet_faults};
ghost use Rattle.gtfs_rows.specs.Fields.{whole_of};
ghost use Rattle.gtfs_rows.specs.Sheets.{sheet_of};
ghost use Rattle.feed_reader.specs.Faults.{field, is_empty, place_in, row_at};
ghost use Rattle.feed_reader.specs.Ids.{number_of};
ghost use Rattle.scenarios.specs.declared.fault.ScenarioFault.TheVariants as fault;
ghost use Rattle.scenarios.specs.Changes.{LiesWithin, NamesPart, WritesValue};
ghost use Rattle.scenarios.specs.Edits.{edit_field, edit_named, is_within, scenario_columns, target_field, value_field};
ghost use Rattle.scenarios.specs.Faults.{IsFirstFault, row_faults, rows_faults, scenario_file, target_faults, value_faults};
ghost use Rattle.scenarios.specs.Scenarios.{scenario_of};

use crate::edit::{Edit, Range, Target, edit_named};
use crate::fault::ScenarioFault;
use crate::index::Index;
use crate::scenario::Scenario;
use gtfs_rows::{NoMemory, Place, Sheet, Wanted, whole};
use std::alloc::Global;

/// The sheet of a scenario.
pub(crate) fn read_sheet(alloc: Global, bytes: &[u8]) -> Result<Sheet, ScenarioFault>
    ensures sheet { IfOk result (λ sheet. sheet ≡ sheet_of bytes.now scenario_columns) }
    ensures faultless { OnOk result (sheet_faults scenario_file bytes.now scenario_columns ≡ []) }
    ensures refused { IfErr result
        (IsFirstFault (map fault.Row (sheet_faults scenario_file bytes.now scenario_columns))) }
{
    let wanted = columns(alloc)?;
    Ok(Sheet::read(alloc, "scenario", bytes, &wanted)?)
}

// The columns of a scenario.
fn columns(alloc: Global) -> Result<Wanted, NoMemory>
    ensures value { IfOk result (λ wanted. wanted ≡ scenario_columns) }
{
    let mut wanted = Wanted::new(alloc);
    wanted.add("edit", true)?;
    wanted.add("target", true)?;
    wanted.add("value", true)?;
    Ok(wanted)
}

/// The scenario of the rows of a sheet, or the first fault of them.
pub(crate) fn read_rows(
    alloc: Global,
    sheet: &Sheet,
    routes: &Index,
    stops: &Index,
) -> Result<Scenario, ScenarioFault>
    requires width { sheet.now.width ≡ 3 }
    ensures scenario { IfOk result
        (λ scenario. scenario ≡ scenario_of routes.now stops.now sheet.now.rows) }
    ensures faultless { OnOk result (rows_faults routes.now stops.now sheet.now.rows ≡ []) }
    ensures refused { IfErr result
        (IsFirstFault (rows_faults routes.now stops.now sheet.now.rows)) }
{
    let mut scenario = Scenario::unedited(alloc, routes.len(), stops.len())?;
    for row in 0..sheet.rows() {
        read_row(alloc, sheet, row, routes, stops, &mut scenario)?;
    }
    Ok(scenario)
}

// Takes the edit of a row, or tells the first fault of it.
fn read_row(
    alloc: Global,
    sheet: &Sheet,
    row: u64,
    routes: &Index,
    stops: &Index,
    scenario: &mut Scenario,
) -> Result<(), ScenarioFault>
    requires row { row < length sheet.now.rows }
    requires width { sheet.now.width ≡ 3 }
    requires so_far { scenario.old ≡ scenario_of routes.now stops.now (take row sheet.now.rows) }
    ensures scenario { OnOk result
        (scenario.new ≡ scenario_of routes.now stops.now (take (row + 1) sheet.now.rows)) }
    ensures faultless { OnOk result (row_faults routes.now stops.now sheet.now.rows row ≡ []) }
    ensures refused { IfErr result
        (IsFirstFault (row_faults routes.now stops.now sheet.now.rows row)) }
{
    let edit = read_edit(alloc, sheet, row)?;
    let number = read_target(alloc, sheet, row, edit.target(), routes, stops)?;
    let value = read_value(alloc, sheet, row, edit.range())?;
    scenario.put(edit, number, value);
    Ok(())
}

// The edit of a row.
fn read_edit(alloc: Global, sheet: &Sheet, row: u64) -> Result<Edit, ScenarioFault>
    requires row { row < length sheet.now.rows }
    requires width { sheet.now.width ≡ 3 }
    ensures edit { IfOk result
        (λ edit. edit_named (edit_field (row_at sheet.now.rows row)) ≡ Some edit) }
    ensures refused { IfErr result (λ e. (e ≡ fault.NoMemory)
        ⊎ ((edit_named (edit_field (row_at sheet.now.rows row)) ≡ None)
        × (e ≡ fault.BadValue
        (place_in scenario_file row (codes "edit") (edit_field (row_at sheet.now.rows row)))))) }
{
    match edit_named(sheet.field(row, 0)) {
        Some(edit) => Ok(edit),
        None => Err(ScenarioFault::BadValue(place(alloc, sheet, row, 0, "edit")?)),
    }
}

// The number of the route or the stop that the target of a row names, 0 where it is empty and has
// to be.
fn read_target(
    alloc: Global,
    sheet: &Sheet,
    row: u64,
    target: Target,
    routes: &Index,
    stops: &Index,
) -> Result<u32, ScenarioFault>
    requires row { row < length sheet.now.rows }
    requires width { sheet.now.width ≡ 3 }
    ensures number { IfOk result
        (NamesPart routes.now stops.now target (target_field (row_at sheet.now.rows row))) }
    ensures faultless { OnOk result
        (target_faults routes.now stops.now row target (target_field (row_at sheet.now.rows row))
        ≡ []) }
    ensures refused { IfErr result (IsFirstFault
        (target_faults routes.now stops.now row target
        (target_field (row_at sheet.now.rows row)))) }
{
    match target {
        Target::Route => read_id(alloc, sheet, row, routes),
        Target::Stop => read_id(alloc, sheet, row, stops),
        Target::Nothing => {
            if !sheet.field(row, 1).is_empty() {
                return Err(ScenarioFault::BadValue(place(alloc, sheet, row, 1, "target")?));
            }
            Ok(0)
        }
    }
}

// The number of the id that the target of a row is.
fn read_id(alloc: Global, sheet: &Sheet, row: u64, ids: &Index) -> Result<u32, ScenarioFault>
    requires row { row < length sheet.now.rows }
    requires width { sheet.now.width ≡ 3 }
    ensures number { IfOk result
        (λ number. number_of ids.now (target_field (row_at sheet.now.rows row)) ≡ Some number) }
    ensures refused { IfErr result (λ e. (e ≡ fault.NoMemory)
        ⊎ ((number_of ids.now (target_field (row_at sheet.now.rows row)) ≡ None)
        × (e ≡ fault.UnknownId
        (place_in scenario_file row (codes "target") (target_field (row_at sheet.now.rows row)))))) }
{
    match ids.find(sheet.field(row, 1)) {
        Some(number) => Ok(number),
        None => Err(ScenarioFault::UnknownId(place(alloc, sheet, row, 1, "target")?)),
    }
}

// The number that the value of a row writes, 0 where it is empty and has to be.
fn read_value(
    alloc: Global,
    sheet: &Sheet,
    row: u64,
    range: Option<Range>,
) -> Result<u32, ScenarioFault>
    requires row { row < length sheet.now.rows }
    requires width { sheet.now.width ≡ 3 }
    ensures value { IfOk result (WritesValue range (value_field (row_at sheet.now.rows row))) }
    ensures within { IfOk result (LiesWithin range) }
    ensures faultless { OnOk result
        (value_faults row range (value_field (row_at sheet.now.rows row)) ≡ []) }
    ensures refused { IfErr result
        (IsFirstFault (value_faults row range (value_field (row_at sheet.now.rows row)))) }
{
    let field = sheet.field(row, 2);
    let value = match range {
        None => empty(field),
        Some(range) => number_within(field, range),
    };
    match value {
        Some(value) => Ok(value),
        None => Err(ScenarioFault::BadValue(place(alloc, sheet, row, 2, "value")?)),
    }
}

// 0 where a field is empty.
fn empty(field: &[u8]) -> Option<u32>
    ensures value { result ≡ (if is_empty field.now then Some 0 else None) }
{
    if field.is_empty() { Some(0) } else { None }
}

// The number that a field writes, where it is one of the range.
fn number_within(field: &[u8], range: Range) -> Option<u32>
    ensures value { IfSome result (λ number. whole_of field.now ≡ Some number) }
    ensures within { IfSome result (λ number. (range.least ≤ number) × (number ≤ range.most)) }
    ensures test { is_some result ≡ is_within range field.now }
{
    let number = whole(field)?;
    if u64::from(range.least) <= number && number <= u64::from(range.most) {
        Some(number as u32)
    } else {
        None
    }
}

// The place of a field, whose column has this name.
fn place(
    alloc: Global,
    sheet: &Sheet,
    row: u64,
    column: usize,
    name: &str,
) -> Result<Place, NoMemory>
    requires row { row < length sheet.now.rows }
    requires column { column < sheet.now.width }
    ensures value { IfOk result (λ place. place
        ≡ place_in scenario_file row name.now (field (row_at sheet.now.rows row) column)) }
{
    let number = sheet.place(row, column);
    Place::new(alloc, "scenario", number, name, sheet.field(row, column))
}
