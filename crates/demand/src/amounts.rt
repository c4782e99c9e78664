//! The amounts of the rows of a demand.

ghost use Rattle.std.specs.Prelude.{◌≡◌, ◌<◌, ◌≤◌, ◌+◌, ◌*◌, ◌^◌, ◌++◌, ◌∷◌, [], IfErr, IfOk, OnOk, filter, length, if◌then◌else◌};
ghost use Rattle.feed_reader.specs.Faults.{row_at};
ghost use Rattle.feed_reader.specs.Ids.{number_of};
ghost use Rattle.demand.specs.Amounts.{AreAmounts, AreSound, IsOneMore, stays, units_apart, units_within};
ghost use Rattle.demand.specs.Demands.{amount_of, demand_faults, demand_field_faults, loses_digits, origin_field, unit_limit_faults};
ghost use Rattle.demand.specs.Faults.{IsFirstFault};
ghost use Rattle.demand.specs.Pairs.{has_units};

use crate::cells::{bad_field, place_in, text_at};
use crate::fault::{DemandFault, Limit};
use crate::tables::Pair;
use definitions::UNIT_LIMIT;
use feed_reader::Ids;
use gtfs_rows::{NoMemory, Sheet, trips};
use std::alloc::Global;

/// The amounts between two zones that are not 0, and the sums of all rows.
#[derive(Drop)]
pub struct Amounts {
    pub list: Vec<Pair>,
    /// The units between zones.
    pub units: u64,
    /// The units inside zones.
    pub inside: u128,
    /// How many rows lost a digit.
    pub dropped: u64,
}

/// The amounts of the rows of a sheet, or the first fault of a row.
pub fn read_amounts(alloc: Global, sheet: &Sheet, zones: &Ids) -> Result<Amounts, DemandFault>
    requires width { sheet.now.width ≡ 3 }
    ensures amounts { IfOk result (λ amounts. AreAmounts zones.now sheet.now.rows amounts) }
    ensures sound { IfOk result
        (λ amounts. AreSound (length zones.now) (length sheet.now.rows) amounts) }
    ensures faultless { OnOk result (demand_faults zones.now sheet.now.rows ≡ []) }
    ensures refused { IfErr result (IsFirstFault (demand_faults zones.now sheet.now.rows)) }
{
    let mut amounts = Amounts {
        list: Vec::new(alloc),
        units: 0,
        inside: 0,
        dropped: 0,
    };
    // Rows often repeat the origin of the row before.
    let mut last: &[u8] = b"";
    let mut origin = zones.find("");
    for row in 0..sheet.rows() {
        let id = text_at(sheet, row, 0);
        origin = number_again(zones, id, last, origin);
        last = id.as_bytes();
        read_row(alloc, sheet, row, zones, origin, &mut amounts)?;
    }
    Ok(amounts)
}

// The number of an id, where that of another one is known.
fn number_again(zones: &Ids, id: &str, last: &[u8], number: Option<u32>) -> Option<u32>
    requires number { number ≡ number_of zones.now last.now }
    ensures value { result ≡ number_of zones.now id.now }
{
    if id.as_bytes() == last {
        number
    } else {
        zones.find(id)
    }
}

// Adds the amount of a row whose origin has this number, or answers its first fault.
fn read_row(
    alloc: Global,
    sheet: &Sheet,
    row: u64,
    zones: &Ids,
    origin: Option<u32>,
    amounts: &mut Amounts,
) -> Result<(), DemandFault>
    requires row { row < length sheet.now.rows }
    requires width { sheet.now.width ≡ 3 }
    requires origin { origin ≡ number_of zones.now (origin_field (row_at sheet.now.rows row)) }
    requires within { amounts.old.units ≤ UNIT_LIMIT }
    requires inside { amounts.old.inside ≤ row * 18446744073709551615 }
    requires dropped { amounts.old.dropped ≤ row }
    ensures ok { OnOk result (IsOneMore amounts.old (amount_of zones.now (row_at sheet.now.rows row))
        (loses_digits (row_at sheet.now.rows row)) amounts.new) }
    ensures room { OnOk result (amounts.new.units ≤ UNIT_LIMIT) }
    ensures small { OnOk result (amounts.new.inside ≤ amounts.old.inside + 18446744073709551615) }
    ensures faultless { OnOk result
        (demand_field_faults zones.now (row_at sheet.now.rows row) row ≡ []) }
    ensures within { OnOk result
        (unit_limit_faults (amounts.old.units + units_apart (amount_of zones.now (row_at sheet.now.rows row))) ≡ []) }
    ensures refused { IfErr result (IsFirstFault
        (demand_field_faults zones.now (row_at sheet.now.rows row) row ++ unit_limit_faults
        (amounts.old.units + units_apart (amount_of zones.now (row_at sheet.now.rows row))))) }
{
    let _rows = sheet.rows();
    let (amount, dropped) = amount_at(alloc, sheet, row, zones, origin)?;
    add(amounts, amount, dropped)
}

// The amount of a row whose origin has this number, and whether it lost a digit.
fn amount_at(
    alloc: Global,
    sheet: &Sheet,
    row: u64,
    zones: &Ids,
    origin: Option<u32>,
) -> Result<(Pair, bool), DemandFault>
    requires row { row < length sheet.now.rows }
    requires width { sheet.now.width ≡ 3 }
    requires origin { origin ≡ number_of zones.now (origin_field (row_at sheet.now.rows row)) }
    ensures value { IfOk result (λ found.
        (found.0 ≡ amount_of zones.now (row_at sheet.now.rows row))
        × (found.1 ≡ loses_digits (row_at sheet.now.rows row))) }
    ensures faultless { OnOk result
        (demand_field_faults zones.now (row_at sheet.now.rows row) row ≡ []) }
    ensures refused { IfErr result
        (IsFirstFault (demand_field_faults zones.now (row_at sheet.now.rows row) row)) }
{
    let _rows = sheet.rows();
    let Some(origin) = origin else {
        let place = place_in(alloc, "demand", row, "origin", text_at(sheet, row, 0))?;
        return Err(DemandFault::UnknownZone(place));
    };
    let id = text_at(sheet, row, 1);
    let Some(destination) = zones.find(id) else {
        let place = place_in(alloc, "demand", row, "destination", id)?;
        return Err(DemandFault::UnknownZone(place));
    };
    let field = text_at(sheet, row, 2);
    let Some(trips) = trips(field.as_bytes()) else {
        return Err(bad_field(alloc, "demand", row, "trips", field)?);
    };
    let amount = Pair {
        origin,
        destination,
        units: trips.units,
    };
    Ok((amount, trips.dropped))
}

// Adds an amount, if there is room for its units.
fn add(amounts: &mut Amounts, amount: Pair, dropped: bool) -> Result<(), DemandFault>
    requires units { amounts.old.units ≤ UNIT_LIMIT }
    requires inside { amounts.old.inside + 18446744073709551615 < 2 ^ 128 }
    requires dropped { amounts.old.dropped + 1 < 2 ^ 64 }
    ensures ok { OnOk result (IsOneMore amounts.old amount dropped amounts.new) }
    ensures room { OnOk result (amounts.new.units ≤ UNIT_LIMIT) }
    ensures small { OnOk result (amounts.new.inside ≤ amounts.old.inside + 18446744073709551615) }
    ensures within { OnOk result
        (unit_limit_faults (amounts.old.units + units_apart amount) ≡ []) }
    ensures refused { IfErr result
        (IsFirstFault (unit_limit_faults (amounts.old.units + units_apart amount))) }
{
    let units = u128::from(amounts.units) + u128::from(units_apart(&amount));
    if units > u128::from(UNIT_LIMIT) {
        return Err(DemandFault::Range {
            limit: Limit::Units,
            count: units,
        });
    }
    push_apart(&mut amounts.list, amount)?;
    amounts.units = units as u64;
    amounts.inside += u128::from(units_within(&amount));
    amounts.dropped += u64::from(dropped);
    Ok(())
}

// Appends an amount that is between two zones and not 0.
fn push_apart(list: &mut Vec<Pair>, amount: Pair) -> Result<(), NoMemory>
    ensures ok { OnOk result (list.new.items ≡ list.old.items
        ++ filter has_units (if stays amount then [] else amount ∷ [])) }
{
    if amount.origin == amount.destination || amount.units == 0 {
        return Ok(());
    }
    list.push(amount)?;
    Ok(())
}

// The units of an amount inside a zone.
fn units_within(amount: &Pair) -> u64
    ensures value { result ≡ units_within amount.now }
{
    if amount.origin == amount.destination {
        amount.units
    } else {
        0
    }
}

// The units of an amount between two zones.
fn units_apart(amount: &Pair) -> u64
    ensures value { result ≡ units_apart amount.now }
{
    if amount.origin == amount.destination {
        0
    } else {
        amount.units
    }
}
