//! The bands of frequencies.txt.

ghost use Rattle.std.specs.Prelude.{◌≡◌, ◌<◌, ◌++◌, ◌∷◌, [], All, Some, OnOk, IfOk, IfErr, filter_map, length};
ghost use Rattle.std.specs.List.{IsDistinct};
ghost use Rattle.std.specs.Str.{bytes_eq};
ghost use Rattle.feed_reader.specs.BandRows.{HasHeadway, IsBandWithin, band_by, band_trip_faults};
ghost use Rattle.feed_reader.specs.Faults.{IsFirstFault, row_at};
ghost use Rattle.feed_reader.specs.Frequencies.{band_faults, band_of, band_trip, bands_of, frequencies_faults};
ghost use Rattle.feed_reader.specs.Ids.{number_of};
ghost use Rattle.feed_reader.specs.Kept.{kept_of};

use crate::band_fields::{fields_at, headway_within};
use crate::cells::text_at;
use crate::fault::FeedFault;
use crate::ids::Ids;
use crate::kept::kept_numbers;
use crate::refusals::unknown_id;
use gtfs_rows::{Band, Sheet};
use std::alloc::Global;

/// The bands of the trips whose flag is true, in file order, by the numbers among these.
///
/// # Refusals
///
/// The first fault of the rows, in their order: of each an unknown trip, a beginning or an end that
/// is no clock, a headway that is no number, `exact_times` that is none of its values, a headway of
/// 0 or past its limit, an end before the beginning. `NoMemory` may come in its place.
pub(crate) fn read_bands(
    alloc: Global,
    sheet: &Sheet,
    trips: &Ids,
    kept: &[bool],
) -> Result<Vec<Band>, FeedFault>
    requires width { sheet.now.width ≡ 5 }
    requires distinct { IsDistinct bytes_eq trips.now }
    requires one_each { length kept.now ≡ length trips.now }
    ensures bands { IfOk result
        (λ bands. bands.items ≡ bands_of (kept_of trips.now kept.now) sheet.now.rows) }
    ensures numbers { IfOk result
        (λ bands. All (IsBandWithin (length (kept_of trips.now kept.now))) bands.items) }
    ensures faultless { OnOk result (frequencies_faults trips.now sheet.now.rows ≡ []) }
    ensures refused { IfErr result (IsFirstFault (frequencies_faults trips.now sheet.now.rows)) }
{
    let _few = trips.names();
    let numbers = kept_numbers(alloc, kept)?;
    let mut bands = Vec::new(alloc);
    for row in 0..sheet.rows() {
        push_band(alloc, sheet, row, trips, &numbers, &mut bands)?;
    }
    Ok(bands)
}

// Judges a row, and appends its band where its trip has a number.
fn push_band(
    alloc: Global,
    sheet: &Sheet,
    row: u64,
    trips: &Ids,
    numbers: &[Option<u32>],
    bands: &mut Vec<Band>,
) -> Result<(), FeedFault>
    requires row { row < length sheet.now.rows }
    requires width { sheet.now.width ≡ 5 }
    requires one_each { length numbers.now ≡ length trips.now }
    requires headways { All HasHeadway bands.old.items }
    ensures band { OnOk result (bands.new.items ≡ bands.old.items
        ++ filter_map (band_by trips.now numbers.now) (row_at sheet.now.rows row ∷ [])) }
    ensures headways { OnOk result (All HasHeadway bands.new.items) }
    ensures faultless { OnOk result (band_faults trips.now sheet.now.rows row ≡ []) }
    ensures refused { IfErr result (IsFirstFault (band_faults trips.now sheet.now.rows row)) }
{
    let band = band_at(alloc, sheet, row, trips)?;
    if let Some(trip) = numbers[band.trip as usize] {
        bands.push(Band { trip, ..band })?;
    }
    Ok(())
}

// The band of a row without a fault, by the number of its trip among all, or the first fault of the
// row.
fn band_at(alloc: Global, sheet: &Sheet, row: u64, trips: &Ids) -> Result<Band, FeedFault>
    requires row { row < length sheet.now.rows }
    requires width { sheet.now.width ≡ 5 }
    ensures trip { IfOk result
        (λ band. number_of trips.now (band_trip (row_at sheet.now.rows row)) ≡ Some band.trip) }
    ensures within { IfOk result (λ band. band.trip < length trips.now) }
    ensures band { IfOk result (λ band. band ≡ band_of (row_at sheet.now.rows row) band.trip) }
    ensures headway { IfOk result HasHeadway }
    ensures faultless { OnOk result (band_faults trips.now sheet.now.rows row ≡ []) }
    ensures refused { IfErr result (IsFirstFault (band_faults trips.now sheet.now.rows row)) }
{
    let trip = trip_at(alloc, sheet, row, trips)?;
    let fields = fields_at(alloc, sheet, row)?;
    let headway = headway_within(alloc, sheet, row, fields)?;
    Ok(Band {
        trip,
        begins: fields.begins,
        ends: fields.ends,
        headway,
        exact: fields.exact,
    })
}

// The number of the trip of a row among all trips.
fn trip_at(alloc: Global, sheet: &Sheet, row: u64, trips: &Ids) -> Result<u32, FeedFault>
    requires row { row < length sheet.now.rows }
    requires width { sheet.now.width ≡ 5 }
    ensures trip { IfOk result
        (λ trip. number_of trips.now (band_trip (row_at sheet.now.rows row)) ≡ Some trip) }
    ensures within { IfOk result (λ trip. trip < length trips.now) }
    ensures faultless { OnOk result (band_trip_faults trips.now sheet.now.rows row ≡ []) }
    ensures refused { IfErr result
        (IsFirstFault (band_trip_faults trips.now sheet.now.rows row)) }
{
    let _rows = sheet.rows();
    let id = text_at(sheet, row, 0);
    match trips.find(id) {
        Some(trip) => Ok(trip),
        None => Err(unknown_id(alloc, "frequencies.txt", row, "trip_id", id)),
    }
}
