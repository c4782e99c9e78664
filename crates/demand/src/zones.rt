//! The zones.

ghost use Rattle.std.specs.Prelude.{◌≡◌, ◌<◌, ◌≤◌, ◌+◌, ◌^◌, [], All, IfErr, IfOk, IfSome, OnOk, length, map};
ghost use Rattle.gtfs_rows.specs.Sheets.{sheet_of};
ghost use Rattle.feed_reader.specs.Faults.{row_at};
ghost use Rattle.feed_reader.specs.Ids.{number_of};
ghost use Rattle.feed_reader.specs.Numbered.{noted};
ghost use Rattle.demand.specs.Columns.{zone_columns, zones_file};
ghost use Rattle.demand.specs.Faults.{IsFirstFault, table_faults};
ghost use Rattle.demand.specs.Laws.{IsLinkAmong};
ghost use Rattle.demand.specs.Zones.{ids_of, link_of, zone_field, zone_field_faults, zone_limit_faults, zones_data, zones_faults, zones_of};

use crate::cells::{bad_field, place_in, text_at};
use crate::columns::zone_columns;
use crate::fault::{DemandFault, Limit};
use crate::limits::ZONE_LIMIT;
use crate::stop_numbers::StopNumbers;
use crate::tables::ZoneLink;
use feed_reader::{Feed, Ids};
use gtfs_rows::{Name, NoMemory, Sheet, whole};
use std::alloc::Global;
use std::marker::Model;

/// Zones, numbered from 0 in the order in which they first appear, and their links to stops.
#[derive(Drop)]
pub struct Zones {
    ids: Ids,
    links: Vec<ZoneLink>,
}

impl Model for Zones {
    ghost use Rattle.std.specs.Prelude.{◌<◌, ◌≤◌, All, length};
    ghost use Rattle.demand.specs.declared.limits.TheConstants.{ZONE_LIMIT};
    ghost use Rattle.demand.specs.Zones.{ZonesData};

    ghost Value = { ZonesData };

    ghost view = { λ z. record { names = z.ids; links = z.links.items } };

    ghost invariant = { λ z. (length z.ids ≤ ZONE_LIMIT) × All (λ link. link.zone < length z.ids) z.links.items };
}

impl Zones {
    /// The zones of a table, whose stops are those of the feed. docs/FORMATS.md has its rules.
    ///
    /// # Refusals
    ///
    /// The first that applies, in this order.
    /// - `Row` of the sheet.
    /// - Then for each row in turn: `Row` where the zone is empty, `UnknownStop`, `Row` where the
    ///   seconds are no number, and `Range` where it begins one zone too many.
    /// - `NoMemory` may come in place of any of these.
    pub fn read(alloc: Global, bytes: &[u8], feed: &Feed) -> Result<Zones, DemandFault>
        ensures zones { IfOk result (λ zones. zones
            ≡ zones_data (ids_of feed.now.stops) (sheet_of bytes.now zone_columns).rows) }
        ensures faultless { OnOk result (table_faults zones_file bytes.now zone_columns
            (zones_faults (ids_of feed.now.stops) (sheet_of bytes.now zone_columns).rows) ≡ []) }
        ensures refused { IfErr result (IsFirstFault (table_faults zones_file bytes.now zone_columns
            (zones_faults (ids_of feed.now.stops) (sheet_of bytes.now zone_columns).rows))) }

        // What holds of them.
        ensures few { IfOk result (λ zones. length zones.names ≤ ZONE_LIMIT) }
        ensures numbers { IfOk result (λ zones.
            All (IsLinkAmong (length zones.names) (length feed.now.stops)) zones.links) }
    {
        let stops = StopNumbers::new(alloc, feed.stops())?;
        let wanted = zone_columns(alloc)?;
        let sheet = Sheet::read(alloc, "zones", bytes, &wanted)?;
        let zones = read_rows(alloc, &sheet, &stops)?;
        Ok(zones)
    }

    /// The ids of the zones, by number.
    pub fn names(&self) -> &[Name]
        ensures value { result.now ≡ self.now.names }
        ensures few { length result.now ≤ ZONE_LIMIT }
    {
        self.ids.names()
    }

    /// A link for each row, in their order.
    pub fn links(&self) -> &[ZoneLink]
        ensures value { result.now ≡ self.now.links }
        ensures zones { All (λ link. link.zone < length self.now.names) result.now }
    {
        &self.links
    }

    /// The number of the zone with an id.
    pub fn number(&self, id: &str) -> Option<u32>
        ensures value { result ≡ number_of self.now.names id.now }
        ensures within { IfSome result (λ number. number < length self.now.names) }
    {
        self.ids.find(id)
    }

    // The ids of the zones, for look-ups.
    pub(crate) fn ids(&self) -> &Ids
        ensures value { result.now ≡ self.now.names }
        ensures few { length result.now ≤ ZONE_LIMIT }
    {
        &self.ids
    }
}

// The zones of the rows of a sheet.
fn read_rows(alloc: Global, sheet: &Sheet, stops: &StopNumbers) -> Result<Zones, DemandFault>
    requires width { sheet.now.width ≡ 3 }
    ensures zones { IfOk result (λ zones. zones ≡ zones_data stops.now sheet.now.rows) }
    ensures faultless { OnOk result (zones_faults stops.now sheet.now.rows ≡ []) }
    ensures refused { IfErr result (IsFirstFault (zones_faults stops.now sheet.now.rows)) }
{
    let ids = zone_ids(alloc, sheet, stops)?;
    let links = zone_links(alloc, sheet, stops, &ids)?;
    Ok(Zones { ids, links })
}

// The ids of the zones of the rows, or the first fault of a row.
fn zone_ids(alloc: Global, sheet: &Sheet, stops: &StopNumbers) -> Result<Ids, DemandFault>
    requires width { sheet.now.width ≡ 3 }
    ensures ids { IfOk result (λ ids. ids ≡ zones_of sheet.now.rows) }
    ensures few { IfOk result (λ ids. length ids ≤ ZONE_LIMIT) }
    ensures faultless { OnOk result (zones_faults stops.now sheet.now.rows ≡ []) }
    ensures refused { IfErr result (IsFirstFault (zones_faults stops.now sheet.now.rows)) }
{
    let mut zones = Ids::new(alloc);
    for row in 0..sheet.rows() {
        judge_row(alloc, sheet, row, stops)?;
        note_zone(sheet, row, &mut zones)?;
    }
    Ok(zones)
}

// Whether the fields of a row have a fault.
fn judge_row(alloc: Global, sheet: &Sheet, row: u64, stops: &StopNumbers) -> Result<(), DemandFault>
    requires row { row < length sheet.now.rows }
    requires width { sheet.now.width ≡ 3 }
    ensures faultless { OnOk result (zone_field_faults stops.now (row_at sheet.now.rows row) row ≡ []) }
    ensures refused { IfErr result
        (IsFirstFault (zone_field_faults stops.now (row_at sheet.now.rows row) row)) }
{
    let _rows = sheet.rows();
    let zone = text_at(sheet, row, 0);
    if zone.len() == 0 {
        return Err(bad_field(alloc, "zones", row, "zone_id", zone)?);
    }
    let stop = text_at(sheet, row, 1);
    if stops.find(stop).is_none() {
        let place = place_in(alloc, "zones", row, "stop_id", stop)?;
        return Err(DemandFault::UnknownStop(place));
    }
    let seconds = text_at(sheet, row, 2);
    if whole(seconds.as_bytes()).is_none() {
        return Err(bad_field(alloc, "zones", row, "walk_secs", seconds)?);
    }
    Ok(())
}

// Notes the zone of a row, if there is room for it.
fn note_zone(sheet: &Sheet, row: u64, zones: &mut Ids) -> Result<(), DemandFault>
    requires row { row < length sheet.now.rows }
    requires width { sheet.now.width ≡ 3 }
    ensures ok { OnOk result (zones.new ≡ noted zones.old (zone_field (row_at sheet.now.rows row))) }
    ensures few { OnOk result (length zones.new ≤ ZONE_LIMIT) }
    ensures faultless { OnOk result (zone_limit_faults
        (length (noted zones.old (zone_field (row_at sheet.now.rows row)))) ≡ []) }
    ensures refused { IfErr result (IsFirstFault (zone_limit_faults
        (length (noted zones.old (zone_field (row_at sheet.now.rows row)))))) }
{
    zones.note(text_at(sheet, row, 0))?;
    let count = zones.len();
    if count > ZONE_LIMIT {
        return Err(DemandFault::Range {
            limit: Limit::Zones,
            count: u128::from(count),
        });
    }
    Ok(())
}

// The links of the rows.
fn zone_links(
    alloc: Global,
    sheet: &Sheet,
    stops: &StopNumbers,
    zones: &Ids,
) -> Result<Vec<ZoneLink>, NoMemory>
    requires width { sheet.now.width ≡ 3 }
    ensures links { IfOk result (λ links. links.items ≡ map (link_of zones.now stops.now) sheet.now.rows) }
{
    let mut links = Vec::new(alloc);
    for row in 0..sheet.rows() {
        links.push(link_at(sheet, row, stops, zones))?;
    }
    Ok(links)
}

// The link of a row.
fn link_at(sheet: &Sheet, row: u64, stops: &StopNumbers, zones: &Ids) -> ZoneLink
    requires row { row < length sheet.now.rows }
    requires width { sheet.now.width ≡ 3 }
    ensures value { result ≡ link_of zones.now stops.now (row_at sheet.now.rows row) }
{
    ZoneLink {
        zone: zones.find(text_at(sheet, row, 0)).unwrap_or(0),
        stop: stops.find(text_at(sheet, row, 1)).unwrap_or(0),
        seconds: whole(sheet.field(row, 2)).unwrap_or(0),
    }
}
