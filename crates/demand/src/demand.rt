//! The demand between zones.

ghost use Rattle.std.specs.Prelude.{◌≡◌, ◌<◌, ◌≤◌, ℕ, List, [], All, IfErr, IfOk, OnOk, length, sum_by};
ghost use Rattle.feed_reader.specs.Faults.{Fields};
ghost use Rattle.gtfs_rows.specs.Sheets.{sheet_of};
ghost use Rattle.demand.specs.Amounts.{AreAmounts, AreSound};
ghost use Rattle.demand.specs.Columns.{demand_columns, demand_file};
ghost use Rattle.demand.specs.Demands.{demand_faults, demand_of};
ghost use Rattle.demand.specs.Faults.{IsFirstFault, table_faults};
ghost use Rattle.demand.specs.Laws.{AreInOrder, IsPairAmong};

use crate::amounts::{Amounts, read_amounts};
use crate::columns::demand_columns;
use crate::fault::DemandFault;
use crate::limits::ZONE_LIMIT;
use crate::pairs::pairs_of;
use crate::tables::Pair;
use crate::zones::Zones;
use definitions::UNIT_LIMIT;
use gtfs_rows::{NoMemory, Sheet};
use std::alloc::Global;
use std::marker::Model;

/// The units of each pair of zones, and what is set aside.
#[derive(Drop)]
pub struct Demand {
    pairs: Vec<Pair>,
    units: u64,
    inside: u128,
    dropped: u64,
}

impl Model for Demand {
    ghost use Rattle.demand.specs.Demands.{DemandData};
    ghost use Rattle.demand.specs.Laws.{IsDemand};

    ghost Value = { DemandData };

    ghost view = { λ d. record { pairs = d.pairs.items; units = d.units; inside = d.inside; dropped = d.dropped } };

    ghost invariant = { λ d. IsDemand d.pairs.items d.units };
}

impl Demand {
    /// The demand of a table between these zones. docs/FORMATS.md has its rules.
    ///
    /// # Refusals
    ///
    /// The first that applies, in this order.
    /// - `Row` of the sheet.
    /// - Then for each row in turn: `UnknownZone` of the origin and of the destination, `Row` where
    ///   the trips are no number of trips, and `Range` where the units between zones so far, with
    ///   its own, pass their limit.
    /// - `NoMemory` may come in place of any of these.
    pub fn read(alloc: Global, bytes: &[u8], zones: &Zones) -> Result<Demand, DemandFault>
        ensures demand { IfOk result (λ demand. demand
            ≡ demand_of zones.now.names (sheet_of bytes.now demand_columns).rows) }
        ensures faultless { OnOk result (table_faults demand_file bytes.now demand_columns
            (demand_faults zones.now.names (sheet_of bytes.now demand_columns).rows) ≡ []) }
        ensures refused { IfErr result (IsFirstFault (table_faults demand_file bytes.now demand_columns
            (demand_faults zones.now.names (sheet_of bytes.now demand_columns).rows))) }

        // What holds of it.
        ensures numbers { IfOk result (λ demand.
            All (IsPairAmong (length zones.now.names)) demand.pairs) }
    {
        let wanted = demand_columns(alloc)?;
        let sheet = Sheet::read(alloc, "demand", bytes, &wanted)?;
        let amounts = read_amounts(alloc, &sheet, zones.ids())?;
        let demand = Demand::of_amounts(alloc, amounts)?;
        Ok(demand)
    }

    // The demand of the amounts of the rows.
    fn of_amounts(alloc: Global, amounts: Amounts) -> Result<Demand, NoMemory>
        requires origins { All (λ pair. pair.origin < ZONE_LIMIT) amounts.list.items }
        requires units { amounts.units ≤ UNIT_LIMIT }
        requires total { sum_by (λ pair. pair.units) amounts.list.items ≡ amounts.units }
        ensures demand { IfOk result (λ demand. (zones : List (List ℕ)) (rows : List Fields)
            → length zones ≤ ZONE_LIMIT → AreAmounts zones rows amounts
            → AreSound (length zones) (length rows) amounts → demand ≡ demand_of zones rows) }
        ensures among { IfOk result (λ demand. (zones : ℕ)
            → All (IsPairAmong zones) amounts.list.items → All (IsPairAmong zones) demand.pairs) }
    {
        let pairs = pairs_of(alloc, amounts.list)?;
        Ok(Demand {
            pairs,
            units: amounts.units,
            inside: amounts.inside,
            dropped: amounts.dropped,
        })
    }

    /// The pairs with units, by destination and then by origin.
    pub fn pairs(&self) -> &[Pair]
        ensures value { result.now ≡ self.now.pairs }
        ensures ordered { AreInOrder result.now }
        ensures total { sum_by (λ pair. pair.units) result.now ≡ self.now.units }
    {
        &self.pairs
    }

    /// The units of all pairs.
    pub fn units(&self) -> u64
        ensures value { result ≡ self.now.units }
        ensures within { result ≤ UNIT_LIMIT }
    {
        self.units
    }

    /// The units that are set aside, since they stay inside their zone.
    pub fn inside(&self) -> u128
        ensures value { result ≡ self.now.inside }
    {
        self.inside
    }

    /// How many rows have trips with a digit past the sixth decimal that is not 0.
    pub fn dropped(&self) -> u64
        ensures value { result ≡ self.now.dropped }
    {
        self.dropped
    }
}
