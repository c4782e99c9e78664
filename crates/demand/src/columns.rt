//! The columns that are wanted of each table.

ghost use Rattle.std.specs.Prelude.{◌≡◌, IfOk};
ghost use Rattle.demand.specs.Columns as columns;

use gtfs_rows::{NoMemory, Wanted};
use std::alloc::Global;

/// The columns of the zones.
pub fn zone_columns(alloc: Global) -> Result<Wanted, NoMemory>
    ensures value { IfOk result (λ wanted. wanted ≡ columns.zone_columns) }
{
    let mut wanted = Wanted::new(alloc);
    wanted.add("zone_id", true)?;
    wanted.add("stop_id", true)?;
    wanted.add("walk_secs", true)?;
    Ok(wanted)
}

/// The columns of the walks.
pub fn walk_columns(alloc: Global) -> Result<Wanted, NoMemory>
    ensures value { IfOk result (λ wanted. wanted ≡ columns.walk_columns) }
{
    let mut wanted = Wanted::new(alloc);
    wanted.add("from_stop_id", true)?;
    wanted.add("to_stop_id", true)?;
    wanted.add("walk_secs", true)?;
    Ok(wanted)
}

/// The columns of the demand.
pub fn demand_columns(alloc: Global) -> Result<Wanted, NoMemory>
    ensures value { IfOk result (λ wanted. wanted ≡ columns.demand_columns) }
{
    let mut wanted = Wanted::new(alloc);
    wanted.add("origin", true)?;
    wanted.add("destination", true)?;
    wanted.add("trips", true)?;
    Ok(wanted)
}
