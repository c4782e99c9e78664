//! The summary of an assignment.

ghost use Rattle.std.specs.Prelude.{◌≡◌, ◌≤◌, ◌<◌, ◌++◌, ℕ, Err, take, length, IfOk, OnOk, string_bytes};
ghost use Rattle.definitions.specs.Causes.{Rose};
ghost use Rattle.desk_io.specs.Told.{Appends};
ghost use Rattle.line_report.specs.declared.fault.ReportFault.TheVariants as fault;
ghost use Rattle.line_report.specs.Summary.{boarding_lines, city_lines, cost_lines, demand_lines, row_lines, size_lines, summary_text};

use crate::counts::Counts;
use crate::fault::ReportFault;
use crate::number_lines::push_line;
use crate::volumes::{boardings, transfers};
use desk_io::{Sink, write_all};
use loading::Totals;
use network::CityNet;
use std::alloc::{AllocError, Global};

/// Writes the summary of an assignment: twenty lines of a word and a number. docs/FORMATS.md has
/// their order. `totals` are those of the city, and no bound is above its cost.
///
/// # Refusals
///
/// - `WriteFault` where the sink failed: the bytes sent are the first of the summary.
/// - `NoMemory`: nothing was written.
pub fn summary<S: Sink>(
    alloc: Global,
    out: &mut S,
    city: &CityNet,
    totals: &Totals,
    counts: &Counts,
) -> Result<(), ReportFault>
    requires volumes { length totals.now.volumes ≡ length city.now.net.arcs }
    requires gap { totals.now.bound ≤ totals.now.cost }
    ensures ok { OnOk result (Appends (S.written out.old) (S.written out.new)
        (summary_text city.now totals.now counts.now)) }
    ensures sent { (sent : ℕ) → result ≡ Err (fault.WriteFault sent)
        → Appends (S.written out.old) (S.written out.new)
        (take sent (summary_text city.now totals.now counts.now)) }
    ensures part { (sent : ℕ) → result ≡ Err (fault.WriteFault sent)
        → sent < length (summary_text city.now totals.now counts.now) }
    ensures write_cause { (sent : ℕ) → result ≡ Err (fault.WriteFault sent)
        → Rose (S.count out.old) (S.count out.new) }
    ensures nothing { result ≡ Err fault.NoMemory → out.new ≡ out.old }
    ensures count { S.count out.old ≤ S.count out.new }
    ensures rest { S.keeps_sink_rest out.old out.new }
{
    let text = summary_of(alloc, city, totals, counts)?;
    write_all(out, text.as_bytes())?;
    Ok(())
}

// The text of the summary.
fn summary_of(
    alloc: Global,
    city: &CityNet,
    totals: &Totals,
    counts: &Counts,
) -> Result<String, AllocError>
    requires volumes { length totals.now.volumes ≡ length city.now.net.arcs }
    requires gap { totals.now.bound ≤ totals.now.cost }
    ensures text { IfOk result
        (λ text. string_bytes text ≡ summary_text city.now totals.now counts.now) }
{
    let mut text = String::new(alloc);
    push_city(alloc, &mut text, city, counts)?;
    push_rows(alloc, &mut text, counts)?;
    push_demand(alloc, &mut text, counts)?;
    push_sizes(
        alloc,
        &mut text,
        city.net().boarding_stops(),
        city.net().longest_wait(),
        totals,
    )?;
    push_boardings(
        alloc,
        &mut text,
        boardings(city, totals.volumes.as_slice()),
        transfers(city, totals.volumes.as_slice()),
    )?;
    push_costs(alloc, &mut text, totals)?;
    Ok(text)
}

// Appends the lines of the city.
fn push_city(
    alloc: Global,
    text: &mut String,
    city: &CityNet,
    counts: &Counts,
) -> Result<(), AllocError>
    ensures lines { OnOk result
        (string_bytes text.new ≡ string_bytes text.old ++ city_lines city.now counts.now) }
{
    push_line(alloc, text, "nodes", city.net().nodes() as u128)?;
    push_line(alloc, text, "arcs", city.net().arcs() as u128)?;
    push_line(alloc, text, "zones", counts.zones as u128)?;
    push_line(alloc, text, "lines", city.kept().len() as u128)?;
    Ok(())
}

// Appends the lines of the trips and transfers that were counted or set aside.
fn push_rows(alloc: Global, text: &mut String, counts: &Counts) -> Result<(), AllocError>
    ensures lines { OnOk result
        (string_bytes text.new ≡ string_bytes text.old ++ row_lines counts.now) }
{
    push_line(alloc, text, "trips-counted", counts.counted as u128)?;
    push_line(alloc, text, "trips-aside", counts.trips_aside as u128)?;
    push_line(
        alloc,
        text,
        "transfers-aside",
        counts.transfers_aside as u128,
    )?;
    Ok(())
}

// Appends the lines of the demand.
fn push_demand(alloc: Global, text: &mut String, counts: &Counts) -> Result<(), AllocError>
    ensures lines { OnOk result
        (string_bytes text.new ≡ string_bytes text.old ++ demand_lines counts.now) }
{
    push_line(alloc, text, "pairs", counts.pairs as u128)?;
    push_line(alloc, text, "inside-zone", counts.inside)?;
    push_line(alloc, text, "digits-dropped", counts.dropped as u128)?;
    Ok(())
}

// Appends the lines of the sizes of the assignment.
fn push_sizes(
    alloc: Global,
    text: &mut String,
    stops: u32,
    wait: u64,
    totals: &Totals,
) -> Result<(), AllocError>
    ensures lines { OnOk result
        (string_bytes text.new ≡ string_bytes text.old ++ size_lines stops wait totals.now) }
{
    push_line(alloc, text, "boarding-stops", stops as u128)?;
    push_line(alloc, text, "longest-wait", wait as u128)?;
    push_line(alloc, text, "destinations", totals.destinations as u128)?;
    push_line(alloc, text, "units", totals.units as u128)?;
    Ok(())
}

// Appends the lines of the units that board.
fn push_boardings(
    alloc: Global,
    text: &mut String,
    boardings: u128,
    transfers: u128,
) -> Result<(), AllocError>
    ensures lines { OnOk result
        (string_bytes text.new ≡ string_bytes text.old ++ boarding_lines boardings transfers) }
{
    push_line(alloc, text, "boardings", boardings)?;
    push_line(alloc, text, "transfers", transfers)?;
    Ok(())
}

// Appends the lines of the cost and of its bound.
fn push_costs(alloc: Global, text: &mut String, totals: &Totals) -> Result<(), AllocError>
    requires gap { totals.now.bound ≤ totals.now.cost }
    ensures lines { OnOk result
        (string_bytes text.new ≡ string_bytes text.old ++ cost_lines totals.now) }
{
    push_line(alloc, text, "cost", totals.cost)?;
    push_line(alloc, text, "bound", totals.bound)?;
    push_line(alloc, text, "gap", totals.cost - totals.bound)?;
    push_line(alloc, text, "slack", totals.slack)?;
    Ok(())
}

#[cfg(test)]
mod tests;
