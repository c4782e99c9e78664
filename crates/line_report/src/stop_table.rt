//! The table of stops.

ghost use Rattle.std.specs.Prelude.{◌≡◌, ◌≤◌, ◌<◌, ℕ, Err, OnOk, length, map, take};
ghost use Rattle.definitions.specs.Causes.{Rose};
ghost use Rattle.desk_io.specs.Told.{Appends};
ghost use Rattle.line_report.specs.Sending.{AppendsFront};
ghost use Rattle.line_report.specs.Tables.{rows_of_stop, stop_header, stops_text, table_with};
ghost use Rattle.line_report.specs.declared.fault.ReportFault.TheVariants as fault;
ghost use Rattle.network.specs.Standing.{IsCityOf};

use crate::fault::ReportFault;
use crate::page::Page;
use crate::rows::{Rows, write_table};
use crate::table::Table;
use desk_io::Sink;
use feed_reader::Feed;
use headways::Lines;
use itoa::Buffer;
use loading::Totals;
use network::CityNet;
use std::alloc::Global;

/// Writes the table of stops: a row for each stop of the feed, in their order. docs/FORMATS.md has
/// its columns. `feed` and `lines` are those of the city, and `totals` have a volume for each arc.
///
/// # Refusals
///
/// - `WriteFault` where the sink failed: the bytes sent are the first of the table.
/// - `NoMemory`: some first bytes of the table were written, maybe none.
pub fn stops<S: Sink>(
    alloc: Global,
    out: &mut S,
    city: &CityNet,
    feed: &Feed,
    lines: &Lines,
    totals: &Totals,
) -> Result<(), ReportFault>
    requires city { IsCityOf city.now feed.now lines.now.lines }
    requires volumes { length totals.now.volumes ≡ length city.now.net.arcs }
    ensures ok { OnOk result (Appends (S.written out.old) (S.written out.new)
        (stops_text (table_with city.now feed.now lines.now.lines totals.now.volumes))) }
    ensures sent { (sent : ℕ) → result ≡ Err (fault.WriteFault sent)
        → Appends (S.written out.old) (S.written out.new) (take sent
        (stops_text (table_with city.now feed.now lines.now.lines totals.now.volumes))) }
    ensures part { (sent : ℕ) → result ≡ Err (fault.WriteFault sent) → sent < length
        (stops_text (table_with city.now feed.now lines.now.lines totals.now.volumes)) }
    ensures write_cause { (sent : ℕ) → result ≡ Err (fault.WriteFault sent)
        → Rose (S.count out.old) (S.count out.new) }
    ensures no_memory { result ≡ Err fault.NoMemory
        → AppendsFront (S.written out.old) (S.written out.new)
        (stops_text (table_with city.now feed.now lines.now.lines totals.now.volumes)) }
    ensures count { S.count out.old ≤ S.count out.new }
    ensures rest { S.keeps_sink_rest out.old out.new }
{
    let table = StopRows {
        table: Table::new(city, feed, lines, totals),
    };
    write_table(alloc, out, &columns(), &table)
}

// The columns of the table.
fn columns() -> [&'static [u8]; 6]
    ensures value { map (λ name. name.now) result ≡ stop_header }
{
    [
        "stop_id".as_bytes(),
        "first_boardings".as_bytes(),
        "later_boardings".as_bytes(),
        "alightings".as_bytes(),
        "access".as_bytes(),
        "egress".as_bytes(),
    ]
}

// A row for each stop.
#[derive(Drop)]
struct StopRows<'a> {
    table: Table<'a>,
}

impl<'a> Rows for StopRows<'a> {
    ghost rows = { λ t. rows_of_stop t.table };

    ghost count = { λ t. length t.table.feed.stops };

    fn groups(&self) -> usize {
        self.table.stops()
    }

    fn add_group(&self, group: usize, page: &mut Page) -> Result<(), ReportFault> {
        let table = &self.table;
        let mut first = Buffer::new();
        let mut later = Buffer::new();
        let mut alighted = Buffer::new();
        let mut access = Buffer::new();
        let mut egress = Buffer::new();
        page.add(&[
            table.id_of_stop(group),
            first.format(table.first_boarded(group)).as_bytes(),
            later.format(table.later_boarded(group)).as_bytes(),
            alighted.format(table.alighted_at_stop(group)).as_bytes(),
            access.format(table.came_from_zones(group)).as_bytes(),
            egress.format(table.went_to_zones(group)).as_bytes(),
        ])
    }
}
