//! The table of lines.

ghost use Rattle.std.specs.Prelude.{◌≡◌, ◌≤◌, ◌<◌, ℕ, Err, OnOk, length, map, take};
ghost use Rattle.definitions.specs.Causes.{Rose};
ghost use Rattle.desk_io.specs.Told.{Appends};
ghost use Rattle.line_report.specs.Sending.{AppendsFront};
ghost use Rattle.line_report.specs.Tables.{line_header, lines_text, rows_of_line, table_with};
ghost use Rattle.line_report.specs.declared.fault.ReportFault.TheVariants as fault;
ghost use Rattle.network.specs.Standing.{IsCityOf};

use crate::fault::ReportFault;
use crate::page::Page;
use crate::rows::{Rows, write_table};
use crate::table::Table;
use desk_io::Sink;
use feed_reader::Feed;
use headways::Lines;
use itoa::Buffer;
use loading::Totals;
use network::CityNet;
use std::alloc::Global;

/// Writes the table of lines: a row for each kept line, in their order. docs/FORMATS.md has its
/// columns. `feed` and `lines` are those of the city, and `totals` have a volume for each arc.
///
/// # Refusals
///
/// - `WriteFault` where the sink failed: the bytes sent are the first of the table.
/// - `NoMemory`: some first bytes of the table were written, maybe none.
pub fn lines<S: Sink>(
    alloc: Global,
    out: &mut S,
    city: &CityNet,
    feed: &Feed,
    lines: &Lines,
    totals: &Totals,
) -> Result<(), ReportFault>
    requires city { IsCityOf city.now feed.now lines.now.lines }
    requires volumes { length totals.now.volumes ≡ length city.now.net.arcs }
    ensures ok { OnOk result (Appends (S.written out.old) (S.written out.new)
        (lines_text (table_with city.now feed.now lines.now.lines totals.now.volumes))) }
    ensures sent { (sent : ℕ) → result ≡ Err (fault.WriteFault sent)
        → Appends (S.written out.old) (S.written out.new) (take sent
        (lines_text (table_with city.now feed.now lines.now.lines totals.now.volumes))) }
    ensures part { (sent : ℕ) → result ≡ Err (fault.WriteFault sent) → sent < length
        (lines_text (table_with city.now feed.now lines.now.lines totals.now.volumes)) }
    ensures write_cause { (sent : ℕ) → result ≡ Err (fault.WriteFault sent)
        → Rose (S.count out.old) (S.count out.new) }
    ensures no_memory { result ≡ Err fault.NoMemory
        → AppendsFront (S.written out.old) (S.written out.new)
        (lines_text (table_with city.now feed.now lines.now.lines totals.now.volumes)) }
    ensures count { S.count out.old ≤ S.count out.new }
    ensures rest { S.keeps_sink_rest out.old out.new }
{
    let table = LineRows {
        table: Table::new(city, feed, lines, totals),
    };
    write_table(alloc, out, &columns(), &table)
}

// The columns of the table.
fn columns() -> [&'static [u8]; 7]
    ensures value { map (λ name. name.now) result ≡ line_header }
{
    [
        "line".as_bytes(),
        "route_id".as_bytes(),
        "weight".as_bytes(),
        "boardings".as_bytes(),
        "transfers".as_bytes(),
        "max_load".as_bytes(),
        "unit_ticks".as_bytes(),
    ]
}

// A row for each kept line.
#[derive(Drop)]
struct LineRows<'a> {
    table: Table<'a>,
}

impl<'a> Rows for LineRows<'a> {
    ghost rows = { λ t. rows_of_line t.table };

    ghost count = { λ t. length t.table.city.kept };

    fn groups(&self) -> usize {
        self.table.kept()
    }

    fn add_group(&self, group: usize, page: &mut Page) -> Result<(), ReportFault> {
        let table = &self.table;
        let mut number = Buffer::new();
        let mut weight = Buffer::new();
        let mut boardings = Buffer::new();
        let mut transfers = Buffer::new();
        let mut most = Buffer::new();
        let mut ticks = Buffer::new();
        page.add(&[
            number.format(group).as_bytes(),
            table.id_of_route(group),
            weight.format(table.kept_line(group).weight).as_bytes(),
            boardings.format(table.boarded_in_all(group)).as_bytes(),
            transfers.format(table.transferred_in_all(group)).as_bytes(),
            most.format(table.most_on_board(group)).as_bytes(),
            ticks.format(table.ticks_in_all(group)).as_bytes(),
        ])
    }
}
