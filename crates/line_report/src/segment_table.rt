//! The table of segments.

ghost use Rattle.std.specs.Prelude.{◌≡◌, ◌≤◌, ◌<◌, ◌+◌, ◌++◌, [], ◌∷◌, ℕ, Err, IfErr, OnOk, length, map, take};
ghost use Rattle.definitions.specs.Causes.{Rose};
ghost use Rattle.desk_io.specs.Told.{Appends};
ghost use Rattle.line_report.specs.OnBoard.{AreConserved, LoadsAddUp};
ghost use Rattle.line_report.specs.Pages.{IsBetweenRows, page_text};
ghost use Rattle.line_report.specs.Sending.{AppendsFront};
ghost use Rattle.line_report.specs.Tables.{rows_of_segments, rows_text, segment_fields, segment_header, segments_text, table_with};
ghost use Rattle.line_report.specs.declared.fault.ReportFault.TheVariants as fault;
ghost use Rattle.network.specs.Standing.{IsCityOf, line_in};

use crate::fault::ReportFault;
use crate::page::Page;
use crate::rows::{Rows, write_table};
use crate::table::Table;
use desk_io::Sink;
use feed_reader::Feed;
use headways::Lines;
use itoa::Buffer;
use loading::Totals;
use network::CityNet;
use std::alloc::Global;

/// Writes the table of segments: for each kept line, in their order, a row for each place that it
/// leaves. docs/FORMATS.md has its columns. `feed` and `lines` are those of the city, and `totals`
/// have a volume for each arc.
///
/// # Refusals
///
/// - `WriteFault` where the sink failed: the bytes sent are the first of the table.
/// - `NoMemory`: some first bytes of the table were written, maybe none.
pub fn segments<S: Sink>(
    alloc: Global,
    out: &mut S,
    city: &CityNet,
    feed: &Feed,
    lines: &Lines,
    totals: &Totals,
) -> Result<(), ReportFault>
    requires city { IsCityOf city.now feed.now lines.now.lines }
    requires volumes { length totals.now.volumes ≡ length city.now.net.arcs }
    ensures ok { OnOk result (Appends (S.written out.old) (S.written out.new)
        (segments_text (table_with city.now feed.now lines.now.lines totals.now.volumes))) }
    ensures sent { (sent : ℕ) → result ≡ Err (fault.WriteFault sent)
        → Appends (S.written out.old) (S.written out.new) (take sent
        (segments_text (table_with city.now feed.now lines.now.lines totals.now.volumes))) }
    ensures part { (sent : ℕ) → result ≡ Err (fault.WriteFault sent) → sent < length
        (segments_text (table_with city.now feed.now lines.now.lines totals.now.volumes)) }
    ensures write_cause { (sent : ℕ) → result ≡ Err (fault.WriteFault sent)
        → Rose (S.count out.old) (S.count out.new) }
    ensures no_memory { result ≡ Err fault.NoMemory
        → AppendsFront (S.written out.old) (S.written out.new)
        (segments_text (table_with city.now feed.now lines.now.lines totals.now.volumes)) }
    ensures count { S.count out.old ≤ S.count out.new }
    ensures rest { S.keeps_sink_rest out.old out.new }

    // Where what comes in at a node goes out of it, the loads along each line follow from its
    // boardings and alightings.
    ensures loads { AreConserved city.now totals.now.volumes
        → LoadsAddUp city.now lines.now.lines totals.now.volumes }
{
    // Each arc joins the nodes that its kind says.
    city.rules();
    city.net().rules();
    let table = SegmentRows {
        table: Table::new(city, feed, lines, totals),
    };
    write_table(alloc, out, &columns(), &table)
}

// The columns of the table.
fn columns() -> [&'static [u8]; 7]
    ensures value { map (λ name. name.now) result ≡ segment_header }
{
    [
        "line".as_bytes(),
        "position".as_bytes(),
        "from_stop_id".as_bytes(),
        "to_stop_id".as_bytes(),
        "boarded".as_bytes(),
        "alighted".as_bytes(),
        "load".as_bytes(),
    ]
}

// The rows of each kept line.
#[derive(Drop)]
struct SegmentRows<'a> {
    table: Table<'a>,
}

impl<'a> Rows for SegmentRows<'a> {
    ghost rows = { λ t. rows_of_segments t.table };

    ghost count = { λ t. length t.table.city.kept };

    fn groups(&self) -> usize {
        self.table.kept()
    }

    fn add_group(&self, group: usize, page: &mut Page) -> Result<(), ReportFault> {
        for place in 0..self.table.legs(group) {
            add_segment(&self.table, group, place, page)?;
        }
        Ok(())
    }
}

// Adds the row of a kept line from a place to the next.
fn add_segment(table: &Table, kept: usize, place: usize, page: &mut Page) -> Result<(), ReportFault>
    requires kept { kept < length table.now.city.kept }
    requires place { place + 1 < length (line_in table.now.city table.now.lines kept).places }
    requires between { IsBetweenRows page.old }
    ensures between { OnOk result (IsBetweenRows page.new) }
    ensures added { OnOk result (page_text page.new
        ≡ page_text page.old ++ rows_text (segment_fields table.now kept place ∷ [])) }
    ensures no_memory { IfErr result (λ e. e ≡ fault.NoMemory) }
{
    // So no place is past a usize.
    table.has_nodes(kept, place);
    let mut line = Buffer::new();
    let mut position = Buffer::new();
    let mut boarded = Buffer::new();
    let mut alighted = Buffer::new();
    let mut load = Buffer::new();
    page.add(&[
        line.format(kept).as_bytes(),
        position.format(place).as_bytes(),
        table.id_at(kept, place),
        table.id_at(kept, place + 1),
        boarded.format(table.boarded(kept, place)).as_bytes(),
        alighted.format(table.alighted(kept, place)).as_bytes(),
        load.format(table.on_board(kept, place)).as_bytes(),
    ])
}
