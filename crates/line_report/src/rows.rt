//! Tables, written to a sink page by page.

ghost use Rattle.std.specs.Prelude.{◌≡◌, ◌≤◌, ◌<◌, ◌+◌, ◌++◌, [], ◌∷◌, ℕ, List, Err, IfErr, IfOk, OnOk, flat_map, length, map, take};
ghost use Rattle.std.specs.List.{range_with_len};
ghost use Rattle.definitions.specs.Causes.{Rose};
ghost use Rattle.desk_io.specs.Told.{Appends};
ghost use Rattle.line_report.specs.Pages.{IsBetweenRows, page_text};
ghost use Rattle.line_report.specs.Sending.{AppendsFront, CutsShort};
ghost use Rattle.line_report.specs.Tables.{Row, rows_text, table_text};
ghost use Rattle.line_report.specs.declared.fault.ReportFault.TheVariants as fault;

use crate::fault::ReportFault;
use crate::page::Page;
use desk_io::{Counted, Sink, write_all};
use std::alloc::Global;

// How many groups of rows stand on a page at most.
const PAGE: usize = 1024;

/// The rows of a table, in groups that are numbered from 0.
pub trait Rows {
    /// The rows of each group.
    ghost rows: { Self → ℕ → List Row };

    /// How many groups there are.
    ghost count: { Self → ℕ };

    /// How many groups there are.
    fn groups(&self) -> usize
        ensures value { result ≡ count self.now };

    /// Adds the rows of a group to a page. `NoMemory` where memory runs out.
    fn add_group(&self, group: usize, page: &mut Page) -> Result<(), ReportFault>
        requires group { group < count self.now }
        requires between { IsBetweenRows page.old }
        ensures between { OnOk result (IsBetweenRows page.new) }
        ensures added { OnOk result
            (page_text page.new ≡ page_text page.old ++ rows_text (rows self.now group)) }
        ensures no_memory { IfErr result (λ e. e ≡ fault.NoMemory) };
}

/// Writes a table with these columns to a sink.
///
/// A page of it is in memory at a time. Where a write fails, `sent` counts the bytes of the table
/// that were sent. A table of more bytes than a usize counts is answered with want of memory.
pub(crate) fn write_table<T: Rows, S: Sink>(
    alloc: Global,
    out: &mut S,
    columns: &[&[u8]],
    table: &T,
) -> Result<(), ReportFault>
    ensures ok { OnOk result (Appends (S.written out.old) (S.written out.new)
        (table_text (map (λ name. name.now) columns.now) (T.rows table.now) (T.count table.now))) }
    ensures sent { (sent : ℕ) → result ≡ Err (fault.WriteFault sent)
        → Appends (S.written out.old) (S.written out.new) (take sent
        (table_text (map (λ name. name.now) columns.now) (T.rows table.now) (T.count table.now))) }
    ensures part { (sent : ℕ) → result ≡ Err (fault.WriteFault sent) → sent < length
        (table_text (map (λ name. name.now) columns.now) (T.rows table.now) (T.count table.now)) }
    ensures write_cause { (sent : ℕ) → result ≡ Err (fault.WriteFault sent)
        → Rose (S.count out.old) (S.count out.new) }
    ensures no_memory { result ≡ Err fault.NoMemory
        → AppendsFront (S.written out.old) (S.written out.new)
        (table_text (map (λ name. name.now) columns.now) (T.rows table.now) (T.count table.now)) }
    ensures count { S.count out.old ≤ S.count out.new }
    ensures rest { S.keeps_sink_rest out.old out.new }
{
    let header = header_text(alloc, columns)?;
    let mut sent = send(out, 0, &header)?;
    let groups = table.groups();
    let mut from = 0;
    while from < groups {
        let count = PAGE.min(groups - from);
        let page = page_from(alloc, table, from, count)?;
        sent = send(out, sent, &page)?;
        from += count;
    }
    Ok(())
}

/// The text of a header of these columns. `NoMemory` where memory runs out.
pub fn header_text(alloc: Global, columns: &[&[u8]]) -> Result<Vec<u8>, ReportFault>
    ensures value { IfOk result (λ text. text.items
        ≡ rows_text (map (λ name. name.now) columns.now ∷ [])) }
    ensures no_memory { IfErr result (λ e. e ≡ fault.NoMemory) }
{
    let mut page = Page::new(alloc);
    page.add(columns)?;
    page.text()
}

/// The text of so many groups of rows, from one on. `NoMemory` where memory runs out.
pub fn page_from<T: Rows>(
    alloc: Global,
    table: &T,
    from: usize,
    count: usize,
) -> Result<Vec<u8>, ReportFault>
    requires within { from + count ≤ T.count table.now }
    ensures value { IfOk result (λ text. text.items
        ≡ rows_text (flat_map (T.rows table.now) (range_with_len from count))) }
    ensures no_memory { IfErr result (λ e. e ≡ fault.NoMemory) }
{
    // No sum passes a usize.
    let _groups = table.groups();
    let mut page = Page::new(alloc);
    for step in 0..count {
        table.add_group(from + step, &mut page)?;
    }
    page.text()
}

/// Sends a piece of a text behind so many bytes of it that were sent before, and gives how many
/// they are then.
///
/// # Refusals
///
/// - `WriteFault` where the sink failed: `sent` counts the bytes before and those of the piece that
///   were sent.
/// - `NoMemory`, with nothing written, where a usize does not count them all.
pub fn send<S: Sink>(out: &mut S, before: usize, piece: &[u8]) -> Result<usize, ReportFault>
    ensures all { IfOk result (λ sent. sent ≡ before + length piece.now) }
    ensures ok { OnOk result (Appends (S.written out.old) (S.written out.new) piece.now) }
    ensures stops { (sent : ℕ) → result ≡ Err (fault.WriteFault sent)
        → CutsShort (S.written out.old) (S.written out.new) before piece.now sent }
    ensures write_cause { (sent : ℕ) → result ≡ Err (fault.WriteFault sent)
        → Rose (S.count out.old) (S.count out.new) }
    ensures nothing { result ≡ Err fault.NoMemory → out.new ≡ out.old }
    ensures count { S.count out.old ≤ S.count out.new }
    ensures rest { S.keeps_sink_rest out.old out.new }
{
    let Some(sent) = before.checked_add(piece.len()) else {
        return Err(ReportFault::NoMemory);
    };
    match write_all(out, piece) {
        Ok(()) => Ok(sent),
        Err(fault) => Err(ReportFault::WriteFault {
            sent: before + fault.sent,
        }),
    }
}
