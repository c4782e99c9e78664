//! All reports in memory.

ghost use Rattle.std.specs.Prelude.{◌≡◌, ◌+◌, ◌<◌, ◌≤◌, ℕ, [], Err, IfErr, IfOk, OnErr, OnOk, Some, length, take};
ghost use Rattle.definitions.specs.Causes.{Rose};
ghost use Rattle.desk_io.specs.Told.{Appends};
ghost use Rattle.line_report.specs.declared.fault.ReportFault.TheVariants as fault;
ghost use Rattle.assign.specs.JobSteps.{IsPrintable, data_of};
ghost use Rattle.assign.specs.Prints.{all_text};
ghost use Rattle.assign.specs.Reports.{IsCutShort, KeepsLimit};
ghost use Rattle.assign.specs.declared.documents.Unfit.TheVariants as unfit;

use crate::preparing::Prepared;
use desk_io::{Counted, Failed, Sink, write_all};
use line_report::{ReportFault, lines, segments, stops, summary};
use loading::Totals;
use std::alloc::Global;
use std::marker::Model;

/// Why a text was not made in memory.
#[derive(Clone, Copy, Debug, Drop, PartialEq, Eq)]
pub(crate) enum Unfit {
    /// It is longer than it may be.
    TooLong,
    NoMemory,
}

/// The summary and the tables of lines, stops and segments, one after the other, where they are no
/// more bytes than the limit.
pub(crate) fn all_reports(
    alloc: Global,
    prepared: &Prepared,
    totals: &Totals,
    limit: usize,
) -> Result<Vec<u8>, Unfit>
    requires printable { IsPrintable prepared.now }
    requires volumes { length totals.now.volumes ≡ length prepared.now.city.net.arcs }
    requires gap { totals.now.bound ≤ totals.now.cost }
    ensures value { IfOk result
        (λ text. text.items ≡ all_text (data_of prepared.now) totals.now) }
    ensures within { IfOk result (λ text. length text.items ≤ limit) }
    ensures too_long { result ≡ Err unfit.TooLong
        → limit < length (all_text (data_of prepared.now) totals.now) }
{
    let mut document = Document::new(alloc, limit);
    match write_reports(alloc, prepared, totals, &mut document) {
        Ok(()) => Ok(document.text()),
        Err(ReportFault::WriteFault { .. }) => Err(document.unfit()),
        Err(ReportFault::NoMemory) => Err(Unfit::NoMemory),
    }
}

/// Writes all reports, which are made in memory before.
///
/// # Refusals
///
/// - `WriteFault` where the sink failed: the bytes sent are the first of the text.
/// - `NoMemory`: nothing was written.
pub(crate) fn print_all<S: Sink>(
    alloc: Global,
    out: &mut S,
    prepared: &Prepared,
    totals: &Totals,
) -> Result<(), ReportFault>
    requires printable { IsPrintable prepared.now }
    requires volumes { length totals.now.volumes ≡ length prepared.now.city.net.arcs }
    requires gap { totals.now.bound ≤ totals.now.cost }
    ensures ok { OnOk result (Appends (S.written out.old) (S.written out.new)
        (all_text (data_of prepared.now) totals.now)) }
    ensures sent { (sent : ℕ) → result ≡ Err (fault.WriteFault sent)
        → Appends (S.written out.old) (S.written out.new)
        (take sent (all_text (data_of prepared.now) totals.now)) }
    ensures part { (sent : ℕ) → result ≡ Err (fault.WriteFault sent)
        → sent < length (all_text (data_of prepared.now) totals.now) }
    ensures write_cause { (sent : ℕ) → result ≡ Err (fault.WriteFault sent)
        → Rose (S.count out.old) (S.count out.new) }
    ensures nothing { result ≡ Err fault.NoMemory → out.new ≡ out.old }
    ensures count { S.count out.old ≤ S.count out.new }
    ensures rest { S.keeps_sink_rest out.old out.new }
{
    let Ok(text) = all_reports(alloc, prepared, totals, usize::MAX) else {
        return Err(ReportFault::NoMemory);
    };
    write_all(out, &text)?;
    Ok(())
}

// Writes one report after the other.
fn write_reports<S: Sink>(
    alloc: Global,
    prepared: &Prepared,
    totals: &Totals,
    out: &mut S,
) -> Result<(), ReportFault>
    requires printable { IsPrintable prepared.now }
    requires volumes { length totals.now.volumes ≡ length prepared.now.city.net.arcs }
    requires gap { totals.now.bound ≤ totals.now.cost }
    ensures ok { OnOk result (Appends (S.written out.old) (S.written out.new)
        (all_text (data_of prepared.now) totals.now)) }
    ensures cut { (sent : ℕ) → result ≡ Err (fault.WriteFault sent)
        → IsCutShort (all_text (data_of prepared.now) totals.now)
        (S.written out.old) (S.written out.new) }
    ensures rest { S.keeps_sink_rest out.old out.new }
{
    let Prepared {
        feed: feed_of,
        lines: lines_of,
        city,
        counts,
        ..
    } = prepared;
    summary(alloc, out, city, totals, counts)?;
    lines(alloc, out, city, feed_of, lines_of, totals)?;
    stops(alloc, out, city, feed_of, lines_of, totals)?;
    segments(alloc, out, city, feed_of, lines_of, totals)?;
    Ok(())
}

// A text in memory of no more bytes than a limit.
#[derive(Drop)]
struct Document {
    text: Vec<u8>,
    limit: usize,
    faults: u64,
}

impl Model for Document {
    ghost use Rattle.std.specs.Prelude.{◌≤◌, length};
    ghost use Rattle.assign.specs.Reports.{DocumentData};

    ghost Value = { DocumentData };

    ghost view = { λ d. record { text = d.text.items; limit = d.limit; faults = d.faults } };

    ghost invariant = { λ d. length d.text.items ≤ d.limit };
}

impl Document {
    // An empty text.
    fn new(alloc: Global, limit: usize) -> Document
        ensures value { result ≡ record { text = []; limit = limit; faults = 0 } }
    {
        Document {
            text: Vec::new(alloc),
            limit,
            faults: 0,
        }
    }

    // Counts a failed write.
    fn fail(&mut self) -> Failed
        ensures text { self.new.text ≡ self.old.text }
        ensures limit { self.new.limit ≡ self.old.limit }
        ensures cause { Rose self.old.faults self.new.faults }
        ensures count { self.old.faults ≤ self.new.faults }
    {
        self.faults = self.faults.saturating_add(1);
        Failed
    }

    // Why a write to it failed.
    fn unfit(&self) -> Unfit
        ensures too_long { result ≡ unfit.TooLong → length self.now.text ≡ self.now.limit }
    {
        if self.text.len() == self.limit {
            Unfit::TooLong
        } else {
            Unfit::NoMemory
        }
    }

    // Its text.
    fn text(self) -> Vec<u8>
        ensures value { result.items ≡ self.text }
        ensures within { length result.items ≤ self.limit }
    {
        self.text
    }
}

impl Counted for Document {
    ghost count = { λ d. d.faults };

    fn faults(&self) -> u64 {
        self.faults
    }
}

impl Sink for Document {
    ghost written = { λ d. Some d.text };

    // The limit stays.
    ghost keeps_sink_rest = { KeepsLimit };

    ghost sink_rest_reflexive = { λ _ _ is. is };

    ghost sink_rest_transitive = { λ _ _ _ one other limit is. other limit (one limit is) };

    fn write(&mut self, piece: &[u8]) -> Result<usize, Failed> {
        let n = piece.len().min(self.limit - self.text.len());
        if n == 0 && !piece.is_empty() {
            return Err(self.fail());
        }
        match self.text.extend_from_slice(&piece[..n]) {
            Ok(()) => Ok(n),
            Err(_) => Err(self.fail()),
        }
    }
}
