//! A certificate as far as it is read: its numbers, and no second copy of its text.

ghost use Rattle.std.specs.Prelude.{◌≡◌, ◌≢◌, ◌≤◌, ◌↔◌, ◌++◌, ◌⊎◌, length, None, IsTrue, IfOk, IfErr, IfSome, OnOk, OnErr};
ghost use Rattle.certificate.specs.Bytes.{Gives};
ghost use Rattle.certificate.specs.Draft.{Took, text_so_far};
ghost use Rattle.certificate.specs.NextLine.{line_at};
ghost use Rattle.certificate.specs.Kept.{IsKept};
ghost use Rattle.certificate.specs.Fed.{IsPastArcs, HasFault};
ghost use Rattle.certificate.specs.ProblemDraft.{IsUnclaimed, HasDemandLeft};

mod header_lines;
mod network_lines;
mod row_lines;
mod whole;

use crate::fault::Fault;
use crate::rows::Rows;
use crate::stage::Stage;
use std::alloc::Global;
use std::marker::Model;

/// The lines of a certificate read so far.
///
/// The room for all rows is made with the line of the number of arcs, so no other line wants memory.
#[derive(Drop)]
pub struct Draft {
    alloc: Global,
    stage: Stage,
    nodes: u32,
    arc_count: u32,
    k: u64,
    destination: u32,
    units: u64,
    rows: Rows,
}

impl Model for Draft {
    ghost use Rattle.certificate.specs.Draft.{DraftData};

    ghost Value = { DraftData };

    ghost use Rattle.certificate.specs.DraftFields.{draft_of, IsDraft};

    ghost view = { draft_of };

    ghost invariant = { IsDraft };
}

impl Draft {
    /// A draft of which nothing is read.
    pub fn new(alloc: Global) -> Draft
        ensures stage { result.stage ≡ Stage.Title }
        ensures kept { IsKept result }
    {
        Draft {
            alloc,
            stage: Stage::Title,
            nodes: 0,
            arc_count: 0,
            k: 0,
            destination: 0,
            units: 0,
            rows: Rows::new(alloc),
        }
    }

    /// Whether the last line is read.
    pub fn is_done(&self) -> bool
        ensures value { IsTrue result ↔ (self.now.stage ≡ Stage.Done) }
        ensures kept { IsKept self.now }
    {
        self.stage == Stage::Done
    }

    /// Takes the next line from the front of the bytes, and gives the bytes after it.
    ///
    /// A refusal leaves the draft as it was. `NoMemory` may come at the number of arcs alone.
    pub fn line<'a>(&mut self, bytes: &'a [u8]) -> Result<&'a [u8], Fault>
        ensures took { IfOk result (λ rest. Took self.old bytes.now self.new rest.now) }
        ensures read { result ≢ Err Fault.NoMemory → Gives (λ rest. rest.now) result (line_at self.old bytes.now) }
        ensures memory { result ≡ Err Fault.NoMemory → self.old.stage ≡ Stage.Arcs }
        ensures err { OnErr result (self.new ≡ self.old) }
        ensures onward { IsPastArcs self.old.stage → IsPastArcs self.new.stage }
        ensures unclaimed { OnOk result (HasDemandLeft self.old → IsUnclaimed self.old → IsUnclaimed self.new) }
    {
        match self.stage {
            Stage::Title => self.title_line(bytes),
            Stage::Nodes => self.nodes_line(bytes),
            Stage::Arcs => self.arcs_line(bytes),
            Stage::K => self.k_line(bytes),
            Stage::Destination => self.destination_line(bytes),
            Stage::Rows => self.row(bytes),
            Stage::Done => Err(Fault::Stop(bytes.len())),
        }
    }

    /// Takes the next line from the front of the bytes, and gives the bytes after it, or None where
    /// the line is not ended.
    pub fn next_line<'a>(&mut self, bytes: &'a [u8]) -> Result<Option<&'a [u8]>, Fault>
        requires kept { IsKept self.old }
        ensures took { IfOk result (λ ended. IfSome ended (λ rest. Took self.old bytes.now self.new rest.now)) }
        ensures read { IfOk result (λ ended. IfSome ended (λ rest. line_at self.old bytes.now ≡ Ok rest.now)) }
        ensures unended { result ≡ Ok None → (line_at self.old bytes.now ≡ Err (Fault.Stop 0)) × (self.new ≡ self.old) }
        ensures fault { IfErr result (λ fault. (fault ≡ Fault.NoMemory) ⊎ HasFault (text_so_far self.old ++ bytes.now) fault) }
        ensures memory { IsPastArcs self.old.stage → result ≢ Err Fault.NoMemory }
        ensures onward { IsPastArcs self.old.stage → IsPastArcs self.new.stage }
    {
        match self.line(bytes) {
            Ok(rest) => Ok(Some(rest)),
            Err(Fault::Stop(0)) => Ok(None),
            Err(fault) => Err(fault),
        }
    }

    /// Takes all lines that are ended from the front of the bytes, and gives the bytes after them.
    pub fn lines<'a>(&mut self, bytes: &'a [u8]) -> Result<&'a [u8], Fault>
        ensures text { IfOk result (λ rest. text_so_far self.new ++ rest.now ≡ text_so_far self.old ++ bytes.now) }
        ensures within { IfOk result (λ rest. length rest.now ≤ length bytes.now) }
        ensures unended { IfOk result (λ rest. line_at self.new rest.now ≡ Err (Fault.Stop 0)) }
        ensures kept { OnOk result (IsKept self.new) }
        ensures fault { IfErr result (λ fault. (fault ≡ Fault.NoMemory) ⊎ HasFault (text_so_far self.old ++ bytes.now) fault) }
        ensures memory { IsPastArcs self.old.stage → result ≢ Err Fault.NoMemory }
        ensures onward { IsPastArcs self.old.stage → IsPastArcs self.new.stage }
    {
        let mut rest = bytes;
        while !self.is_done() || !rest.is_empty() {
            match self.next_line(rest)? {
                Some(after) => rest = after,
                None => return Ok(rest),
            }
        }
        Ok(rest)
    }
}
