//! The rows and the last line.

ghost use Rattle.std.specs.Prelude.{◌≡◌, ◌<◌, ◌==◌, length, IfOk, OnOk, OnErr, codes};
ghost use Rattle.lp_model.specs.Faults.{tail_before};
ghost use Rattle.certificate.specs.Bytes.{Gives, literal_at};
ghost use Rattle.certificate.specs.Lines.{number_line_at, demand_line_at, arc_line_at};
ghost use Rattle.certificate.specs.Spelling.{last_line};
ghost use Rattle.certificate.specs.Draft.{Took, network_so_far};
ghost use Rattle.certificate.specs.NextLine.{rest_of, row_at};
ghost use Rattle.certificate.specs.Fed.{IsPastArcs};
ghost use Rattle.certificate.specs.ProblemDraft.{IsUnclaimed, HasDemandLeft};

use crate::bytes::literal_of;
use crate::draft::Draft;
use crate::fault::Fault;
use crate::lines::{arc_line_of, demand_line_of, number_line_of};
use crate::refused::Limit;
use crate::stage::Stage;

impl Draft {
    // The next row, or the last line where all rows are read.
    pub fn row<'a>(&mut self, bytes: &'a [u8]) -> Result<&'a [u8], Fault>
        requires stage { self.old.stage ≡ Stage.Rows }
        ensures took { IfOk result (λ rest. Took self.old bytes.now self.new rest.now) }
        ensures read { Gives (λ rest. rest.now) result (row_at self.old bytes.now) }
        ensures err { OnErr result (self.new ≡ self.old) }
        ensures onward { IsPastArcs self.new.stage }
        ensures unclaimed { OnOk result (HasDemandLeft self.old → IsUnclaimed self.old → IsUnclaimed self.new) }
    {
        let nodes = self.nodes as usize;
        let arc_count = self.arc_count as usize;
        if self.rows.arcs.len() < arc_count {
            self.arc_row(bytes)
        } else if self.rows.demand.len() < nodes {
            self.demand_row(bytes)
        } else if self.rows.labels.len() < nodes {
            self.label_row(bytes)
        } else if self.rows.volumes.len() < arc_count {
            self.volume_row(bytes)
        } else if self.rows.waits.len() < nodes {
            self.wait_row(bytes)
        } else {
            self.end_line(bytes)
        }
    }

    // The tail of the last arc so far, 0 where there is none.
    fn last_tail(&self) -> u32
        ensures value { result ≡ tail_before (network_so_far self.now) (length self.now.arcs) }
    {
        match self.rows.arcs.last() {
            Some(arc) => arc.tail,
            None => 0,
        }
    }

    // The next arc.
    fn arc_row<'a>(&mut self, bytes: &'a [u8]) -> Result<&'a [u8], Fault>
        requires stage { self.old.stage ≡ Stage.Rows }
        requires next { length self.old.arcs < self.old.arc_count }
        ensures took { IfOk result (λ rest. Took self.old bytes.now self.new rest.now) }
        ensures read { Gives (λ rest. rest.now) result
            (rest_of (arc_line_at self.old.nodes (tail_before (network_so_far self.old) (length self.old.arcs)) (length self.old.arcs) bytes.now)) }
        ensures err { OnErr result (self.new ≡ self.old) }
        ensures onward { IsPastArcs self.new.stage }
        ensures unclaimed { OnOk result (IsUnclaimed self.old → IsUnclaimed self.new) }
    {
        let number = self.rows.arcs.len() as u32;
        let before = self.last_tail();
        let (arc, rest) = arc_line_of(self.nodes, before, number, bytes)?;
        self.rows.arcs.push_reserved(arc);
        Ok(rest)
    }

    // The demand of the next node.
    fn demand_row<'a>(&mut self, bytes: &'a [u8]) -> Result<&'a [u8], Fault>
        requires stage { self.old.stage ≡ Stage.Rows }
        requires arcs { length self.old.arcs ≡ self.old.arc_count }
        requires next { length self.old.demand < self.old.nodes }
        ensures took { IfOk result (λ rest. Took self.old bytes.now self.new rest.now) }
        ensures read { Gives (λ rest. rest.now) result (rest_of (demand_line_at (length self.old.demand == self.old.destination) self.old.units bytes.now)) }
        ensures err { OnErr result (self.new ≡ self.old) }
        ensures onward { IsPastArcs self.new.stage }
        ensures unclaimed { OnOk result (IsUnclaimed self.old → IsUnclaimed self.new) }
    {
        let is_destination = self.rows.demand.len() == self.destination as usize;
        let (count, rest) = demand_line_of(is_destination, self.units, bytes)?;
        self.rows.demand.push_reserved(count);
        self.units += count;
        Ok(rest)
    }

    // The label of the next node.
    fn label_row<'a>(&mut self, bytes: &'a [u8]) -> Result<&'a [u8], Fault>
        requires stage { self.old.stage ≡ Stage.Rows }
        requires demand { length self.old.demand ≡ self.old.nodes }
        requires next { length self.old.labels < self.old.nodes }
        ensures took { IfOk result (λ rest. Took self.old bytes.now self.new rest.now) }
        ensures read { Gives (λ rest. rest.now) result (rest_of (number_line_at (codes "u") Limit.Label bytes.now)) }
        ensures err { OnErr result (self.new ≡ self.old) }
        ensures onward { IsPastArcs self.new.stage }
    {
        let (label, rest) = number_line_of(b"u", Limit::Label, bytes)?;
        self.rows.labels.push_reserved(label as u64);
        Ok(rest)
    }

    // The volume of the next arc.
    fn volume_row<'a>(&mut self, bytes: &'a [u8]) -> Result<&'a [u8], Fault>
        requires stage { self.old.stage ≡ Stage.Rows }
        requires labels { length self.old.labels ≡ self.old.nodes }
        requires next { length self.old.volumes < self.old.arc_count }
        ensures took { IfOk result (λ rest. Took self.old bytes.now self.new rest.now) }
        ensures read { Gives (λ rest. rest.now) result (rest_of (number_line_at (codes "v") Limit.Volume bytes.now)) }
        ensures err { OnErr result (self.new ≡ self.old) }
        ensures onward { IsPastArcs self.new.stage }
    {
        let (volume, rest) = number_line_of(b"v", Limit::Volume, bytes)?;
        self.rows.volumes.push_reserved(volume as u64);
        Ok(rest)
    }

    // The wait of the next node.
    fn wait_row<'a>(&mut self, bytes: &'a [u8]) -> Result<&'a [u8], Fault>
        requires stage { self.old.stage ≡ Stage.Rows }
        requires volumes { length self.old.volumes ≡ self.old.arc_count }
        requires labels { length self.old.labels ≡ self.old.nodes }
        requires next { length self.old.waits < self.old.nodes }
        ensures took { IfOk result (λ rest. Took self.old bytes.now self.new rest.now) }
        ensures read { Gives (λ rest. rest.now) result (rest_of (number_line_at (codes "q") Limit.Wait bytes.now)) }
        ensures err { OnErr result (self.new ≡ self.old) }
        ensures onward { IsPastArcs self.new.stage }
    {
        let (wait, rest) = number_line_of(b"q", Limit::Wait, bytes)?;
        self.rows.waits.push_reserved(wait);
        Ok(rest)
    }

    // The last line.
    fn end_line<'a>(&mut self, bytes: &'a [u8]) -> Result<&'a [u8], Fault>
        requires stage { self.old.stage ≡ Stage.Rows }
        requires whole { length self.old.waits ≡ self.old.nodes }
        ensures took { IfOk result (λ rest. Took self.old bytes.now self.new rest.now) }
        ensures read { Gives (λ rest. rest.now) result (literal_at last_line bytes.now) }
        ensures err { OnErr result (self.new ≡ self.old) }
        ensures onward { IsPastArcs self.new.stage }
    {
        let rest = literal_of(b"end\n", bytes)?;
        self.stage = Stage::Done;
        Ok(rest)
    }
}
