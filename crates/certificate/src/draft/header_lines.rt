//! The lines before the rows.

ghost use Rattle.std.specs.Prelude.{◌≡◌, ◌≢◌, IfOk, OnOk, OnErr, codes};
ghost use Rattle.certificate.specs.Bytes.{Gives, literal_at};
ghost use Rattle.certificate.specs.Lines.{number_line_at, destination_line_at};
ghost use Rattle.certificate.specs.Spelling.{title};
ghost use Rattle.certificate.specs.Draft.{Took};
ghost use Rattle.certificate.specs.NextLine.{rest_of};
ghost use Rattle.certificate.specs.Fed.{IsPastArcs};
ghost use Rattle.certificate.specs.ProblemDraft.{IsUnclaimed};

use crate::bytes::literal_of;
use crate::draft::Draft;
use crate::fault::Fault;
use crate::lines::{destination_line_of, number_line_of};
use crate::refused::Limit;
use crate::rows::Rows;
use crate::stage::Stage;

impl Draft {
    // The title.
    pub fn title_line<'a>(&mut self, bytes: &'a [u8]) -> Result<&'a [u8], Fault>
        requires stage { self.old.stage ≡ Stage.Title }
        ensures took { IfOk result (λ rest. Took self.old bytes.now self.new rest.now) }
        ensures read { Gives (λ rest. rest.now) result (literal_at title bytes.now) }
        ensures err { OnErr result (self.new ≡ self.old) }
    {
        let rest = literal_of(b"assignment-certificate 1\n", bytes)?;
        self.stage = Stage::Nodes;
        Ok(rest)
    }

    // The number of nodes.
    pub fn nodes_line<'a>(&mut self, bytes: &'a [u8]) -> Result<&'a [u8], Fault>
        requires stage { self.old.stage ≡ Stage.Nodes }
        ensures took { IfOk result (λ rest. Took self.old bytes.now self.new rest.now) }
        ensures read { Gives (λ rest. rest.now) result (rest_of (number_line_at (codes "nodes") Limit.Nodes bytes.now)) }
        ensures err { OnErr result (self.new ≡ self.old) }
        ensures unclaimed { OnOk result (IsUnclaimed self.old → IsUnclaimed self.new) }
    {
        let (number, rest) = number_line_of(b"nodes", Limit::Nodes, bytes)?;
        self.nodes = number as u32;
        self.stage = Stage::Arcs;
        Ok(rest)
    }

    // The number of arcs, and the room for all rows.
    pub fn arcs_line<'a>(&mut self, bytes: &'a [u8]) -> Result<&'a [u8], Fault>
        requires stage { self.old.stage ≡ Stage.Arcs }
        ensures took { IfOk result (λ rest. Took self.old bytes.now self.new rest.now) }
        ensures read { result ≢ Err Fault.NoMemory → Gives (λ rest. rest.now) result (rest_of (number_line_at (codes "arcs") Limit.Arcs bytes.now)) }
        ensures err { OnErr result (self.new ≡ self.old) }
        ensures unclaimed { OnOk result (IsUnclaimed self.old → IsUnclaimed self.new) }
    {
        let (number, rest) = number_line_of(b"arcs", Limit::Arcs, bytes)?;
        let arc_count = number as u32;
        self.rows = Rows::with_room(self.alloc, self.nodes, arc_count)?;
        self.arc_count = arc_count;
        self.stage = Stage::K;
        Ok(rest)
    }

    // The wait constant.
    pub fn k_line<'a>(&mut self, bytes: &'a [u8]) -> Result<&'a [u8], Fault>
        requires stage { self.old.stage ≡ Stage.K }
        ensures took { IfOk result (λ rest. Took self.old bytes.now self.new rest.now) }
        ensures read { Gives (λ rest. rest.now) result (rest_of (number_line_at (codes "k") Limit.K bytes.now)) }
        ensures err { OnErr result (self.new ≡ self.old) }
        ensures onward { IsPastArcs self.new.stage }
        ensures unclaimed { OnOk result (IsUnclaimed self.old → IsUnclaimed self.new) }
    {
        let (number, rest) = number_line_of(b"k", Limit::K, bytes)?;
        self.k = number as u64;
        self.stage = Stage::Destination;
        Ok(rest)
    }

    // The destination.
    pub fn destination_line<'a>(&mut self, bytes: &'a [u8]) -> Result<&'a [u8], Fault>
        requires stage { self.old.stage ≡ Stage.Destination }
        ensures took { IfOk result (λ rest. Took self.old bytes.now self.new rest.now) }
        ensures read { Gives (λ rest. rest.now) result (rest_of (destination_line_at self.old.nodes bytes.now)) }
        ensures err { OnErr result (self.new ≡ self.old) }
        ensures onward { IsPastArcs self.new.stage }
        ensures unclaimed { OnOk result (IsUnclaimed self.old → IsUnclaimed self.new) }
    {
        let (number, rest) = destination_line_of(self.nodes, bytes)?;
        self.destination = number;
        self.stage = Stage::Rows;
        Ok(rest)
    }
}
