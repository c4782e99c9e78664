//! The lines of a network text: those of a certificate under another title, without labels, volumes and waits.

ghost use Rattle.std.specs.Prelude.{◌≡◌, ◌<◌, ◌++◌, ◌⊎◌, length, IsTrue, IsFalse, IfOk, IfErr, OnOk, Ok};
ghost use Rattle.certificate.specs.Bytes.{literal_at};
ghost use Rattle.certificate.specs.Spelling.{last_line};
ghost use Rattle.certificate.specs.NetworkText.{network_spelling};
ghost use Rattle.certificate.specs.NetworkRefusals.{HasNetworkRefusal};
ghost use Rattle.certificate.specs.Draft.{text_so_far};
ghost use Rattle.certificate.specs.Kept.{IsKept};
ghost use Rattle.certificate.specs.Stops.{refusal_of};
ghost use Rattle.certificate.specs.ProblemDraft.{problem_so_far, IsUnclaimed, HasDemandLeft, IsProblemWhole, StopsInProblem, StopsAtEnd};

use crate::bytes::literal_of;
use crate::draft::Draft;
use crate::fault::Fault;
use crate::rows::Rows;
use crate::stage::Stage;
use std::alloc::Global;

impl Draft {
    /// A draft of which the title is read, whatever the title of its text is.
    pub fn titled(alloc: Global) -> Draft
        ensures stage { result.stage ≡ Stage.Nodes }
        ensures unclaimed { IsUnclaimed result }
    {
        Draft {
            alloc,
            stage: Stage::Nodes,
            nodes: 0,
            arc_count: 0,
            k: 0,
            destination: 0,
            units: 0,
            rows: Rows::new(alloc),
        }
    }

    /// Takes the lines of a network text and nothing else.
    pub fn network_lines(&mut self, bytes: &[u8]) -> Result<(), Fault>
        requires stage { self.old.stage ≡ Stage.Nodes }
        requires unclaimed { IsUnclaimed self.old }
        ensures whole { OnOk result (IsProblemWhole self.new) }
        ensures text { OnOk result (bytes.now ≡ network_spelling (problem_so_far self.new)) }
        ensures fault { IfErr result (λ fault. (fault ≡ Fault.NoMemory) ⊎ HasNetworkRefusal bytes.now (refusal_of (length bytes.now) fault)) }
    {
        let lines = literal_of(b"assignment-network 1\n", bytes)?;
        let end = self.problem_lines(lines)?;
        last_line_of(end)
    }

    // Whether the demand of the last node is read.
    fn has_problem(&self) -> bool
        ensures whole { IsTrue result → IsUnclaimed self.now → IsProblemWhole self.now }
        ensures left { IsFalse result → HasDemandLeft self.now }
        ensures kept { IsKept self.now }
    {
        self.stage == Stage::Rows && self.rows.demand.len() == self.nodes as usize
    }

    // Takes the lines up to the demand of the last node from the front of the bytes, and gives the
    // bytes after them.
    fn problem_lines<'a>(&mut self, bytes: &'a [u8]) -> Result<&'a [u8], Fault>
        requires unclaimed { IsUnclaimed self.old }
        ensures text { IfOk result (λ rest. text_so_far self.new ++ rest.now ≡ text_so_far self.old ++ bytes.now) }
        ensures whole { OnOk result (IsProblemWhole self.new) }
        ensures fault { IfErr result (λ fault. (fault ≡ Fault.NoMemory) ⊎ StopsInProblem (text_so_far self.old ++ bytes.now) fault) }
    {
        let mut rest = bytes;
        while !self.has_problem() {
            rest = self.problem_line(rest)?;
        }
        Ok(rest)
    }

    // Takes one of these lines.
    fn problem_line<'a>(&mut self, bytes: &'a [u8]) -> Result<&'a [u8], Fault>
        requires unclaimed { IsUnclaimed self.old }
        requires left { HasDemandLeft self.old }
        requires kept { IsKept self.old }
        ensures text { IfOk result (λ rest. text_so_far self.old ++ bytes.now ≡ text_so_far self.new ++ rest.now) }
        ensures shorter { IfOk result (λ rest. length rest.now < length bytes.now) }
        ensures unclaimed { OnOk result (IsUnclaimed self.new) }
        ensures fault { IfErr result (λ fault. (fault ≡ Fault.NoMemory) ⊎ StopsInProblem (text_so_far self.old ++ bytes.now) fault) }
    {
        self.line(bytes)
    }
}

// The last line, after which nothing stands.
fn last_line_of(bytes: &[u8]) -> Result<(), Fault>
    ensures ok { OnOk result (bytes.now ≡ last_line) }
    ensures fault { IfErr result (StopsAtEnd bytes.now) }
{
    let rest = literal_of(b"end\n", bytes)?;
    if !rest.is_empty() {
        return Err(Fault::Stop(rest.len()));
    }
    Ok(())
}
