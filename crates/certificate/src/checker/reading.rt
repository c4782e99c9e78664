//! The lines of a text so far, and the part of the next one.

ghost use Rattle.std.specs.Prelude.{◌≡◌, ◌≢◌, ◌+◌, ◌<◌, ◌≤◌, ◌^◌, ◌++◌, ◌⊎◌, ℕ, [], length, IfOk, OnOk, IfErr, IfSome, OnErr};
ghost use Rattle.arrayvec.specs.ArrayVec.{array_vec_len};
ghost use Rattle.certificate.specs.Spelling.{spelling};
ghost use Rattle.certificate.specs.Valid.{HasGoodLines};
ghost use Rattle.certificate.specs.Draft.{text_so_far};
ghost use Rattle.certificate.specs.Stops.{refusal_of, StopsWith};
ghost use Rattle.certificate.specs.Fed.{IsPastArcs, StopsForGood};
ghost use Rattle.certificate.specs.CheckerFields.{bytes_of, IsCounted, IsReading};

use crate::claim::Claim;
use crate::draft::Draft;
use crate::fault::Fault;
use crate::refused::Refused;
use arrayvec::ArrayVec;
use std::alloc::Global;

/// The lines so far, the number of their bytes, and the part of the next line.
///
/// No line is longer than 118 bytes, so the part of one has room.
#[derive(Drop)]
pub struct Reading {
    pub draft: Draft,
    pub before: u64,
    pub part: ArrayVec<u8, 160>,
}

impl Reading {
    /// Nothing is read.
    pub fn new(alloc: Global) -> Reading
        ensures reading { IsReading result }
        ensures bytes { bytes_of result ≡ [] }
    {
        Reading {
            draft: Draft::new(alloc),
            before: 0,
            part: ArrayVec::new(),
        }
    }

    /// Reads the lines that end in the piece, and keeps the part of the next one.
    pub fn read(&mut self, piece: &[u8]) -> Result<(), Refused>
        requires reading { IsReading self.old }
        ensures reading { OnOk result (IsReading self.new) }
        ensures bytes { OnOk result (bytes_of self.new ≡ bytes_of self.old ++ piece.now) }
        ensures refused { IfErr result (λ answer. (answer ≡ Refused.NoMemory) ⊎ StopsForGood (bytes_of self.old ++ piece.now) answer) }
        ensures memory { IsPastArcs self.old.draft.stage → result ≢ Err Refused.NoMemory }
        ensures onward { OnOk result (IsPastArcs self.old.draft.stage → IsPastArcs self.new.draft.stage) }
    {
        match self.complete(piece)? {
            Some(rest) => self.lines(rest),
            None => Ok(()),
        }
    }

    // Completes the line that the part begins, and gives the bytes after it, None where the piece ends
    // before the line does.
    fn complete<'a>(&mut self, piece: &'a [u8]) -> Result<Option<&'a [u8]>, Refused>
        requires reading { IsReading self.old }
        ensures some { IfOk result (λ given. IfSome given (λ rest. (bytes_of self.new ++ rest.now ≡ bytes_of self.old ++ piece.now) × (self.new.before ≡ length (text_so_far self.new.draft)) × (self.new.part.items ≡ []))) }
        ensures reading { result ≡ Ok None → IsReading self.new }
        ensures bytes { result ≡ Ok None → bytes_of self.new ≡ bytes_of self.old ++ piece.now }
        ensures refused { IfErr result (λ answer. (answer ≡ Refused.NoMemory) ⊎ StopsForGood (bytes_of self.old ++ piece.now) answer) }
        ensures memory { IsPastArcs self.old.draft.stage → result ≢ Err Refused.NoMemory }
        ensures onward { OnOk result (IsPastArcs self.old.draft.stage → IsPastArcs self.new.draft.stage) }
    {
        if self.part.is_empty() {
            return Ok(Some(piece));
        }
        let room = self.part.remaining_capacity();
        let (front, _) = piece.split_at(piece.len().min(room));
        append(&mut self.part, front);
        let left = match self.draft.next_line(self.part.as_slice()) {
            Ok(Some(rest)) => rest.len(),
            Ok(None) => return Ok(None),
            Err(fault) => return Err(refusal(fault, self.before, self.part.len())),
        };
        self.before += (self.part.len() - left) as u64;
        self.part.clear();
        Ok(Some(&piece[front.len() - left..]))
    }

    // Reads the lines that end in the bytes, and keeps the part of the next one.
    fn lines(&mut self, bytes: &[u8]) -> Result<(), Refused>
        requires before { self.old.before ≡ length (text_so_far self.old.draft) }
        requires whole { self.old.part.items ≡ [] }
        ensures reading { OnOk result (IsReading self.new) }
        ensures bytes { OnOk result (bytes_of self.new ≡ bytes_of self.old ++ bytes.now) }
        ensures refused { IfErr result (λ answer. (answer ≡ Refused.NoMemory) ⊎ StopsForGood (bytes_of self.old ++ bytes.now) answer) }
        ensures memory { IsPastArcs self.old.draft.stage → result ≢ Err Refused.NoMemory }
        ensures onward { OnOk result (IsPastArcs self.old.draft.stage → IsPastArcs self.new.draft.stage) }
    {
        let part = match self.draft.lines(bytes) {
            Ok(part) => part,
            Err(fault) => return Err(refusal(fault, self.before, bytes.len())),
        };
        self.before += (bytes.len() - part.len()) as u64;
        append(&mut self.part, part);
        Ok(())
    }

    /// The claim of a text that ends here.
    pub fn into_claim(self) -> Result<Claim, Refused>
        requires reading { IsReading self }
        ensures text { IfOk result (λ claim. bytes_of self ≡ spelling claim) }
        ensures lines { IfOk result HasGoodLines }
        ensures refused { IfErr result (λ answer. (answer ≡ Refused.NoMemory) ⊎ StopsWith (bytes_of self) answer) }
    {
        let Reading {
            draft,
            before,
            part,
        } = self;
        if !draft.is_done() {
            return Err(Refused::Grammar {
                at: before + part.len() as u64,
            });
        }
        draft.into_claim()
    }
}

// Appends bytes for which there is room.
fn append(part: &mut ArrayVec<u8, 160>, bytes: &[u8])
    requires room { array_vec_len part.old + length bytes.now ≤ 160 }
    ensures items { part.new.items ≡ part.old.items ++ bytes.now }
{
    match part.try_extend_from_slice(bytes) {
        Ok(()) => {}
        Err(_) => unreachable!("there is room"),
    }
}

// The refusal of a line's fault in bytes of this length, before which stand so many others.
fn refusal(fault: Fault, before: u64, length: usize) -> Refused
    requires place { (left : ℕ) → fault ≡ Fault.Stop left → (left ≤ before + length) × (before + length < left + 2 ^ 64) }
    ensures value { result ≡ refusal_of (before + length) fault }
{
    match fault {
        Fault::Stop(left) => Refused::Grammar {
            at: (before as u128 + length as u128 - left as u128) as u64,
        },
        Fault::Range { limit, count } => Refused::Range { limit, count },
        Fault::Arc(fault) => Refused::Arc(fault),
        Fault::NoMemory => Refused::NoMemory,
    }
}
