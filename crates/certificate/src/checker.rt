//! Certificates that are checked in pieces.

ghost use Rattle.std.specs.Prelude.{◌≡◌, ◌≢◌, ◌≤◌, ◌++◌, ◌⊎◌, [], None, Some, IfOk, OnOk, IfErr};
ghost use Rattle.certificate.specs.Valid.{HasVerdict, NoPlanIsCheaperIn, IsOnly, BoundHolds};
ghost use Rattle.certificate.specs.Refusals.{IsRefusedOnly, IsRefusedWith};
ghost use Rattle.certificate.specs.Fed.{bytes_so_far, HasArcsLine, HasNoFault, IsRefusedForGood};

mod reading;

use crate::checking::{Verdict, judge};
use crate::refused::Refused;
use reading::Reading;
use std::alloc::Global;
use std::marker::Model;

/// A certificate that is fed in pieces, however it is cut.
///
/// It keeps the numbers that were read and the part of the line read last, and no copy of the text.
/// The room for all numbers is made with the line of the number of arcs.
#[derive(Drop)]
pub struct Checker {
    reading: Reading,
    refused: Option<Refused>,
}

impl Model for Checker {
    ghost use Rattle.certificate.specs.Fed.{CheckerData};

    ghost Value = { CheckerData };

    ghost use Rattle.certificate.specs.CheckerFields.{checker_of, IsChecker};

    ghost view = { checker_of };

    ghost invariant = { IsChecker };
}

impl Checker {
    /// A checker that was fed nothing.
    pub fn new(alloc: Global) -> Checker
        ensures bytes { bytes_so_far result ≡ [] }
        ensures fresh { result.refused ≡ None }
    {
        Checker {
            reading: Reading::new(alloc),
            refused: None,
        }
    }

    /// Reads the next piece of the text.
    ///
    /// # Refusals
    ///
    /// The first faulty line of the bytes so far, as `check_text` refuses each text that begins with
    /// them; that they end is no fault. After a refusal it is answered again. `NoMemory` may come in
    /// place of any until the line of the number of arcs is read.
    pub fn feed(&mut self, piece: &[u8]) -> Result<(), Refused>
        // No line so far is faulty.
        ensures bytes { OnOk result (bytes_so_far self.new ≡ bytes_so_far self.old ++ piece.now) }
        ensures faultless { OnOk result (HasNoFault (bytes_so_far self.new)) }
        ensures ok { OnOk result ((self.old.refused ≡ None) × (self.new.refused ≡ None)) }

        // A line is faulty, and whatever follows, it is the first.
        ensures refused { self.old.refused ≡ None → IfErr result (λ answer. (answer ≡ Refused.NoMemory) ⊎ IsRefusedForGood (bytes_so_far self.old ++ piece.now) answer) }
        ensures noted { IfErr result (λ answer. self.new.refused ≡ Some answer) }
        ensures same { (answer : Refused) → self.old.refused ≡ Some answer → (result ≡ Err answer) × (self.new ≡ self.old) }

        // Once the bytes hold the line of the number of arcs, no memory is wanted.
        ensures memory { self.old.refused ≡ None → HasArcsLine (bytes_so_far self.old) → result ≢ Err Refused.NoMemory }
    {
        if let Some(refused) = self.refused {
            return Err(refused);
        }
        match self.reading.read(piece) {
            Ok(()) => Ok(()),
            Err(refused) => {
                self.refused = Some(refused);
                Err(refused)
            }
        }
    }

    /// The verdict of the bytes so far, as `check_text` gives it for them in one piece.
    ///
    /// # Refusals
    ///
    /// The one that `feed` gave. Else `Grammar` where the text ends too early, and then the first
    /// condition that fails. `NoMemory` may come in place of any.
    pub fn finish(self) -> Result<Verdict, Refused>
        ensures valid { IfOk result (HasVerdict (bytes_so_far self)) }
        ensures no_plan_is_cheaper { IfOk result (NoPlanIsCheaperIn (bytes_so_far self)) }
        ensures gap { IfOk result (λ verdict. verdict.bound ≤ verdict.cost) }
        ensures refused { self.refused ≡ None → IfErr result (IsRefusedWith (bytes_so_far self)) }
        ensures refused_only { self.refused ≡ None → IsRefusedOnly (bytes_so_far self) result }
        ensures only { self.refused ≡ None → IsOnly (bytes_so_far self) result }
        ensures bound_holds { IfOk result (λ verdict. BoundHolds (bytes_so_far self) verdict.bound) }
        ensures same { (answer : Refused) → self.refused ≡ Some answer → result ≡ Err answer }
    {
        let Checker { reading, refused } = self;
        if let Some(refused) = refused {
            return Err(refused);
        }
        let claim = reading.into_claim()?;
        judge(&claim)?;
        Ok(claim.verdict())
    }
}
