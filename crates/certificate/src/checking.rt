//! Whether a text is a valid certificate.

ghost use Rattle.std.specs.Prelude.{◌≤◌, ℕ, List, IfOk, OnOk, IfErr};
ghost use Rattle.certificate.specs.Valid.{HasGoodLines, IsValid, HasVerdict, NoPlanIsCheaperIn, IsOnly, BoundHolds};
ghost use Rattle.certificate.specs.Judged.{IsFirstFailure};
ghost use Rattle.certificate.specs.Refusals.{HasRefusal, IsAnswered, IsRefusedOnly, IsRefusedWith, NeverBoth, OneRefusal, OneVerdict};

use crate::checker::Checker;
use crate::claim::Claim;
use crate::refused::Refused;
use std::alloc::Global;

/// What a valid certificate shows.
///
/// `units` are assigned. `cost` is the cost of its volumes and waits and `bound` the bound of its
/// labels, both in ticks times units: the optimum lies between them. `slack` is how far apart they
/// may lie for an assignment of the desk; whether they do is not judged.
#[derive(Clone, Copy, Debug, Drop, PartialEq, Eq)]
pub struct Verdict {
    pub units: u64,
    pub cost: u128,
    pub bound: u128,
    pub slack: u128,
}

/// The verdict of a text that is a valid certificate.
///
/// A yes needs no trust in the certificate's maker: by weak duality no plan for the text's problem
/// costs less than the bound, nor one at a scale less than the scale times the bound (Spiess and
/// Florian 1989). docs/FORMATS.md has the text.
///
/// # Refusals
///
/// The first in the order of the format: the first faulty line, then the first node that does not
/// conserve, the first boarding arc whose wait is short, the first node whose label is too high.
/// `NoMemory` may come in place of any.
pub fn check_text(alloc: Global, bytes: &[u8]) -> Result<Verdict, Refused>
    ensures valid { IfOk result (HasVerdict bytes.now) }
    ensures no_plan_is_cheaper { IfOk result (NoPlanIsCheaperIn bytes.now) }
    ensures refused { IfErr result (IsRefusedWith bytes.now) }
    ensures refused_only { IsRefusedOnly bytes.now result }
    ensures only { IsOnly bytes.now result }
    ensures bound_holds { IfOk result (λ verdict. BoundHolds bytes.now verdict.bound) }
    ensures gap { IfOk result (λ verdict. verdict.bound ≤ verdict.cost) }
{
    let mut checker = Checker::new(alloc);
    checker.feed(bytes)?;
    checker.finish()
}

/// A text has just one answer: a verdict or a refusal, never both, and of each one at most.
///
/// It is a theorem about the definitions alone. So what is stated of a text's refusal, or of its
/// verdict, is stated of all that there are, and a text without the one has the other. No refusal
/// that a text has is `NoMemory`.
pub fn one_answer()
    ensures answered { (bytes : List ℕ) → IsAnswered bytes }
    ensures never_memory { (bytes : List ℕ) → HasRefusal bytes Refused.NoMemory → ⊥ }
    ensures one_verdict { OneVerdict }
    ensures one_refusal { OneRefusal }
    ensures never_both { NeverBoth }
{}

/// Whether the claim's volumes and waits are a plan and its labels dual feasible.
pub fn judge(claim: &Claim) -> Result<(), Refused>
    requires lines { HasGoodLines claim.now }
    ensures valid { OnOk result (IsValid claim.now) }
    ensures refused { IfErr result (IsFirstFailure claim.now) }
{
    claim.judge_conservation()?;
    claim.judge_waits()?;
    claim.judge_labels()
}

#[cfg(test)]
mod tests;
