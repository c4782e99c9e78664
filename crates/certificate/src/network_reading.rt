//! The problem of a network text.

ghost use Rattle.std.specs.Prelude.{◌≡◌, ◌⊎◌, ℕ, List, IfOk, IfErr};
ghost use Rattle.certificate.specs.NetworkRefusals.{problem_of, HasProblem, HasNetworkRefusal, IsNetworkAnswered, IsNetworkRefusedOnly, IsNetworkRefusedWith, IsOfLine, IsProblemOnly, NeverProblemAndRefusal, OneNetworkRefusal, OneProblem};

use crate::draft::Draft;
use crate::problem::Problem;
use crate::refused::Refused;
use std::alloc::Global;

/// The problem of a network text. docs/FORMATS.md has the text.
///
/// It keeps the limits and rules of networks. Its demand has a number for each node, 0 at the
/// destination, and a sum within the limit of units.
///
/// # Refusals
///
/// That of the first faulty line: `Grammar`, `Range` or `Arc`, and no other. `NoMemory` may come
/// in place of any.
pub fn read_network(alloc: Global, bytes: &[u8]) -> Result<Problem, Refused>
    ensures valid { IfOk result (λ problem. HasProblem bytes.now (problem_of problem)) }
    ensures only { IsProblemOnly bytes.now result }
    ensures refused { IfErr result (IsNetworkRefusedWith bytes.now) }
    ensures refused_only { IsNetworkRefusedOnly bytes.now result }
    ensures of_lines { IfErr result (λ answer. (answer ≡ Refused.NoMemory) ⊎ IsOfLine answer) }
{
    let mut draft = Draft::titled(alloc);
    match draft.network_lines(bytes) {
        Ok(()) => draft.into_problem(),
        Err(fault) => Err(fault.refusal(bytes.len())),
    }
}

/// A text has just one answer: a problem or a refusal, never both, and of each one at most.
///
/// It is a theorem about the definitions alone, as `one_answer` is of certificates. No refusal that
/// a text has is `NoMemory`.
pub fn one_network_answer()
    ensures answered { (bytes : List ℕ) → IsNetworkAnswered bytes }
    ensures of_lines { (bytes : List ℕ) (answer : Refused) → HasNetworkRefusal bytes answer → IsOfLine answer }
    ensures one_problem { OneProblem }
    ensures one_refusal { OneNetworkRefusal }
    ensures never_both { NeverProblemAndRefusal }
{}

#[cfg(test)]
mod tests;
