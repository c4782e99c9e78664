//! The lines that `check` prints of a valid certificate.

ghost use Rattle.std.specs.Prelude.{◌≡◌, ◌≤◌, ◌++◌, IfOk, OnOk, string_bytes};
ghost use Rattle.definitions.specs.Decimal.{number_line};
ghost use Rattle.desk.specs.Output.{verdict_lines};

use certificate::Verdict;
use std::alloc::{AllocError, Global};

/// The six lines of a verdict: `valid`, `units`, `cost`, `bound`, `gap` (cost minus bound) and `slack`.
pub fn verdict_lines(alloc: Global, verdict: &Verdict) -> Result<String, AllocError>
    requires gap { verdict.now.bound ≤ verdict.now.cost }
    ensures lines { IfOk result (λ text. string_bytes text ≡ verdict_lines verdict.now) }
{
    let mut text = String::from_str(alloc, "valid\n")?;
    push_line(alloc, &mut text, "units", u128::from(verdict.units))?;
    push_line(alloc, &mut text, "cost", verdict.cost)?;
    push_line(alloc, &mut text, "bound", verdict.bound)?;
    push_line(alloc, &mut text, "gap", verdict.cost - verdict.bound)?;
    push_line(alloc, &mut text, "slack", verdict.slack)?;
    Ok(text)
}

// Appends the line of a word and a number.
fn push_line(alloc: Global, text: &mut String, word: &str, number: u128) -> Result<(), AllocError>
    ensures line { OnOk result (string_bytes text.new ≡ string_bytes text.old ++ number_line word.now number) }
{
    let digits = number.to_string(alloc)?;
    text.push_str(word)?;
    text.push_str(" ")?;
    text.push_str(digits.as_str())?;
    text.push_str("\n")?;
    Ok(())
}
