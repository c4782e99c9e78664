//! Lines of a word and a number.

ghost use Rattle.std.specs.Prelude.{◌≡◌, ◌++◌, OnOk, string_bytes};
ghost use Rattle.definitions.specs.Decimal.{number_line};

use std::alloc::{AllocError, Global};

/// Appends the line of a word and a number.
pub(crate) fn push_line(
    alloc: Global,
    text: &mut String,
    word: &str,
    number: u128,
) -> Result<(), AllocError>
    ensures line { OnOk result
        (string_bytes text.new ≡ string_bytes text.old ++ number_line word.now number) }
{
    let digits = number.to_string(alloc)?;
    text.push_str(word)?;
    text.push_str(" ")?;
    text.push_str(digits.as_str())?;
    text.push_str("\n")?;
    Ok(())
}
