//! Rows of a sheet, appended piece by piece.

ghost use Rattle.std.specs.Prelude.{◌≡◌, ◌∷◌, ◌++◌, IfOk, OnOk};
ghost use Rattle.definitions.specs.Decimal.{line_end, numeral};
ghost use Rattle.desk.specs.Rows.{clock_text, two_digits};

use itoa::Buffer;
use std::alloc::{AllocError, Global};

/// The row of the names of the columns, which begins a sheet.
pub(super) fn header(alloc: Global, names: &str) -> Result<Vec<u8>, AllocError>
    ensures row { IfOk result (λ text. text.items ≡ names.now ++ line_end) }
{
    let mut text = Vec::from_slice(alloc, names.as_bytes())?;
    text.extend_from_slice(b"\n")?;
    Ok(text)
}

/// Appends what stands before a number, and the number.
pub(super) fn push(text: &mut Vec<u8>, front: &str, number: u32) -> Result<(), AllocError>
    ensures piece { OnOk result (text.new.items ≡ text.old.items ++ (front.now ++ numeral number)) }
{
    let mut digits = Buffer::new();
    text.extend_from_slice(front.as_bytes())?;
    text.extend_from_slice(digits.format(number).as_bytes())
}

/// Appends what stands before a number, the number and the end of the row.
pub(super) fn push_last(text: &mut Vec<u8>, front: &str, number: u32) -> Result<(), AllocError>
    ensures piece { OnOk result
        (text.new.items ≡ text.old.items ++ (front.now ++ numeral number ++ line_end)) }
{
    push(text, front, number)?;
    text.extend_from_slice(b"\n")
}

/// Appends a comma and the clock of so many seconds.
#[tactic(auto, unfolding(crate::specs::Rows::clock_text))]
pub(super) fn push_clock(text: &mut Vec<u8>, seconds: u32) -> Result<(), AllocError>
    ensures piece { OnOk result (text.new.items ≡ text.old.items ++ (44 ∷ clock_text seconds)) }
{
    push_two_digits(text, ",", seconds / 3600)?;
    push_two_digits(text, ":", seconds / 60 % 60)?;
    push_two_digits(text, ":", seconds % 60)
}

// Appends what stands before a number, and the number in at least two digits.
fn push_two_digits(text: &mut Vec<u8>, front: &str, number: u32) -> Result<(), AllocError>
    ensures piece { OnOk result
        (text.new.items ≡ text.old.items ++ (front.now ++ two_digits number)) }
{
    text.extend_from_slice(front.as_bytes())?;
    push(text, if number < 10 { "0" } else { "" }, number)
}
