//! Readers from the front of bytes. Each gives what it read and the bytes after it.

ghost use Rattle.std.specs.Prelude.{◌≡◌, ◌<◌, IfOk};
ghost use Rattle.certificate.specs.Bytes.{Gives, digits_on, digits_at, byte_at, literal_at, number_at};

use crate::fault::Fault;

// The greatest numbers below which one more digit is read: in 64 bits, and at all.
const NARROW: u64 = 1_000_000_000_000_000_000;

const WIDE: u128 = 1_000_000_000_000_000_000_000_000_000;

// The digits that go on with a number while it fits 64 bits: most numbers end here.
fn narrow_digits(first: u64, bytes: &[u8]) -> (u64, &[u8])
    requires { first < 10 }
    ensures value { digits_on result.0 result.1.now ≡ digits_on first bytes.now }
    ensures below { result.0 < 10000000000000000000 }
{
    let mut number = first;
    let mut rest = bytes;
    while let [digit @ b'0'..=b'9', after @ ..] = rest
        && number < NARROW
    {
        number = number * 10 + (*digit - b'0') as u64;
        rest = after;
    }
    (number, rest)
}

// The digits that go on with a number.
fn wide_digits(first: u128, bytes: &[u8]) -> (u128, &[u8])
    requires { first < 10000000000000000000000000000 }
    ensures value { (result.0, result.1.now) ≡ digits_on first bytes.now }
    ensures below { result.0 < 10000000000000000000000000000 }
{
    let mut number = first;
    let mut rest = bytes;
    while let [digit @ b'0'..=b'9', after @ ..] = rest
        && number < WIDE
    {
        number = number * 10 + (*digit - b'0') as u128;
        rest = after;
    }
    (number, rest)
}

// The digits after the first one.
fn more_digits(first: u64, bytes: &[u8]) -> (u128, &[u8])
    requires { first < 10 }
    ensures value { (result.0, result.1.now) ≡ digits_on first bytes.now }
    ensures below { result.0 < 10000000000000000000000000000 }
{
    let (number, rest) = narrow_digits(first, bytes);
    wide_digits(number as u128, rest)
}

// A number: `0`, or a digit 1 to 9 and at most 27 more digits.
fn digits_of(bytes: &[u8]) -> Result<(u128, &[u8]), Fault>
    ensures read { Gives (λ x. (x.0, x.1.now)) result (digits_at bytes.now) }
    ensures below { IfOk result (λ x. x.0 < 10000000000000000000000000000) }
{
    match bytes {
        [] => Err(Fault::Stop(0)),
        [b'0', rest @ ..] => Ok((0, rest)),
        [digit @ b'1'..=b'9', rest @ ..] => Ok(more_digits((*digit - b'0') as u64, rest)),
        _ => Err(Fault::Stop(bytes.len())),
    }
}

/// The byte that has to stand there.
pub fn byte_of(byte: u8, bytes: &[u8]) -> Result<&[u8], Fault>
    ensures read { Gives (λ x. x.now) result (byte_at byte bytes.now) }
{
    match bytes {
        [] => Err(Fault::Stop(0)),
        [first, rest @ ..] => {
            if *first == byte {
                Ok(rest)
            } else {
                Err(Fault::Stop(bytes.len()))
            }
        }
    }
}

/// The bytes that have to stand there.
pub fn literal_of<'a>(text: &[u8], bytes: &'a [u8]) -> Result<&'a [u8], Fault>
    ensures read { Gives (λ x. x.now) result (literal_at text.now bytes.now) }
{
    let mut rest = bytes;
    for byte in text {
        rest = byte_of(*byte, rest)?;
    }
    Ok(rest)
}

/// A number and the byte that ends it.
#[tactic(auto, unfolding(crate::specs::Bytes::number_at))]
pub fn number_of(end: u8, bytes: &[u8]) -> Result<(u128, &[u8]), Fault>
    ensures read { Gives (λ x. (x.0, x.1.now)) result (number_at end bytes.now) }
    ensures below { IfOk result (λ x. x.0 < 10000000000000000000000000000) }
{
    let (number, rest) = digits_of(bytes)?;
    let rest = byte_of(end, rest)?;
    Ok((number, rest))
}
