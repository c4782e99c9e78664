//! The numbers of what is kept.

ghost use Rattle.std.specs.Prelude.{◌≡◌, ◌<◌, ◌^◌, IfOk, Some, None, length, if◌then◌else◌};
ghost use Rattle.feed_reader.specs.Kept.{numbers_from};

use gtfs_rows::NoMemory;
use std::alloc::Global;

/// The number of each among those whose flag is true, None where it is false.
pub(crate) fn kept_numbers(alloc: Global, kept: &[bool]) -> Result<Vec<Option<u32>>, NoMemory>
    requires few { length kept.now < 2 ^ 32 }
    ensures value { IfOk result (λ numbers. numbers.items ≡ numbers_from 0 kept.now) }
{
    let mut numbers = Vec::new(alloc);
    let mut count: u32 = 0;
    for keep in kept {
        numbers.push(number_if(*keep, count))?;
        count += one_if(*keep);
    }
    Ok(numbers)
}

// The number, where it is kept.
fn number_if(keep: bool, number: u32) -> Option<u32>
    ensures value { result ≡ (if keep then Some number else None) }
{
    if keep { Some(number) } else { None }
}

// How much one counts: 1 where it is kept, else 0.
fn one_if(keep: bool) -> u32
    ensures value { result ≡ (if keep then 1 else 0) }
{
    if keep { 1 } else { 0 }
}
