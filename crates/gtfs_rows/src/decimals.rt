//! Numbers of trips.

ghost use Rattle.std.specs.Prelude.{◌≡◌, ◌<◌, ◌≤◌, ◌+◌, ◌^◌, ◌++◌, ◌==◌, IsTrue, Some, None, codes, slice_index, if◌then◌else◌};
ghost use Rattle.std.specs.List.{list_all};
ghost use Rattle.std.specs.Char.{is_ascii_digit};
ghost use Rattle.gtfs_rows.specs.Fields.{is_digits, loses_digit, millionths, trips_of};

use crate::amount::Trips;
use crate::digits::number;
use crate::parts::parted;

/// The millionths of 1 to 12 digits, and then nothing, or a point and one digit or more. Digits
/// past the sixth decimal are dropped.
pub fn trips(field: &[u8]) -> Option<Trips>
    ensures value { result ≡ trips_of field.now }
{
    let (front, decimals) = parted(field, b'.');
    let units = number(front, 12)? * 1_000_000;
    match decimals {
        None => Some(Trips {
            units,
            dropped: false,
        }),
        Some(decimals) => with_decimals(units, decimals),
    }
}

// The number of trips with these decimals behind its point, if they are one digit or more.
fn with_decimals(units: u64, decimals: &[u8]) -> Option<Trips>
    requires units { units < 10 ^ 18 }
    ensures value { result ≡ (if is_digits decimals.now then Some (record {
      units = units + millionths decimals.now;
      dropped = loses_digit decimals.now;
    }) else None) }
{
    if decimals.is_empty() || !all_digits(decimals) {
        return None;
    }
    Some(Trips {
        units: units + millionths(decimals),
        dropped: loses_digit(decimals),
    })
}

// Whether all bytes are digits.
fn all_digits(bytes: &[u8]) -> bool
    ensures value { result ≡ list_all is_ascii_digit bytes.now }
{
    bytes.iter().all(|byte| byte.is_ascii_digit())
}

// The millionths that decimals write, of which six count.
fn millionths(decimals: &[u8]) -> u64
    requires digits { IsTrue (list_all is_ascii_digit decimals.now) }
    ensures value { result ≡ millionths decimals.now }
    ensures within { result < 1000000 }
{
    let mut number: u64 = 0;
    for place in 0..6 {
        number = number * 10 + u64::from(decimal_at(decimals, place) - b'0');
    }
    number
}

// The decimal at a place, 0 where there is none.
fn decimal_at(decimals: &[u8], place: usize) -> u8
    requires digits { IsTrue (list_all is_ascii_digit decimals.now) }
    requires place { place < 6 }
    ensures value { result ≡ slice_index (decimals.now ++ codes "000000") place }
    ensures digit { (48 ≤ result) × (result ≤ 57) }
{
    if place < decimals.len() {
        decimals[place]
    } else {
        b'0'
    }
}

// Whether a decimal past the sixth is not 0.
fn loses_digit(decimals: &[u8]) -> bool
    ensures value { result ≡ loses_digit decimals.now }
{
    if decimals.len() <= 6 {
        return false;
    }
    !are_zeros(&decimals[6..])
}

// Whether all bytes are the digit 0.
fn are_zeros(bytes: &[u8]) -> bool
    ensures value { result ≡ list_all (λ byte. byte == 48) bytes.now }
{
    bytes.iter().all(|byte| *byte == b'0')
}

#[cfg(test)]
mod tests {
    use super::*;

    #[test]
    fn drops_digits_past_the_sixth_decimal(rt: HostRuntime) {
        let cases = [
            ("0.0000105", 10, true),
            ("0.0000109", 10, true),
            ("0.0000100", 10, false),
            ("12", 12_000_000, false),
            ("007.5", 7_500_000, false),
            ("1.0", 1_000_000, false),
            ("0.999999", 999_999, false),
            ("0.00000000000000000000001", 0, true),
            ("999999999999.999999", 999_999_999_999_999_999, false),
        ];
        for (field, units, dropped) in cases {
            let want = Some(Trips { units, dropped });
            assert_eq!(rt; trips(field.as_bytes()), want, "at {field}");
        }
    }

    #[test]
    fn refuses_what_is_no_number_of_trips(rt: HostRuntime) {
        let fields = [
            "",
            ".5",
            "12.",
            ".",
            "1.2.3",
            "1,5",
            "-1",
            "1e3",
            " 1",
            "1234567890123",
            "1234567890123.5",
        ];
        for field in fields {
            assert_eq!(rt; trips(field.as_bytes()), None, "at {field}");
        }
    }
}
