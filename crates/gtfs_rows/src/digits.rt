//! Numbers of digits.

ghost use Rattle.std.specs.Prelude.{◌≡◌, ◌<◌, ◌≤◌, ◌^◌, IfSome};
ghost use Rattle.gtfs_rows.specs.Fields.{number_in, whole_of};

/// The number that 1 to 18 digits write. Leading zeros are permitted.
pub fn whole(field: &[u8]) -> Option<u64>
    ensures value { result ≡ whole_of field.now }
{
    number(field, 18)
}

// The number that one digit or more write, at most so many.
pub(crate) fn number(field: &[u8], most: usize) -> Option<u64>
    requires most { most ≤ 18 }
    ensures value { result ≡ number_in most field.now }
    ensures within { IfSome result (λ number. number < 10 ^ most) }
{
    if field.is_empty() || field.len() > most {
        return None;
    }
    let mut number: u64 = 0;
    for byte in field {
        if !byte.is_ascii_digit() {
            return None;
        }
        number = number * 10 + u64::from(*byte - b'0');
    }
    Some(number)
}

#[cfg(test)]
mod tests {
    use super::*;

    #[test]
    fn reads_1_to_18_digits(rt: HostRuntime) {
        let cases = [
            ("0", Some(0)),
            ("007", Some(7)),
            ("999999999999999999", Some(999_999_999_999_999_999)),
            ("000000000000000001", Some(1)),
            ("1234567890123456789", None),
            ("0000000000000000001", None),
            ("", None),
            ("12a", None),
            ("-1", None),
            ("+1", None),
            (" 1", None),
            ("1.0", None),
        ];
        for (field, want) in cases {
            assert_eq!(rt; whole(field.as_bytes()), want, "at {field}");
        }
    }
}
