//! Times of the service day.

ghost use Rattle.std.specs.Prelude.{◌≡◌, ◌<◌, IfSome};
ghost use Rattle.gtfs_rows.specs.Fields.{clock_of, sixty_of};

use crate::digits::number;
use crate::parts::parted;

/// The seconds of a time H:MM:SS, with 1 to 3 digits of hours and two digits of minutes and of
/// seconds, 00 to 59. Hours may be past 24, as in the GTFS Schedule reference.
pub fn clock(field: &[u8]) -> Option<u32>
    ensures value { result ≡ clock_of field.now }
{
    let (hours, rest) = parted(field, b':');
    let (minutes, seconds) = parted(rest?, b':');
    let hours = number(hours, 3)? as u32;
    let minutes = sixty(minutes)?;
    let seconds = sixty(seconds?)?;
    Some(hours * 3600 + minutes * 60 + seconds)
}

// The number that two digits write, 00 to 59.
fn sixty(part: &[u8]) -> Option<u32>
    ensures value { result ≡ sixty_of part.now }
    ensures within { IfSome result (λ number. number < 60) }
{
    if part.len() != 2 {
        return None;
    }
    let number = number(part, 2)?;
    if number < 60 {
        Some(number as u32)
    } else {
        None
    }
}

#[cfg(test)]
mod tests {
    use super::*;

    #[test]
    fn reads_times_past_midnight_and_no_others(rt: HostRuntime) {
        let cases = [
            // 6 * 3600 + 5 * 60 + 9
            ("6:05:09", Some(21_909)),
            ("06:05:09", Some(21_909)),
            ("24:00:00", Some(86_400)),
            // 999 * 3600 + 59 * 60 + 59
            ("999:59:59", Some(3_599_999)),
            ("1000:00:00", None),
            ("06:60:00", None),
            ("06:00:60", None),
            ("6:5:09", None),
            ("6:05:9", None),
            ("6:05", None),
            (":05:09", None),
            ("6:05:09:", None),
            ("060509", None),
            ("", None),
        ];
        for (field, want) in cases {
            assert_eq!(rt; clock(field.as_bytes()), want, "at {field}");
        }
    }
}
