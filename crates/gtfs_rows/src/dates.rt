//! Dates.

ghost use Rattle.std.specs.Prelude.{◌≡◌, ◌<◌, option_map};
ghost use Rattle.gtfs_rows.specs.Fields.{civil_at, date_of, ymd_of};

use crate::digits::number;
use jiff::civil::Date;

/// The date that eight digits YYYYMMDD write, a day of the calendar in the years 1 to 9999.
pub fn date(field: &[u8]) -> Option<Date>
    ensures value { option_map ymd_of result ≡ date_of field.now }
{
    if field.len() != 8 {
        return None;
    }
    let year = number(&field[..4], 4)?;
    let month = number(&field[4..6], 2)?;
    let day = number(&field[6..], 2)?;
    civil(year, month, day)
}

// The day of a year, a month and a day, where the calendar has it.
fn civil(year: u64, month: u64, day: u64) -> Option<Date>
    requires year { year < 10000 }
    requires month { month < 100 }
    requires day { day < 100 }
    ensures value { option_map ymd_of result ≡ civil_at year month day }
{
    if year == 0 {
        return None;
    }
    match Date::new(year as i16, month as i8, day as i8) {
        Ok(date) => Some(date),
        Err(_) => None,
    }
}

#[cfg(test)]
mod tests {
    use super::*;

    #[test]
    fn reads_days_of_the_calendar_and_no_others(rt: HostRuntime) {
        let cases = [
            ("20240229", Some((2024, 2, 29))),
            ("20000229", Some((2000, 2, 29))),
            ("00010101", Some((1, 1, 1))),
            ("99991231", Some((9999, 12, 31))),
            ("20250229", None),
            ("19000229", None),
            ("20250431", None),
            ("20251301", None),
            ("20250001", None),
            ("20250100", None),
            ("00000101", None),
            ("2025010", None),
            ("020250101", None),
            ("2025-1-1", None),
            ("", None),
        ];
        for (field, want) in cases {
            let got = date(field.as_bytes()).map(|d| (d.year(), d.month(), d.day()));
            assert!(rt; got == want, "at {field}");
        }
    }
}
