//! The dates on which services run.

ghost use Rattle.std.specs.Prelude.{◌≡◌, ◌<◌, Some, if◌then◌else◌, option_map};
ghost use Rattle.std.specs.List.{list_any};
ghost use Rattle.jiff.specs.Words.{weekday_of};
ghost use Rattle.gtfs_rows.specs.Fields.{ymd_of};
ghost use Rattle.service_period.specs.Services.{has_weekday, is_exception_of, is_week_of, last_exception, runs_on};

use gtfs_rows::{Exception, Week};
use jiff::civil::Date;

/// Whether a service runs on a date.
///
/// The last exception of the service and the date decides where there is one. Else the service
/// runs where some week of it has the date: from its first date to its last, both included, on
/// a weekday that is set. GTFS Schedule reference, calendar.txt and calendar_dates.txt.
pub fn runs(weeks: &[Week], exceptions: &[Exception], service: u32, date: Date) -> bool
    ensures value { result ≡ runs_on weeks.now exceptions.now service (ymd_of date) }
{
    match last_adds(exceptions, service, date) {
        Some(adds) => adds,
        None => has_week(weeks, service, date),
    }
}

// What the last exception of a service and a date says.
fn last_adds(exceptions: &[Exception], service: u32, date: Date) -> Option<bool>
    ensures value { result ≡ option_map (λ exception. exception.adds)
        (last_exception exceptions.now service (ymd_of date)) }
{
    let mut adds = None;
    for exception in exceptions {
        adds = later_adds(adds, exception, service, date);
    }
    adds
}

// What an exception says where it is of a service and a date, else what was said before.
fn later_adds(before: Option<bool>, exception: &Exception, service: u32, date: Date) -> Option<bool>
    ensures value { result ≡ (if is_exception_of service (ymd_of date) exception.now
        then Some exception.now.adds else before) }
{
    if is_exception_of(exception, service, date) {
        Some(exception.adds)
    } else {
        before
    }
}

// Whether some week of a service has a date.
fn has_week(weeks: &[Week], service: u32, date: Date) -> bool
    ensures value { result ≡ list_any (is_week_of service (ymd_of date)) weeks.now }
{
    weeks.iter().any(|week| is_week_of(week, service, date))
}

// Whether an exception is of a service and a date.
fn is_exception_of(exception: &Exception, service: u32, date: Date) -> bool
    ensures value { result ≡ is_exception_of service (ymd_of date) exception.now }
{
    exception.service == service && exception.date == date
}

// Whether a week is of a service and has a date.
fn is_week_of(week: &Week, service: u32, date: Date) -> bool
    ensures value { result ≡ is_week_of service (ymd_of date) week.now }
{
    week.service == service
        && week.first <= date
        && date <= week.last
        && has_weekday(week.days, weekday(date))
}

// Whether days of the week have a weekday, from 0 for Monday.
fn has_weekday(days: u8, weekday: u8) -> bool
    requires weekday { weekday < 7 }
    ensures value { result ≡ has_weekday days weekday }
{
    days >> weekday & 1 == 1
}

// The weekday of a date, from 0 for Monday.
fn weekday(date: Date) -> u8
    ensures value { result ≡ weekday_of date }
    ensures within { result < 7 }
{
    date.weekday().to_monday_zero_offset() as u8
}

#[cfg(test)]
mod tests {
    use super::*;
    use std::test::Fail;

    fn day(text: &str) -> Result<Date, Fail> {
        Ok(gtfs_rows::date(text.as_bytes()).ok_or("a date")?)
    }

    fn week(days: u8, first: &str, last: &str) -> Result<Week, Fail> {
        Ok(Week {
            service: 0,
            days,
            first: day(first)?,
            last: day(last)?,
        })
    }

    fn exception(service: u32, date: &str, adds: bool) -> Result<Exception, Fail> {
        Ok(Exception {
            service,
            date: day(date)?,
            adds,
        })
    }

    // Monday to Friday are the bits 1, 2, 4, 8 and 16.
    #[test]
    fn a_service_of_workdays_runs_but_for_its_exceptions(rt: HostRuntime) -> Result<(), Fail> {
        let weeks = [week(31, "20250101", "20251231")?];
        let exceptions = [
            exception(0, "20250602", false)?,
            exception(0, "20250607", true)?,
            exception(1, "20250604", false)?,
        ];
        let cases = [
            ("20250602", false, "Monday, taken out"),
            ("20250603", true, "Tuesday"),
            ("20250604", true, "Wednesday, taken out of another service"),
            ("20250606", true, "Friday"),
            ("20250607", true, "Saturday, put in"),
            ("20250608", false, "Sunday"),
            ("20250614", false, "Saturday"),
            ("20250101", true, "the first date, a Wednesday"),
            ("20241231", false, "the Tuesday before"),
            ("20251231", true, "the last date, a Wednesday"),
            ("20260101", false, "the Thursday after"),
        ];
        for (date, want, reason) in cases {
            assert_eq!(rt;
                runs(&weeks, &exceptions, 0, day(date)?),
                want,
                "at {reason}"
            );
        }
        let tuesday = day("20250603")?;
        assert!(rt;
            !runs(&weeks, &exceptions, 1, tuesday),
            "a service without a week"
        );
        Ok(())
    }

    #[test]
    fn the_last_exception_of_a_date_decides(rt: HostRuntime) -> Result<(), Fail> {
        let tuesday = "20250603";
        let out = exception(0, tuesday, false)?;
        let put = exception(0, tuesday, true)?;
        let other = exception(1, tuesday, false)?;
        let date = day(tuesday)?;
        assert!(rt; runs(&[], &[out, put], 0, date));
        assert!(rt; runs(&[], &[put, other], 0, date));
        assert!(rt; !runs(&[week(127, "20250101", "20251231")?], &[put, out], 0, date));
        Ok(())
    }

    // Saturdays and Sundays, the bits 32 and 64, and the Mondays of June.
    #[test]
    fn some_week_of_the_service_is_enough(rt: HostRuntime) -> Result<(), Fail> {
        let weeks = [
            week(96, "20250101", "20251231")?,
            week(1, "20250601", "20250630")?,
        ];
        let cases = [
            ("20250607", true, "Saturday"),
            ("20250608", true, "Sunday"),
            ("20250609", true, "Monday of June"),
            ("20250630", true, "the last Monday of June"),
            ("20250707", false, "Monday of July"),
            ("20250610", false, "Tuesday of June"),
        ];
        for (date, want, reason) in cases {
            assert_eq!(rt; runs(&weeks, &[], 0, day(date)?), want, "at {reason}");
        }
        Ok(())
    }
}
