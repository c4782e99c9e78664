//! A period: a date and a window of its service day.

ghost use Rattle.std.specs.Prelude.{◌≡◌, ◌-◌, ◌≤◌, ◌<◌, ◌+◌, [], Some, IfOk, IfErr, OnOk, slice_get};
ghost use Rattle.gtfs_rows.specs.Fields.{clock_of, date_of, ymd_of};
ghost use Rattle.service_period.specs.Periods.{IsPeriodOf, is_window, longest_window, period_faults, window_of};

use crate::bad_period::BadPeriod;
use gtfs_rows::clock;
use jiff::civil::Date;
use std::marker::Model;

// The seconds of the longest window.
const LONGEST_WINDOW: u32 = 172_800;

/// A date and a window of its service day. Times are in seconds of that day and may be past
/// midnight; the window is not empty, and at most two days long.
#[derive(Drop)]
pub struct Period {
    date: Date,
    from: u32,
    to: u32,
}

impl Model for Period {
    ghost use Rattle.std.specs.Prelude.{◌≡◌, true};
    ghost use Rattle.gtfs_rows.specs.Fields.{ymd_of};
    ghost use Rattle.service_period.specs.Periods.{PeriodData, is_window};

    ghost Value = { PeriodData };

    ghost view = { λ period.
        record { date = ymd_of period.date; from = period.from; to = period.to } };

    ghost invariant = { λ period. is_window period.from period.to ≡ true };
}

impl Period {
    /// The period of a date YYYYMMDD and a window of times H:MM:SS, from `from` on and before
    /// `to`. It takes no memory.
    ///
    /// # Refusals
    ///
    /// The first that applies, in this order.
    /// - `Date`: the first text is no date.
    /// - `Window`: a text is no time, `from` is not before `to`, or the window is longer than
    ///   172,800 seconds.
    pub fn new(date: &str, from: &str, to: &str) -> Result<Period, BadPeriod>
        ensures period { IfOk result (IsPeriodOf date.now from.now to.now) }

        // Each fault is answered, and no other comes before it.
        ensures faultless { OnOk result (period_faults date.now from.now to.now ≡ []) }
        ensures refused { IfErr result
            (λ fault. slice_get (period_faults date.now from.now to.now) 0 ≡ Some fault) }
    {
        let date = gtfs_rows::date(date.as_bytes()).ok_or(BadPeriod::Date)?;
        let (from, to) = window(from, to).ok_or(BadPeriod::Window)?;
        Ok(Period { date, from, to })
    }

    /// The date.
    pub fn date(&self) -> Date
        ensures value { ymd_of result ≡ self.now.date }
    {
        self.date
    }

    /// The first second of the window.
    pub fn from(&self) -> u32
        ensures value { result ≡ self.now.from }
    {
        self.from
    }

    /// The first second after the window.
    pub fn to(&self) -> u32
        ensures value { result ≡ self.now.to }
        ensures forward { self.now.from < result }
        ensures within { result ≤ self.now.from + longest_window }
    {
        self.to
    }

    /// How many seconds the window has.
    pub fn seconds(&self) -> u32
        ensures value { result ≡ self.now.to - self.now.from }
        ensures within { (1 ≤ result) × (result ≤ longest_window) }
    {
        self.to - self.from
    }
}

// The ends of the window that two texts write.
fn window(from: &str, to: &str) -> Option<(u32, u32)>
    ensures value { result ≡ window_of (clock_of from.now) (clock_of to.now) }
{
    let from = clock(from.as_bytes())?;
    let to = clock(to.as_bytes())?;
    if is_window(from, to) {
        Some((from, to))
    } else {
        None
    }
}

// Whether a window leads forward and is not longer than the longest.
fn is_window(from: u32, to: u32) -> bool
    ensures value { result ≡ is_window from to }
{
    from < to && to - from <= LONGEST_WINDOW
}

#[cfg(test)]
mod tests {
    use super::*;

    // The seconds of the window of a period, or why there is none.
    fn seconds_of(date: &str, from: &str, to: &str) -> Result<u32, BadPeriod> {
        Ok(Period::new(date, from, to)?.seconds())
    }

    #[test]
    fn a_window_leads_forward_for_two_days_at_most(rt: HostRuntime) {
        let cases = [
            ("20250602", "07:00:00", "08:00:00", Ok(3600)),
            ("20250602", "7:00:00", "07:00:01", Ok(1)),
            // Past midnight, and both ends past it.
            ("20250602", "23:00:00", "25:30:00", Ok(9000)),
            ("20250602", "100:00:00", "148:00:00", Ok(172_800)),
            ("20250602", "00:00:00", "48:00:00", Ok(172_800)),
            ("20250602", "00:00:00", "48:00:01", Err(BadPeriod::Window)),
            ("20250602", "100:00:00", "148:00:01", Err(BadPeriod::Window)),
            ("20250602", "07:00:00", "07:00:00", Err(BadPeriod::Window)),
            ("20250602", "08:00:00", "07:59:59", Err(BadPeriod::Window)),
            ("20250602", "07:60:00", "08:00:00", Err(BadPeriod::Window)),
            ("20250602", "07:00:00", "8", Err(BadPeriod::Window)),
            ("20250602", "", "", Err(BadPeriod::Window)),
            // 2025 has no 29 February.
            ("20250229", "07:00:00", "08:00:00", Err(BadPeriod::Date)),
            ("2025-06-02", "07:00:00", "08:00:00", Err(BadPeriod::Date)),
            // The date is tried first.
            ("20250229", "08:00:00", "07:00:00", Err(BadPeriod::Date)),
            ("", "", "", Err(BadPeriod::Date)),
        ];
        for (date, from, to, want) in cases {
            assert_eq!(rt; seconds_of(date, from, to), want, "at {date} {from} {to}");
        }
    }

    #[test]
    fn a_period_has_its_date_and_its_ends(rt: HostRuntime) -> Result<(), BadPeriod> {
        let period = Period::new("20250602", "07:00:00", "25:00:00")?;
        assert_eq!(rt; (period.from(), period.to()), (25_200, 90_000));
        let date = period.date();
        assert!(rt; (date.year(), date.month(), date.day()) == (2025, 6, 2));
        Ok(())
    }
}
