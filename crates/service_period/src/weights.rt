//! What trips weigh in a window.

ghost use Rattle.std.specs.Prelude.{◌≡◌, ◌≤◌, ◌-◌, min};
ghost use Rattle.std.specs.Int.{div_ceil};
ghost use Rattle.service_period.specs.Periods.{longest_window};
ghost use Rattle.service_period.specs.Weights.{band_weight_of, departures, greatest_band_weight};
ghost use Rattle.service_period.specs.Weights.{shared_seconds, trip_weight_of};

use crate::period::Period;
use gtfs_rows::Band;

/// The weight of a trip without bands: 1000 where its first departure, in seconds, lies in the
/// window, else 0.
pub fn trip_weight(period: &Period, first_departure: u32) -> u64
    ensures value { result ≡ trip_weight_of period.now first_departure }
    ensures within { result ≤ 1000 }
{
    if period.from() <= first_departure && first_departure < period.to() {
        1000
    } else {
        0
    }
}

/// The weight of a band, in thousandths of departures in the window.
///
/// Where the departures are exact, each of them in the window weighs 1000. Else it is 1000 times
/// the seconds that the band shares with the window over its headway, rounded down.
pub fn band_weight(period: &Period, band: &Band) -> u64
    requires headway { 1 ≤ band.now.headway }
    ensures value { result ≡ band_weight_of period.now band.now }
    ensures within { result ≤ greatest_band_weight }
{
    if band.exact {
        1000 * departures(period, band)
    } else {
        1000 * shared_seconds(period, band) / u64::from(band.headway)
    }
}

// How many seconds of the window lie in the band.
fn shared_seconds(period: &Period, band: &Band) -> u64
    ensures value { result ≡ shared_seconds period.now band.now }
    ensures within { result ≤ longest_window }
{
    let first = band.begins.max(period.from());
    let end = band.ends.min(period.to());
    u64::from(end.saturating_sub(first))
}

// How many departures of the band lie in the window.
fn departures(period: &Period, band: &Band) -> u64
    requires headway { 1 ≤ band.now.headway }
    ensures value { result ≡ departures period.now band.now }
    ensures within { result ≤ longest_window }
{
    departures_before(band, period.to()) - departures_before(band, period.from())
}

// How many departures of the band come before a second.
fn departures_before(band: &Band, second: u32) -> u64
    requires headway { 1 ≤ band.now.headway }
    ensures value { result ≡
        div_ceil (min second band.now.ends - band.now.begins) band.now.headway }
{
    let end = second.min(band.ends);
    u64::from(end.saturating_sub(band.begins)).div_ceil(u64::from(band.headway))
}

#[cfg(test)]
mod tests {
    use super::*;
    use crate::bad_period::BadPeriod;

    // From 25200 on and before 28800.
    fn seven_to_eight() -> Result<Period, BadPeriod> {
        Period::new("20250602", "07:00:00", "08:00:00")
    }

    // The weight of a band, where its headway is not 0.
    fn weight(period: &Period, begins: u32, ends: u32, headway: u32, exact: bool) -> Option<u64> {
        if headway == 0 {
            return None;
        }
        let band = Band {
            trip: 0,
            begins,
            ends,
            headway,
            exact,
        };
        Some(band_weight(period, &band))
    }

    #[test]
    fn a_band_weighs_its_departures_in_the_window(rt: HostRuntime) -> Result<(), BadPeriod> {
        let period = seven_to_eight()?;
        let cases = [
            // 3600 * 1000 / 420 is 8571.4; the last departure is at 25200 + 8 * 420 = 28560.
            (25_200, 28_800, 420, false, 8571),
            (25_200, 28_800, 420, true, 9000),
            // The half hour from 7:00 on; departures at 7:00, 7:10 and 7:20.
            (23_400, 27_000, 600, false, 3000),
            (23_400, 27_000, 600, true, 3000),
            // It ends as the window begins, and begins as the window ends.
            (23_400, 25_200, 600, false, 0),
            (23_400, 25_200, 600, true, 0),
            (28_800, 32_400, 600, false, 0),
            (28_800, 32_400, 600, true, 0),
            // Departures at 25000, 26000, 27000 and 28000, of which three are in the window.
            (25_000, 30_000, 1000, false, 3600),
            (25_000, 30_000, 1000, true, 3000),
            // A headway of ten hours: a tenth of a departure, or the one at the beginning.
            (25_200, 61_200, 36_000, false, 100),
            (25_200, 61_200, 36_000, true, 1000),
            (25_199, 61_200, 36_000, true, 0),
            // Each second of the window.
            (0, 4_294_967_295, 1, false, 3_600_000),
            (0, 4_294_967_295, 1, true, 3_600_000),
            // It ends before it begins.
            (27_000, 26_000, 60, false, 0),
            (27_000, 26_000, 60, true, 0),
        ];
        for (begins, ends, headway, exact, want) in cases {
            let got = weight(&period, begins, ends, headway, exact);
            assert_eq!(rt; got, Some(want), "at {begins} {ends} {headway} {exact}");
        }
        Ok(())
    }

    #[test]
    fn a_trip_weighs_by_its_first_departure(rt: HostRuntime) -> Result<(), BadPeriod> {
        let period = seven_to_eight()?;
        let cases = [(25_199, 0), (25_200, 1000), (28_799, 1000), (28_800, 0)];
        for (departure, want) in cases {
            assert_eq!(rt; trip_weight(&period, departure), want, "at {departure}");
        }
        Ok(())
    }
}
