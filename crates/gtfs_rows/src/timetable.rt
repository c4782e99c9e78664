//! Plain types of a timetable, which several crates share. Times are in seconds of the service day.

use jiff::civil::Date;

/// A row of calendar.txt: the days of the week on which a service runs, from `first` to `last`,
/// both included.
#[derive(Clone, Copy, Debug, Drop, PartialEq, Eq)]
pub struct Week {
    /// The number of the service.
    pub service: u32,
    /// Bit 0 is Monday and bit 6 Sunday.
    pub days: u8,
    pub first: Date,
    pub last: Date,
}

/// A row of calendar_dates.txt: the service runs on the date where `adds` is true, else not.
#[derive(Clone, Copy, Debug, Drop, PartialEq, Eq)]
pub struct Exception {
    /// The number of the service.
    pub service: u32,
    pub date: Date,
    pub adds: bool,
}

/// A row of frequencies.txt: the trip departs every `headway` seconds from `begins` on, before
/// `ends`.
#[derive(Clone, Copy, Debug, Drop, PartialEq, Eq)]
pub struct Band {
    /// The number of the trip.
    pub trip: u32,
    pub begins: u32,
    pub ends: u32,
    pub headway: u32,
    /// Whether the departures are exact.
    pub exact: bool,
}
