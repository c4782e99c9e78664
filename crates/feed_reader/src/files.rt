//! The files of a feed.

ghost use Rattle.std.specs.Prelude.{◌≡◌, ◌<◌, ◌≤◌, length};
ghost use Rattle.std.specs.Option.{option_copied};
ghost use Rattle.definitions.specs.declared.limits.TheConstants.{FILE_LIMIT};
ghost use Rattle.feed_reader.specs.Places.{bytes_in, file_at, length_of, no_files, with_file};

use gtfs_rows::Blob;
use std::marker::Model;

/// The files of a feed, each where it is there. None is longer than a file may be.
///
/// They have places in reading order, counted from 0: stops.txt, routes.txt, calendar.txt,
/// calendar_dates.txt, trips.txt, stop_times.txt, frequencies.txt and transfers.txt.
#[derive(Drop)]
pub struct Files {
    stops: Option<Blob>,
    routes: Option<Blob>,
    calendar: Option<Blob>,
    calendar_dates: Option<Blob>,
    trips: Option<Blob>,
    stop_times: Option<Blob>,
    frequencies: Option<Blob>,
    transfers: Option<Blob>,
}

impl Model for Files {
    ghost use Rattle.feed_reader.specs.Feed.{FilesData};
    ghost use Rattle.feed_reader.specs.Places.{AreShort, files_with};

    ghost Value = { FilesData };

    ghost view = { λ f. files_with f.stops f.routes f.calendar f.calendar_dates f.trips f.stop_times f.frequencies f.transfers };

    ghost invariant = { λ f. AreShort (files_with f.stops f.routes f.calendar f.calendar_dates f.trips f.stop_times f.frequencies f.transfers) };
}

impl Files {
    /// No files. It takes no memory.
    pub fn none() -> Files
        ensures value { result ≡ no_files }
    {
        Files {
            stops: None,
            routes: None,
            calendar: None,
            calendar_dates: None,
            trips: None,
            stop_times: None,
            frequencies: None,
            transfers: None,
        }
    }

    /// Puts the body of the file at a place, in place of one that is there. It takes no memory.
    pub fn set(&mut self, place: u32, body: Blob)
        requires place { place < 8 }
        requires body { length body ≤ FILE_LIMIT }
        ensures value { self.new ≡ with_file self.old place body }
    {
        match place {
            0 => self.stops = Some(body),
            1 => self.routes = Some(body),
            2 => self.calendar = Some(body),
            3 => self.calendar_dates = Some(body),
            4 => self.trips = Some(body),
            5 => self.stop_times = Some(body),
            6 => self.frequencies = Some(body),
            _ => self.transfers = Some(body),
        }
    }

    /// The body of the file at a place, None where there is none.
    pub fn get(&self, place: u32) -> Option<&Blob>
        requires place { place < 8 }
        ensures value { option_copied result ≡ file_at self.now place }
        ensures short { length_of (file_at self.now place) ≤ FILE_LIMIT }
    {
        match place {
            0 => self.stops.as_ref(),
            1 => self.routes.as_ref(),
            2 => self.calendar.as_ref(),
            3 => self.calendar_dates.as_ref(),
            4 => self.trips.as_ref(),
            5 => self.stop_times.as_ref(),
            6 => self.frequencies.as_ref(),
            _ => self.transfers.as_ref(),
        }
    }

    /// The bytes of stops.txt.
    pub(crate) fn stops(&self) -> Option<&[u8]>
        ensures value { option_copied result ≡ self.now.stops }
        ensures short { length_of self.now.stops ≤ FILE_LIMIT }
    {
        bytes_of(&self.stops)
    }

    /// The bytes of routes.txt.
    pub(crate) fn routes(&self) -> Option<&[u8]>
        ensures value { option_copied result ≡ self.now.routes }
        ensures short { length_of self.now.routes ≤ FILE_LIMIT }
    {
        bytes_of(&self.routes)
    }

    /// The bytes of calendar.txt.
    pub(crate) fn calendar(&self) -> Option<&[u8]>
        ensures value { option_copied result ≡ self.now.calendar }
        ensures short { length_of self.now.calendar ≤ FILE_LIMIT }
    {
        bytes_of(&self.calendar)
    }

    /// The bytes of calendar_dates.txt.
    pub(crate) fn calendar_dates(&self) -> Option<&[u8]>
        ensures value { option_copied result ≡ self.now.calendar_dates }
        ensures short { length_of self.now.calendar_dates ≤ FILE_LIMIT }
    {
        bytes_of(&self.calendar_dates)
    }

    /// The bytes of trips.txt.
    pub(crate) fn trips(&self) -> Option<&[u8]>
        ensures value { option_copied result ≡ self.now.trips }
        ensures short { length_of self.now.trips ≤ FILE_LIMIT }
    {
        bytes_of(&self.trips)
    }

    /// The bytes of stop_times.txt.
    pub(crate) fn stop_times(&self) -> Option<&[u8]>
        ensures value { option_copied result ≡ self.now.stop_times }
        ensures short { length_of self.now.stop_times ≤ FILE_LIMIT }
    {
        bytes_of(&self.stop_times)
    }

    /// The bytes of frequencies.txt.
    pub(crate) fn frequencies(&self) -> Option<&[u8]>
        ensures value { option_copied result ≡ self.now.frequencies }
        ensures short { length_of self.now.frequencies ≤ FILE_LIMIT }
    {
        bytes_of(&self.frequencies)
    }

    /// The bytes of transfers.txt.
    pub(crate) fn transfers(&self) -> Option<&[u8]>
        ensures value { option_copied result ≡ self.now.transfers }
        ensures short { length_of self.now.transfers ≤ FILE_LIMIT }
    {
        bytes_of(&self.transfers)
    }

    /// How many bytes the files have in all.
    pub(crate) fn length(&self) -> u64
        ensures value { result ≡ bytes_in self.now }
    {
        let calendars = length_of(&self.calendar) + length_of(&self.calendar_dates);
        let trips = length_of(&self.trips) + length_of(&self.stop_times);
        let others = length_of(&self.frequencies) + length_of(&self.transfers);
        length_of(&self.stops) + length_of(&self.routes) + calendars + trips + others
    }
}

// The bytes of a file.
fn bytes_of(body: &Option<Blob>) -> Option<&[u8]>
    ensures value { option_copied result ≡ body.now }
{
    match body {
        None => None,
        Some(body) => Some(body.as_slice()),
    }
}

// How long a file is, 0 where there is none.
fn length_of(body: &Option<Blob>) -> u64
    ensures value { result ≡ length_of body.now }
{
    match body {
        None => 0,
        Some(body) => body.as_slice().len() as u64,
    }
}
