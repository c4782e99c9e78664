//! A feed.

ghost use Rattle.std.specs.Prelude.{◌≡◌, ◌<◌, ◌^◌, [], All, length, slice_index_or};
ghost use Rattle.feed_reader.specs.FeedLaws.{AreCallsOf, IsBandOf, IsFeed, IsTripOf};
ghost use Rattle.feed_reader.specs.Shown.{aside_of, feed_with};

use crate::call_lists::CallLists;
use crate::service_files::Calendar;
use crate::timetable::{Aside, Call, Stop, Transfer, Trip};
use crate::timetable_files::Timetable;
use crate::transfers::Transfers;
use gtfs_rows::{Band, Exception, Name, Week};
use std::marker::Model;

/// The stops, routes, services, trips, calls, bands, weeks, exceptions and transfers of a feed.
///
/// Stops, routes, services and trips are numbered from 0 by their places in these lists.
#[derive(Drop)]
pub struct Feed {
    stops: Vec<Stop>,
    routes: Vec<Name>,
    services: Vec<Name>,
    trips: Vec<Trip>,
    calls: CallLists,
    bands: Vec<Band>,
    weeks: Vec<Week>,
    exceptions: Vec<Exception>,
    transfers: Vec<Transfer>,
    aside: Aside,
}

impl Model for Feed {
    ghost use Rattle.feed_reader.specs.Feed.{FeedData};
    ghost use Rattle.feed_reader.specs.FeedLaws.{IsFeed};
    ghost use Rattle.feed_reader.specs.Shown.{feed_with};

    ghost Value = { FeedData };

    ghost view = { λ f. feed_with f.stops.items f.routes.items f.services.items f.trips.items f.calls f.bands.items f.weeks.items f.exceptions.items f.transfers.items f.aside };

    ghost invariant = { λ f. IsFeed (feed_with f.stops.items f.routes.items f.services.items f.trips.items f.calls f.bands.items f.weeks.items f.exceptions.items f.transfers.items f.aside) };
}

impl Feed {
    /// The feed of these parts, which keep its laws.
    pub(crate) fn of(
        stops: Vec<Stop>,
        routes: Vec<Name>,
        services: Vec<Name>,
        calendar: Calendar,
        timetable: Timetable,
        transfers: Transfers,
    ) -> Feed
        requires laws { IsFeed (feed_with stops.items routes.items services.items
            timetable.trips.items timetable.calls timetable.bands.items calendar.weeks.items
            calendar.exceptions.items transfers.list.items
            (aside_of timetable.aside transfers.aside)) }
        ensures value { result ≡ feed_with stops.items routes.items services.items
            timetable.trips.items timetable.calls timetable.bands.items calendar.weeks.items
            calendar.exceptions.items transfers.list.items
            (aside_of timetable.aside transfers.aside) }
    {
        let aside = Aside {
            trips: timetable.aside,
            transfers: transfers.aside,
        };
        Feed {
            stops,
            routes,
            services,
            trips: timetable.trips,
            calls: timetable.calls,
            bands: timetable.bands,
            weeks: calendar.weeks,
            exceptions: calendar.exceptions,
            transfers: transfers.list,
            aside,
        }
    }

    /// Each feed keeps the laws of feeds. This costs no time.
    pub fn rules(&self)
        ensures rules { IsFeed self.now }
    {
        let _aside = &self.aside;
    }

    /// The stops, in the order of stops.txt.
    pub fn stops(&self) -> &[Stop]
        ensures value { result.now ≡ self.now.stops }
        ensures few { length result.now < 2 ^ 32 }
    {
        &self.stops
    }

    /// The ids of the routes, in the order of routes.txt.
    pub fn routes(&self) -> &[Name]
        ensures value { result.now ≡ self.now.routes }
        ensures few { length result.now < 2 ^ 32 }
    {
        &self.routes
    }

    /// The ids of the services, in the order in which calendar.txt, calendar_dates.txt and
    /// trips.txt first name them.
    pub fn services(&self) -> &[Name]
        ensures value { result.now ≡ self.now.services }
        ensures few { length result.now < 2 ^ 32 }
    {
        &self.services
    }

    /// The trips that were not set aside, in the order of trips.txt.
    pub fn trips(&self) -> &[Trip]
        ensures value { result.now ≡ self.now.trips }
        ensures few { length result.now < 2 ^ 32 }
        ensures numbers { All (IsTripOf self.now) result.now }
    {
        &self.trips
    }

    /// The calls of a trip by sequence, two at least. Each has its times.
    pub fn calls(&self, trip: u32) -> &[Call]
        requires trip { trip < length self.now.trips }
        ensures value { result.now ≡ slice_index_or self.now.calls trip [] }
        ensures calls { AreCallsOf self.now result.now }
    {
        self.calls.get(trip)
    }

    /// The bands of the trips, in the order of frequencies.txt.
    pub fn bands(&self) -> &[Band]
        ensures value { result.now ≡ self.now.bands }
        ensures numbers { All (IsBandOf self.now) result.now }
    {
        &self.bands
    }

    /// The weeks of the services, in the order of calendar.txt.
    pub fn weeks(&self) -> &[Week]
        ensures value { result.now ≡ self.now.weeks }
    {
        &self.weeks
    }

    /// The exceptions of the services, in the order of calendar_dates.txt. Of several of one service
    /// and date the last decides.
    pub fn exceptions(&self) -> &[Exception]
        ensures value { result.now ≡ self.now.exceptions }
    {
        &self.exceptions
    }

    /// The transfers that were not set aside, in the order of transfers.txt.
    pub fn transfers(&self) -> &[Transfer]
        ensures value { result.now ≡ self.now.transfers }
    {
        &self.transfers
    }

    /// How many trips and transfers were set aside.
    pub fn aside(&self) -> Aside
        ensures value { result ≡ self.now.aside }
    {
        self.aside
    }
}

#[cfg(test)]
mod tests;
