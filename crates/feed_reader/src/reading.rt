//! A feed from the files of a folder.

ghost use Rattle.std.specs.Prelude.{◌≡◌, [], OnOk, IfOk, IfErr};
ghost use Rattle.feed_reader.specs.Faults.{IsFirstFault};
ghost use Rattle.feed_reader.specs.Feed.{IsFeedOf, feed_faults, routes_in, stop_rows};
ghost use Rattle.feed_reader.specs.FileFaults.{of_lists};

use crate::fault::FeedFault;
use crate::feed::Feed;
use crate::files::Files;
use crate::ids::Ids;
use crate::place_files::{read_route_file, read_stop_file, read_transfer_file};
use crate::service_files::read_services;
use crate::stops::StopTable;
use crate::timetable_files::read_timetable;
use std::alloc::Global;

impl Feed {
    /// The feed of the files of a folder. docs/FORMATS.md has its rules.
    ///
    /// # Refusals
    ///
    /// The first fault of the files in reading order: of each that it is missing where it has to be
    /// there, then the first fault of its sheet, then the first of its rows. `NoMemory` may come in
    /// its place.
    pub fn read(alloc: Global, files: &Files) -> Result<Feed, FeedFault>
        ensures feed { IfOk result (IsFeedOf files.now) }

        // Each fault is answered, and no other comes before it.
        ensures faultless { OnOk result (feed_faults files.now ≡ []) }
        ensures refused { IfErr result (IsFirstFault (feed_faults files.now)) }
    {
        let stops = read_stop_file(alloc, files)?;
        let routes = read_route_file(alloc, files)?;
        let feed = read_lists(alloc, files, stops, routes)?;
        Ok(feed)
    }
}

// The feed of the files that has these stops and routes.
fn read_lists(
    alloc: Global,
    files: &Files,
    stops: StopTable,
    routes: Ids,
) -> Result<Feed, FeedFault>
    requires stops { stops ≡ stop_rows files.now }
    requires routes { routes ≡ routes_in files.now }
    ensures feed { IfOk result (IsFeedOf files.now) }
    ensures faultless { OnOk result (of_lists files.now ≡ []) }
    ensures refused { IfErr result (IsFirstFault (of_lists files.now)) }
{
    let services = read_services(alloc, files, &routes)?;
    let timetable = read_timetable(alloc, files, &stops, services.table)?;
    let transfers = read_transfer_file(alloc, files, &stops)?;
    let stops = stops.into_stops();
    let routes = routes.into_names();
    let ids = services.ids.into_names();
    Ok(Feed::of(stops, routes, ids, services.calendar, timetable, transfers))
}
