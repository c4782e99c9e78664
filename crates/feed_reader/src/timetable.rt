//! Plain types of a feed. Times are in seconds of the service day.

use gtfs_rows::Name;

/// A stop, and the number of the station that it belongs to.
#[derive(Drop)]
pub struct Stop {
    pub id: Name,
    pub parent: Option<u32>,
}

/// A trip, with the numbers of its route and its service.
#[derive(Drop)]
pub struct Trip {
    pub id: Name,
    pub route: u32,
    pub service: u32,
}

/// A call of a trip at a stop, in seconds of the service day, and whether passengers may board and
/// alight there.
#[derive(Clone, Copy, Debug, Drop, PartialEq, Eq)]
pub struct Call {
    /// The number of the stop.
    pub stop: u32,
    pub arrival: u32,
    pub departure: u32,
    pub pickup: bool,
    pub drop: bool,
}

/// A side of a transfer: a stop or a station, by its number. The two are numbered apart.
#[derive(Clone, Copy, Debug, Drop, PartialEq, Eq)]
pub enum Side {
    Stop(u32),
    Station(u32),
}

/// A row of transfers.txt: the seconds from one side to another, or that nobody may change there.
#[derive(Clone, Copy, Debug, Drop, PartialEq, Eq)]
pub struct Transfer {
    pub from: Side,
    pub to: Side,
    pub barred: bool,
    pub seconds: u64,
}

/// How many trips and rows of transfers.txt were set aside.
#[derive(Clone, Copy, Debug, Drop, PartialEq, Eq)]
pub struct Aside {
    pub trips: u64,
    pub transfers: u64,
}
