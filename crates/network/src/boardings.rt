//! The boardings of the kept lines of a city, by their stops.

ghost use Rattle.std.specs.Prelude.{◌≡◌, ◌<◌, ◌^◌, ◌++◌, [], ◌∷◌, IfErr, IfOk, OnOk, if◌then◌else◌, length, map};
ghost use Rattle.network.specs.Boardings.{AreBoardings, boarding_at, boardings_in, fare_in, fares_at, fares_in, is_boarded, line_boardings};
ghost use Rattle.network.specs.Groups.{groups_of};
ghost use Rattle.network.specs.Sources.{kept_count, stop_count};
ghost use Rattle.network.specs.Towns.{HasSegment};
ghost use Rattle.network.specs.declared.fault.BuildFault.TheVariants as fault;
ghost use Rattle.scenarios.specs.Tariffs.{KeepsTicks, scenario_in};

use crate::fault::BuildFault;
use crate::groups::Groups;
use crate::town::Town;
use scenarios::{Layer, TimeFare};
use std::alloc::Global;

/// Where passengers may board a kept line: its number among the kept lines, and its place there.
#[derive(Clone, Copy, Debug, Drop, PartialEq, Eq)]
pub(crate) struct Boarding {
    pub line: u32,
    pub place: u32,
    pub stop: u32,
}

/// The ticks of the boardings of a kept line.
#[derive(Clone, Copy, Debug, Drop, PartialEq, Eq)]
pub(crate) struct Fares {
    pub first: u64,
    pub later: u64,
}

impl Fares {
    /// The ticks of a boarding in a layer.
    pub(crate) fn of(self, layer: Layer) -> u64
        ensures value { result ≡ fare_in self layer }
    {
        match layer {
            Layer::First => self.first,
            Layer::Later => self.later,
        }
    }
}

/// The boardings of all kept lines, by the stops at which they are, and the fares of each line.
#[derive(Drop)]
pub(crate) struct Boardings {
    pub(crate) list: Vec<Boarding>,
    pub(crate) by_stop: Groups,
    pub(crate) fares: Vec<Fares>,
}

impl Boardings {
    /// These boardings, by their stops.
    pub(crate) fn new(
        alloc: Global,
        town: &Town,
        list: Vec<Boarding>,
        fares: Vec<Fares>,
    ) -> Result<Boardings, BuildFault>
        requires list { list.items ≡ boardings_in town.now }
        requires fares { fares.items ≡ fares_in town.now }
        requires few { length list.items < 2 ^ 32 }
        ensures boardings { IfOk result (AreBoardings town.now) }
        ensures no_memory { IfErr result (λ e. e ≡ fault.NoMemory) }
    {
        let keys = stops_of(alloc, &list)?;
        let by_stop = groups_by_stop(alloc, town, &keys)?;
        Ok(Boardings {
            list,
            by_stop,
            fares,
        })
    }
}

// The stops of boardings.
fn stops_of(alloc: Global, list: &[Boarding]) -> Result<Vec<u32>, BuildFault>
    ensures value { IfOk result (λ stops. stops.items ≡ map (λ boarding. boarding.stop) list.now) }
    ensures no_memory { IfErr result (λ e. e ≡ fault.NoMemory) }
{
    let mut stops = Vec::new(alloc);
    for boarding in list {
        stops.push(boarding.stop)?;
    }
    Ok(stops)
}

// The places of the boardings of a town, by their stops.
fn groups_by_stop(alloc: Global, town: &Town, stops: &[u32]) -> Result<Groups, BuildFault>
    requires stops { stops.now ≡ map (λ boarding. boarding.stop) (boardings_in town.now) }
    requires few { length stops.now < 2 ^ 32 }
    ensures value { IfOk result (λ groups. groups ≡ groups_of (stop_count town.now) stops.now) }
    ensures no_memory { IfErr result (λ e. e ≡ fault.NoMemory) }
{
    town.rules();
    Groups::new(alloc, town.stops(), stops)
}

// Whether passengers may board a kept line at a place.
fn is_boarded(town: &Town, line: u32, place: u32) -> bool
    requires segment { HasSegment town.now line place }
    ensures value { result ≡ is_boarded town.now line place }
{
    let here = town.place(line, place);
    here.pickup && !town.closed(here.stop)
}

// Adds the boarding of a kept line at a place, if passengers may board there.
fn add_place(town: &Town, line: u32, place: u32, list: &mut Vec<Boarding>) -> Result<(), BuildFault>
    requires segment { HasSegment town.now line place }
    ensures added { OnOk result (list.new.items ≡ list.old.items
        ++ (if is_boarded town.now line place then boarding_at town.now line place ∷ [] else [])) }
    ensures no_memory { IfErr result (λ e. e ≡ fault.NoMemory) }
{
    if is_boarded(town, line, place) {
        let stop = town.place(line, place).stop;
        list.push(Boarding { line, place, stop })?;
    }
    Ok(())
}

// Adds the boardings of a kept line.
fn add_line(town: &Town, line: u32, list: &mut Vec<Boarding>) -> Result<(), BuildFault>
    requires line { line < kept_count town.now }
    ensures added { OnOk result (list.new.items ≡ list.old.items ++ line_boardings town.now line) }
    ensures no_memory { IfErr result (λ e. e ≡ fault.NoMemory) }
{
    for place in 0..town.segments(line) {
        add_place(town, line, place, list)?;
    }
    Ok(())
}

/// The boardings of all kept lines, by the places that the lines leave.
pub(crate) fn list_boardings(alloc: Global, town: &Town) -> Result<Vec<Boarding>, BuildFault>
    ensures value { IfOk result (λ list. list.items ≡ boardings_in town.now) }
    ensures no_memory { IfErr result (λ e. e ≡ fault.NoMemory) }
{
    let mut list = Vec::new(alloc);
    for line in 0..town.kept() {
        add_line(town, line, &mut list)?;
    }
    Ok(list)
}

// The ticks of the boardings of a kept line, as the function answers them.
fn fares_at<F: Fn(u32, Layer) -> u64>(town: &Town, fare: &TimeFare<F>, line: u32) -> Fares
    requires line { line < kept_count town.now }
    requires fare { scenario_in fare.now ≡ town.now.scenario }
    requires keeps { KeepsTicks F.pre F.post fare.now }
    ensures value { result ≡ fares_at town.now line }
{
    town.rules();
    let route = town.line(line).route;
    Fares {
        first: fare.ask(route, Layer::First),
        later: fare.ask(route, Layer::Later),
    }
}

/// The ticks of the boardings of each kept line, as the function answers them.
pub(crate) fn list_fares<F: Fn(u32, Layer) -> u64>(
    alloc: Global,
    town: &Town,
    fare: &TimeFare<F>,
) -> Result<Vec<Fares>, BuildFault>
    requires fare { scenario_in fare.now ≡ town.now.scenario }
    requires keeps { KeepsTicks F.pre F.post fare.now }
    ensures value { IfOk result (λ fares. fares.items ≡ fares_in town.now) }
    ensures no_memory { IfErr result (λ e. e ≡ fault.NoMemory) }
{
    let mut fares = Vec::new(alloc);
    for line in 0..town.kept() {
        fares.push(fares_at(town, fare, line))?;
    }
    Ok(fares)
}
