//! A scenario.

ghost use Rattle.std.specs.Prelude.{◌≡◌, ◌<◌, ◌≤◌, [], IfOk, IfErr, OnOk, false};
ghost use Rattle.scenarios.specs.declared.fault.ScenarioFault.TheVariants as fault;
ghost use Rattle.scenarios.specs.Changes.{HasPart, LiesWithin, with_edit};
ghost use Rattle.scenarios.specs.Edits.{range_of, target_of};
ghost use Rattle.scenarios.specs.Faults.{IsFirstFault, scenario_faults, scenario_rows};
ghost use Rattle.scenarios.specs.Feeds.{IsOfFeed, route_ids, stop_ids};
ghost use Rattle.scenarios.specs.Laws.{IsScenario};
ghost use Rattle.scenarios.specs.Scenarios.{is_closed, route_count, scenario_of, stop_count, ticks_of, weight_of};
ghost use Rattle.scenarios.specs.Shown.{many, scenario_with};

use crate::edit::Edit;
use crate::fault::ScenarioFault;
use crate::index::{Index, route_ids, stop_ids};
use crate::layer::Layer;
use crate::rows::{read_rows, read_sheet};
use feed_reader::Feed;
use gtfs_rows::NoMemory;
use std::alloc::Global;
use std::marker::Model;

/// What a scenario changes of a feed, whose routes and stops it knows by their numbers.
#[derive(Drop)]
pub struct Scenario {
    wait: u32,
    pace: u32,
    transfer: u32,
    scales: Vec<u32>,
    fares: Vec<u32>,
    dropped: Vec<bool>,
    closed: Vec<bool>,
}

impl Model for Scenario {
    ghost use Rattle.scenarios.specs.Laws.{IsScenario};
    ghost use Rattle.scenarios.specs.Scenarios.{ScenarioData};
    ghost use Rattle.scenarios.specs.Shown.{scenario_with};

    ghost Value = { ScenarioData };

    ghost view = { λ s. scenario_with s.wait s.pace s.transfer
        s.scales.items s.fares.items s.dropped.items s.closed.items };

    ghost invariant = { λ s. IsScenario (scenario_with s.wait s.pace s.transfer
        s.scales.items s.fares.items s.dropped.items s.closed.items) };
}

impl Scenario {
    /// The scenario of the bytes of a sheet over the routes and stops of a feed, in time linear in
    /// them but for the look-up of an id. docs/FORMATS.md has its rules.
    ///
    /// # Refusals
    ///
    /// The first that applies, each at a place in the file `scenario`.
    /// - `Row`: the refusals of the sheet.
    /// - Then for each row in turn: `BadValue` of an edit that there is not; `BadValue` of a target
    ///   that has to be empty, or `UnknownId` of one that is no route or stop; `BadValue` of a value
    ///   that the edit may not have.
    /// - `NoMemory` may come in place of any of these.
    pub fn read(alloc: Global, bytes: &[u8], feed: &Feed) -> Result<Scenario, ScenarioFault>
        ensures scenario { IfOk result (λ scenario. scenario
            ≡ scenario_of (route_ids feed.now) (stop_ids feed.now) (scenario_rows bytes.now)) }
        ensures faultless { OnOk result
            (scenario_faults (route_ids feed.now) (stop_ids feed.now) bytes.now ≡ []) }
        ensures refused { IfErr result
            (IsFirstFault (scenario_faults (route_ids feed.now) (stop_ids feed.now) bytes.now)) }
        ensures size { IfOk result (IsOfFeed feed.now) }
    {
        let sheet = read_sheet(alloc, bytes)?;
        let routes = Index::new(alloc, route_ids(alloc, feed.routes())?)?;
        let stops = Index::new(alloc, stop_ids(alloc, feed.stops())?)?;
        read_rows(alloc, &sheet, &routes, &stops)
    }

    /// The scenario without edits over the routes and stops of a feed. It refuses nothing; it may
    /// want memory.
    pub fn plain(alloc: Global, feed: &Feed) -> Result<Scenario, ScenarioFault>
        ensures scenario { IfOk result
            (λ scenario. scenario ≡ scenario_of (route_ids feed.now) (stop_ids feed.now) []) }
        ensures no_memory { IfErr result (λ e. e ≡ fault.NoMemory) }
        ensures size { IfOk result (IsOfFeed feed.now) }
    {
        Scenario::unedited(alloc, feed.routes().len(), feed.stops().len())
    }

    // The scenario without edits of so many routes and stops.
    pub(crate) fn unedited(
        alloc: Global,
        routes: usize,
        stops: usize,
    ) -> Result<Scenario, ScenarioFault>
        ensures value { IfOk result (λ scenario. scenario ≡ scenario_with 50 100 0
            (many routes 100) (many routes 0) (many routes false) (many stops false)) }
        ensures no_memory { IfErr result (λ e. e ≡ fault.NoMemory) }
    {
        Ok(Scenario {
            wait: 50,
            pace: 100,
            transfer: 0,
            scales: numbers(alloc, routes, 100)?,
            fares: numbers(alloc, routes, 0)?,
            dropped: marks(alloc, routes)?,
            closed: marks(alloc, stops)?,
        })
    }

    // Takes the value of an edit, at the route or the stop of this number, if the edit has one.
    pub(crate) fn put(&mut self, edit: Edit, number: u32, value: u32)
        requires number { HasPart self.old (target_of edit) number }
        requires value { LiesWithin (range_of edit) value }
        ensures value { self.new ≡ with_edit self.old edit number value }
    {
        let number = number as usize;
        match edit {
            Edit::Scale => self.scales[number] = value,
            Edit::Fare => self.fares[number] = value,
            Edit::Drop => self.dropped[number] = true,
            Edit::Close => self.closed[number] = true,
            Edit::Transfer => self.transfer = value,
            Edit::Wait => self.wait = value,
            Edit::Pace => self.pace = value,
        }
    }

    /// Each scenario keeps the laws of scenarios. This costs no time.
    pub fn rules(&self)
        ensures rules { IsScenario self.now }
    {
        let _wait = self.wait;
    }

    /// The part of a headway that passengers wait, in percent: 50 without an edit.
    pub fn wait(&self) -> u32
        ensures value { result ≡ self.now.wait }
        ensures some { 1 ≤ result }
        ensures within { result ≤ 200 }
    {
        self.wait
    }

    /// The time that walks take, in percent of their times: 100 without an edit.
    pub fn pace(&self) -> u32
        ensures value { result ≡ self.now.pace }
        ensures some { 1 ≤ result }
        ensures within { result ≤ 1000 }
    {
        self.pace
    }

    /// Whether nobody may board or alight at a stop.
    pub fn closed(&self, stop: u32) -> bool
        requires stop { stop < stop_count self.now }
        ensures value { result ≡ is_closed self.now stop }
    {
        self.closed[stop as usize]
    }

    /// The weight of a line of a route, which without the scenario has this one: its scale in
    /// percent of that, rounded down, and 0 where the route is dropped.
    pub fn weight(&self, route: u32, weight: u32) -> u64
        requires route { route < route_count self.now }
        ensures value { result ≡ weight_of self.now route weight }
    {
        if self.dropped[route as usize] {
            0
        } else {
            u64::from(weight) * u64::from(self.scales[route as usize]) / 100
        }
    }

    /// The ticks of a boarding of a line of a route: its fare, and at a later boarding that of a
    /// transfer too, and 1 where there is none.
    pub fn ticks(&self, route: u32, layer: Layer) -> u64
        requires route { route < route_count self.now }
        ensures value { result ≡ ticks_of self.now route layer }
        ensures some { 1 ≤ result }
        ensures within { result ≤ 1000000000 }
    {
        let seconds = match layer {
            Layer::First => self.fares[route as usize],
            Layer::Later => self.fares[route as usize] + self.transfer,
        };
        (1000 * u64::from(seconds)).max(1)
    }
}

// So many of a number.
fn numbers(alloc: Global, count: usize, number: u32) -> Result<Vec<u32>, NoMemory>
    ensures value { IfOk result (λ numbers. numbers.items ≡ many count number) }
{
    let mut numbers = Vec::new(alloc);
    for _ in 0..count {
        numbers.push(number)?;
    }
    Ok(numbers)
}

// So many marks, none of them set.
fn marks(alloc: Global, count: usize) -> Result<Vec<bool>, NoMemory>
    ensures value { IfOk result (λ marks. marks.items ≡ many count false) }
{
    let mut marks = Vec::new(alloc);
    for _ in 0..count {
        marks.push(false)?;
    }
    Ok(marks)
}

#[cfg(test)]
mod tests;
