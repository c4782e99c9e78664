//! A stored function that answers the ticks of a scenario.

ghost use Rattle.std.specs.Prelude.{◌≡◌, ◌<◌};
ghost use Rattle.scenarios.specs.Answers.{AnswersTicks};
ghost use Rattle.scenarios.specs.Scenarios.{route_count, ticks_of};
ghost use Rattle.scenarios.specs.Tariffs.{KeepsTicks, scenario_in};

use crate::layer::Layer;
use crate::scenario::Scenario;
use std::snapshot::Snapshot;

/// A function that answers the ticks of a scenario, and for contracts alone the scenario.
#[derive(Drop)]
pub struct TimeFare<F: Fn(u32, Layer) -> u64> {
    answer: F,
    scenario: Snapshot<Scenario>,
}

impl<F: Fn(u32, Layer) -> u64> TimeFare<F> {
    /// Keeps a function that may be asked for each route of a scenario and each layer, and whose
    /// every answer is the ticks there. It takes no memory and keeps nothing of the scenario.
    pub fn new(scenario: &Scenario, answer: F) -> TimeFare<F>
        requires answers { AnswersTicks (F.pre answer) (F.post answer) scenario.now }
        ensures scenario { scenario_in result ≡ scenario.now }
        ensures keeps { KeepsTicks F.pre F.post result }
    {
        TimeFare {
            answer,
            scenario: Snapshot::of(scenario),
        }
    }

    /// The ticks of a boarding of a line of a route, as the function answers them.
    pub fn ask(&self, route: u32, layer: Layer) -> u64
        requires route { route < route_count (scenario_in self.now) }
        requires keeps { KeepsTicks F.pre F.post self.now }
        ensures value { result ≡ ticks_of (scenario_in self.now) route layer }
    {
        (self.answer)(route, layer)
    }
}
