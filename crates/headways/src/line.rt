//! A line, and the plain types of its parts.

ghost use Rattle.std.specs.Prelude.{◌≡◌, ℕ, List};
ghost use Rattle.headways.specs.declared.line.LinePlace.{LinePlace};

use std::marker::Model;

/// A call of a line: the number of the stop, and whether passengers may board and alight there.
#[derive(Clone, Copy, Debug, Drop, PartialEq, Eq)]
pub struct LinePlace {
    pub stop: u32,
    pub pickup: bool,
    pub drop: bool,
}

/// The places of a line, in order.
#[derive(Drop)]
pub struct Places {
    places: Vec<LinePlace>,
}

impl Model for Places {
    ghost Value = { List LinePlace };

    ghost view = { λ p. p.places.items };
}

impl Places {
    /// These places. It takes no memory.
    pub fn new(places: Vec<LinePlace>) -> Places
        ensures value { result ≡ places.items }
    {
        Places { places }
    }

    /// The places, in order.
    pub fn as_slice(&self) -> &[LinePlace]
        ensures value { result.now ≡ self.now }
    {
        self.places.as_slice()
    }
}

/// A list of times in ticks.
#[derive(Drop)]
pub struct Ticks {
    ticks: Vec<u32>,
}

impl Model for Ticks {
    ghost Value = { List ℕ };

    ghost view = { λ t. t.ticks.items };
}

impl Ticks {
    /// These ticks. It takes no memory.
    pub fn new(ticks: Vec<u32>) -> Ticks
        ensures value { result ≡ ticks.items }
    {
        Ticks { ticks }
    }

    /// The ticks, in order.
    pub fn as_slice(&self) -> &[u32]
        ensures value { result.now ≡ self.now }
    {
        self.ticks.as_slice()
    }
}

/// A line: all counted trips of one route that have the same places.
#[derive(Drop)]
pub struct Line {
    /// The number of the route.
    pub route: u32,
    /// Thousandths of departures in the window.
    pub weight: u32,
    pub places: Places,
    /// The mean ticks from each place to the next.
    pub rides: Ticks,
    /// The mean ticks at each place but the first and the last.
    pub dwells: Ticks,
}
