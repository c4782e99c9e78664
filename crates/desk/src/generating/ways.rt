//! The ways of the lines over the stops.

ghost use Rattle.std.specs.Prelude.{◌≡◌, ◌<◌, ◌≤◌};
ghost use Rattle.desk.specs.Draws.{state_after};
ghost use Rattle.desk.specs.GeneratedLines.{IsWayIn, calls, draws_before_gap, draws_before_line, stop_at, way_of};

use super::draws::draw;
use crate::gen_words::GenWords;

/// Where a line calls.
#[derive(Clone, Copy, Drop)]
pub(super) enum Way {
    /// At all stops in order.
    Forwards,
    /// At all stops in the opposite order.
    Backwards,
    /// At twelve stops, from one on, each so many stops behind the one before, and round again.
    Round { first: u32, step: u32 },
}

/// The way of a line, where the state is that before it.
pub(super) fn way_of(state: &mut u64, words: &GenWords, line: u32) -> Way
    requires stops { 0 < words.now.stops }
    requires at { state.old ≡ state_after words.now.seed (draws_before_line line) }
    ensures way { result ≡ way_of words.now line }
    ensures within { IsWayIn words.now.stops result }
    ensures state { state.new ≡ state_after words.now.seed (draws_before_gap line) }
{
    match line {
        0 => Way::Forwards,
        1 => Way::Backwards,
        _ => {
            let first = draw(state, words.stops);
            let step = 1 + draw(state, 7);
            Way::Round { first, step }
        }
    }
}

impl Way {
    /// How many calls there are, in a city of so many stops.
    pub(super) fn calls(&self, stops: u32) -> u32
        ensures value { result ≡ calls stops self.now }
    {
        match self {
            Way::Forwards | Way::Backwards => stops,
            Way::Round { .. } => 12,
        }
    }
}

/// The stop of a call, counted from 0.
pub(super) fn stop_at(stops: u32, way: &Way, call: u32) -> u32
    requires stops { stops ≤ 5000 }
    requires within { IsWayIn stops way.now }
    requires call { call < calls stops way.now }
    ensures value { result ≡ stop_at stops way.now call }
{
    match way {
        Way::Forwards => call,
        Way::Backwards => stops - 1 - call,
        Way::Round { first, step } => (first + call * step) % stops,
    }
}
