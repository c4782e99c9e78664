//! The lines of a feed in a period.

ghost use Rattle.std.specs.Prelude.{◌≡◌, [], All, IfErr, IfOk, OnOk};
ghost use Rattle.headways.specs.Faults.{IsFirstFault, faults_of};
ghost use Rattle.headways.specs.Laws.{IsLineOf};
ghost use Rattle.headways.specs.Lines.{count_of, lines_of};

use crate::fault::LineFault;
use crate::grouping::read_lines;
use crate::line_list::Lines;
use crate::numbering::number_trips;
use crate::weights::trip_weights;
use feed_reader::Feed;
use service_period::Period;
use std::alloc::Global;

/// The lines of a feed in a period, in the order of their first counted trips.
///
/// A trip that runs on the date weighs the sum of its bands, or without bands 1000 where it first
/// departs in the window. Trips of positive weight are counted. A line is all counted trips of one
/// route whose calls have the same stops and flags. Its weight is the sum of theirs, and its
/// rides and dwells are their means by weight, in ticks, rounded down and at least 1.
///
/// # Refusals
///
/// `Range` of the first line that passes a limit: of its weight, then of each ride, then of each
/// dwell. `NoMemory` may come in its place.
pub fn lines(alloc: Global, feed: &Feed, period: &Period) -> Result<Lines, LineFault>
    ensures lines { IfOk result (λ found. found.lines ≡ lines_of feed.now period.now) }
    ensures counted { IfOk result (λ found. found.trips ≡ count_of feed.now period.now) }
    ensures laws { IfOk result (λ found. All (IsLineOf feed.now) found.lines) }

    // Each fault is answered, and no other comes before it.
    ensures faultless { OnOk result (faults_of feed.now period.now ≡ []) }
    ensures refused { IfErr result (IsFirstFault (faults_of feed.now period.now)) }
{
    let weights = trip_weights(alloc, feed, period)?;
    let numbered = number_trips(alloc, feed, weights.as_slice())?;
    let trips = numbered.counted.as_slice().len() as u64;
    let list = read_lines(alloc, feed, weights.as_slice(), numbered)?;
    feed.rules();
    Ok(Lines::new(list, trips))
}

#[cfg(test)]
mod tests;
