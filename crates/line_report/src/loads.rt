//! The law of loads.

ghost use Rattle.std.specs.Prelude.{ℕ, List};
ghost use Rattle.line_report.specs.OnBoard.{AreConserved, LoadsAddUp};
ghost use Rattle.network.specs.Standing.{IsCityOf};

use feed_reader::Feed;
use headways::Lines;
use network::CityNet;

/// The loads along each line of a city follow from its boardings and alightings, whatever the
/// volumes are, where what comes in at a node goes out of it. This costs no time.
pub fn loads_follow(city: &CityNet, feed: &Feed, lines: &Lines)
    requires city { IsCityOf city.now feed.now lines.now.lines }
    ensures loads { (volumes : List ℕ) → AreConserved city.now volumes
        → LoadsAddUp city.now lines.now.lines volumes }
{
    // Each arc joins the nodes that its kind says.
    city.rules();
    city.net().rules();
}
