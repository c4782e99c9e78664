//! How many arcs a city has.

ghost use Rattle.std.specs.Prelude.{◌≡◌, ◌<◌, ◌≤◌, ◌*◌, length};
ghost use Rattle.network.specs.ArcParts.{line_arcs, line_part, segment_arcs};
ghost use Rattle.network.specs.Arcs.{alight_arcs, arcs_of, dwell_arcs};
ghost use Rattle.network.specs.Boardings.{boardings_in};
ghost use Rattle.network.specs.Sources.{kept_count};
ghost use Rattle.network.specs.Towns.{HasReach, HasSegment};

use crate::town::Town;

// How many dwells a kept line has at a place.
fn dwell_count(town: &Town, line: u32, place: u32) -> u64
    requires reach { HasReach town.now line place }
    ensures value { result ≡ length (dwell_arcs town.now line place) }
    ensures within { result ≤ 1 }
{
    if place == town.segments(line) { 0 } else { 1 }
}

// How many alightings a kept line has at a place.
fn alight_count(town: &Town, line: u32, place: u32) -> u64
    requires reach { HasReach town.now line place }
    ensures value { result ≡ length (alight_arcs town.now line place) }
    ensures within { result ≤ 1 }
{
    let here = town.place(line, place);
    if !here.drop || town.closed(here.stop) {
        0
    } else {
        1
    }
}

// How many arcs the segment of a kept line from a place to the next has.
fn segment_count(town: &Town, line: u32, place: u32) -> u64
    requires segment { HasSegment town.now line place }
    ensures value { result ≡ length (segment_arcs town.now line place) }
    ensures within { result ≤ 3 }
{
    let next = town.next(line, place);
    1 + dwell_count(town, line, next) + alight_count(town, line, next)
}

// How many arcs a kept line has.
fn line_count(town: &Town, line: u32) -> u64
    requires line { line < kept_count town.now }
    ensures value { result ≡ length (line_arcs town.now line) }
    ensures within { result ≤ 2097152 }
{
    let mut count = 0;
    for place in 0..town.segments(line) {
        count += segment_count(town, line, place);
    }
    count
}

// How many arcs all kept lines have.
fn lines_count(town: &Town) -> u64
    ensures value { result ≡ length (line_part town.now) }
{
    let mut count = 0;
    for line in 0..town.kept() {
        count += line_count(town, line);
    }
    count
}

/// How many arcs a town has, where its kept lines have so many boardings.
pub(crate) fn arc_count(town: &Town, boardings: usize) -> u128
    requires boardings { boardings ≡ length (boardings_in town.now) }
    ensures value { result ≡ length (arcs_of town.now) }
    ensures links { length town.now.zones.links ≤ result }
    ensures boardings { boardings ≤ result }
{
    town.rules();
    let links = town.links().len() as u128;
    let walks = town.walk_count() as u128;
    3 * links + 2 * walks + 2 * boardings as u128 + u128::from(lines_count(town))
}
