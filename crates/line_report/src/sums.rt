//! Sums over the arcs of a node, by what the arcs stand for.

ghost use Rattle.std.specs.Prelude.{◌≡◌, ◌+◌, ◌*◌, ◌<◌, ◌≤◌, Some, if◌then◌else◌, length, slice_get, slice_index};
ghost use Rattle.definitions.specs.Network.{cost_of, out_arcs};
ghost use Rattle.line_report.specs.Sorts.{is_kind, kind_number};
ghost use Rattle.line_report.specs.Volumes.{arcs_entering, arcs_leaving, ticks_on, units_on};
ghost use Rattle.network.specs.Cities.{arc_kind_of};
ghost use Rattle.network.specs.declared.kinds.NodeKind.{NodeKind};

use network::{ArcKind, CityNet};

/// The units on the arcs of a kind that leave a node.
pub(crate) fn units_leaving(city: &CityNet, volumes: &[u64], kind: ArcKind, node: u32) -> u128
    requires volumes { length volumes.now ≡ length city.now.net.arcs }
    requires node { node < city.now.net.nodes }
    ensures value { (thing : NodeKind) → slice_get city.now.nodes node ≡ Some thing
        → result ≡ units_on volumes.now (arcs_leaving city.now kind thing) }
    ensures within { result ≤ 4194304 * 18446744073709551615 }
{
    // No other node stands for the same thing.
    city.rules();
    let net = city.net();
    net.rules();
    let first = net.first(node);
    let count = net.out(node).len() as u32;
    let mut units = 0u128;
    for step in 0..count {
        units += units_if(city, volumes, kind, first + step);
    }
    units
}

/// The units on the arcs of a kind that lead to a node.
pub(crate) fn units_entering(city: &CityNet, volumes: &[u64], kind: ArcKind, node: u32) -> u128
    requires volumes { length volumes.now ≡ length city.now.net.arcs }
    requires node { node < city.now.net.nodes }
    ensures value { (thing : NodeKind) → slice_get city.now.nodes node ≡ Some thing
        → result ≡ units_on volumes.now (arcs_entering city.now kind thing) }
    ensures within { result ≤ 4194304 * 18446744073709551615 }
{
    // No other node stands for the same thing.
    city.rules();
    let net = city.net();
    net.rules();
    let mut units = 0u128;
    for entering in net.entering(node) {
        units += units_if(city, volumes, kind, entering.arc);
    }
    units
}

/// The ticks that all units spend on the arcs of a kind that leave a node.
pub(crate) fn ticks_leaving(city: &CityNet, volumes: &[u64], kind: ArcKind, node: u32) -> u128
    requires volumes { length volumes.now ≡ length city.now.net.arcs }
    requires node { node < city.now.net.nodes }
    ensures value { (thing : NodeKind) → slice_get city.now.nodes node ≡ Some thing
        → result ≡ ticks_on city.now volumes.now (arcs_leaving city.now kind thing) }
    ensures within { result
        ≤ length (out_arcs city.now.net node) * 18446744073709551615000000000 }
{
    // No other node stands for the same thing.
    city.rules();
    let net = city.net();
    net.rules();
    let first = net.first(node);
    let count = net.out(node).len() as u32;
    let mut ticks = 0u128;
    for step in 0..count {
        ticks += ticks_if(city, volumes, kind, first + step);
    }
    ticks
}

// The ticks that all units spend on an arc, where it is of a kind.
fn ticks_if(city: &CityNet, volumes: &[u64], kind: ArcKind, arc: u32) -> u128
    requires volumes { length volumes.now ≡ length city.now.net.arcs }
    requires arc { arc < length city.now.net.arcs }
    ensures value { result ≡ if is_kind kind (arc_kind_of city.now arc)
        then cost_of city.now.net arc * slice_index volumes.now arc else 0 }
    ensures within { result ≤ 18446744073709551615000000000 }
{
    u128::from(city.net().arc(arc).cost) * units_if(city, volumes, kind, arc)
}

// The units on an arc, where it is of a kind.
fn units_if(city: &CityNet, volumes: &[u64], kind: ArcKind, arc: u32) -> u128
    requires volumes { length volumes.now ≡ length city.now.net.arcs }
    requires arc { arc < length city.now.net.arcs }
    ensures value { result ≡ if is_kind kind (arc_kind_of city.now arc)
        then slice_index volumes.now arc else 0 }
    ensures within { result ≤ 18446744073709551615 }
{
    volume_if(is_kind(kind, city.arc_kind(arc)), volumes[arc as usize])
}

// Whether an arc is of a kind.
fn is_kind(kind: ArcKind, found: ArcKind) -> bool
    ensures value { result ≡ is_kind kind found }
{
    kind_number(found) == kind_number(kind)
}

// A number for each kind of arcs.
fn kind_number(kind: ArcKind) -> u32
    ensures value { result ≡ kind_number kind }
{
    match kind {
        ArcKind::Access => 0,
        ArcKind::Egress => 1,
        ArcKind::Walk => 2,
        ArcKind::BoardFirst => 3,
        ArcKind::BoardLater => 4,
        ArcKind::Ride => 5,
        ArcKind::Dwell => 6,
        ArcKind::Alight => 7,
    }
}

// A volume, where it counts.
pub(crate) fn volume_if(counts: bool, volume: u64) -> u128
    ensures value { result ≡ if counts then volume else 0 }
    ensures within { result ≤ 18446744073709551615 }
{
    if counts { u128::from(volume) } else { 0 }
}
