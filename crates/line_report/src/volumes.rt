//! Sums of volumes by what arcs stand for.

ghost use Rattle.std.specs.Prelude.{◌≡◌, ◌≤◌, Bool, length};
ghost use Rattle.line_report.specs.Volumes.{volume_where};
ghost use Rattle.network.specs.Kinds.{is_boarding_kind, is_transfer_kind};

use crate::sums::volume_if;
use network::{ArcKind, CityNet};

/// The units that board, for the first time or later.
#[tactic(auto, using(definitions::proofs::Sums::sum_more))]
pub(crate) fn boardings(city: &CityNet, volumes: &[u64]) -> u128
    requires volumes { length volumes.now ≡ length city.now.net.arcs }
    ensures value { result ≡ volume_where city.now is_boarding_kind volumes.now }
{
    let mut total = 0u128;
    for arc in 0..city.net().arcs() {
        total += volume_if(boards(city.arc_kind(arc)), volumes[arc as usize]);
    }
    total
}

/// The units that board after another line.
#[tactic(auto, using(definitions::proofs::Sums::sum_more))]
pub(crate) fn transfers(city: &CityNet, volumes: &[u64]) -> u128
    requires volumes { length volumes.now ≡ length city.now.net.arcs }
    ensures value { result ≡ volume_where city.now is_transfer_kind volumes.now }
{
    let mut total = 0u128;
    for arc in 0..city.net().arcs() {
        total += volume_if(changes(city.arc_kind(arc)), volumes[arc as usize]);
    }
    total
}

// Whether an arc is a boarding.
fn boards(kind: ArcKind) -> bool
    ensures value { result ≡ is_boarding_kind kind }
{
    matches!(kind, ArcKind::BoardFirst | ArcKind::BoardLater)
}

// Whether an arc is a boarding after another one.
fn changes(kind: ArcKind) -> bool
    ensures value { result ≡ is_transfer_kind kind }
{
    matches!(kind, ArcKind::BoardLater)
}
