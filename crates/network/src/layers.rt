//! The nodes and the boardings of the two layers.

ghost use Rattle.std.specs.Prelude.{◌≡◌, ◌<◌};
ghost use Rattle.network.specs.Arcs.{boarding_in, node_in};

use crate::kinds::{ArcKind, NodeKind};
use scenarios::Layer;

/// The node of a stop in a layer.
pub(crate) fn node_in(layer: Layer, stop: u32) -> NodeKind
    ensures value { result ≡ node_in layer stop }
{
    match layer {
        Layer::First => NodeKind::First { stop },
        Layer::Later => NodeKind::Later { stop },
    }
}

/// What a boarding in a layer stands for.
pub(crate) fn boarding_in(layer: Layer) -> ArcKind
    ensures value { result ≡ boarding_in layer }
{
    match layer {
        Layer::First => ArcKind::BoardFirst,
        Layer::Later => ArcKind::BoardLater,
    }
}
