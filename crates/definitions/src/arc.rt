//! A directed arc of a network.

/// An arc from node `tail` to node `head`, which costs `cost` ticks (1/1000 second).
///
/// With a `weight` (1/1000 departure in the window) it is a boarding arc, for which passengers wait
/// at its tail. Without one it is free: they take it without waiting.
#[derive(Clone, Copy, Debug, Drop, PartialEq, Eq)]
pub struct NetArc {
    pub tail: u32,
    pub head: u32,
    pub cost: u32,
    pub weight: Option<u32>,
}
