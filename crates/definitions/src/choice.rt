//! What passengers do at a node.

/// What passengers choose at a node on their way to a destination.
#[derive(Clone, Copy, Debug, Drop, PartialEq, Eq)]
pub enum Choice {
    /// They are there, or no way leads there.
    Stop,
    /// They take the free arc of this number, without waiting.
    Walk { arc: u32 },
    /// They wait, and board the first to leave of `count` arcs of this combined `weight`
    /// (1/1000 departure in the window).
    Wait { count: u32, weight: u64 },
}
