//! First and later boardings.

/// Where a passenger boards.
#[derive(Clone, Copy, Debug, Drop, PartialEq, Eq)]
pub enum Layer {
    /// The first boarding of a way.
    First,
    /// A boarding after an earlier one, which is a transfer.
    Later,
}
