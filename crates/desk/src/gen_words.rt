//! The words of `gen`.

/// The numbers of a generated city.
#[derive(Clone, Copy, Debug, Drop, PartialEq, Eq)]
pub struct GenWords {
    /// The state before the first draw.
    pub seed: u64,
    /// How many stops there are.
    pub stops: u32,
    /// How many lines there are.
    pub lines: u32,
    /// How many zones there are.
    pub zones: u32,
}
