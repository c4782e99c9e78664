//! A row of stop_times.txt.

/// A row of stop_times.txt as a call of its trip. An arrival or a departure is None where the field
/// is empty, and a stop where it is empty or names none.
#[derive(Clone, Copy, Debug, Drop)]
pub(crate) struct RowCall {
    // Fields lie in this order, so that a row takes 40 bytes.
    pub sequence: u64,
    /// The number of the row, counted from 0 behind the header.
    pub row: u32,
    pub stop: Option<u32>,
    pub arrival: Option<u32>,
    pub departure: Option<u32>,
    pub pickup: bool,
    pub drop: bool,
}
