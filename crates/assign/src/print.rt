//! What a job prints.

/// What a job prints of its assignment. docs/FORMATS.md has the texts.
#[derive(Clone, Copy, Debug, Drop, PartialEq, Eq)]
pub enum Print {
    /// The totals, one line for each number.
    Summary,
    /// The table of lines.
    Lines,
    /// The table of stops.
    Stops,
    /// The table of segments.
    Segments,
    /// The table of skims to all zones, or to the one that the job asks for.
    Skims,
    /// The certificate of the one zone that the job asks for.
    Certificate,
    /// The summary and the tables of lines, stops and segments, one after the other.
    All,
}
