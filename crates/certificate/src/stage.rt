//! How far a certificate is read.

/// The line that comes next. In `Rows` the kind of the line follows from how many there are.
#[derive(Clone, Copy, Debug, Drop, PartialEq, Eq)]
pub enum Stage {
    Title,
    Nodes,
    Arcs,
    K,
    Destination,
    Rows,
    Done,
}
