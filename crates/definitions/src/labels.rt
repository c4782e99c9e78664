//! Laws of reach and labels, as theorems about the definitions alone.

ghost use Rattle.definitions.specs.LabelLaws.{ReachIsUnique, LabelsAreUnique, LabelsAreDual};

/// A destination has at most one list of marks and at most one list of labels.
///
/// For every network and destination at most one list of marks tells which nodes reach. For
/// every well-formed network, every destination and all marks, the equations of labels have at most
/// one solution: an arc costs a tick or more, so a label rests on lower ones alone.
pub fn labels_are_unique()
    ensures reach_is_unique { ReachIsUnique }
    ensures labels_are_unique { LabelsAreUnique }
{}

/// The labels of a destination are dual feasible.
///
/// For every well-formed network and destination, labels that solve their equations are also a
/// solution of the dual of the program of Spiess and Florian (1989), at nodes that reach and at the
/// others. So they give a bound, by `weak_duality`.
pub fn labels_are_dual()
    ensures labels_are_dual { LabelsAreDual }
{}
