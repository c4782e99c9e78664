//! Laws of parts of labels, as theorems about their definitions alone.

ghost use Rattle.skims.specs.Totals.{PartsAreOne, PartsAreNearLabels};

/// A part of the labels of a destination has one value at each node.
///
/// For every well-formed network, every destination, all marks and labels, and whatever belongs to
/// the part, its equations have at most one solution: a chosen arc costs a tick or more, so a part
/// rests on those of nodes with lower labels.
pub fn one_parts()
    ensures parts_are_one { PartsAreOne }
{}

/// The parts of a label come near it.
///
/// In every well-formed network, for the labels of a destination and four parts to which all costs
/// and waits belong: at each node that reaches they add up to at most its label, and miss it by at
/// most three ticks for each node of a path of chosen arcs at which passengers wait, so by at most
/// three times the greatest number of such nodes. Where they wait, each of four parts is rounded
/// down, and so is the label.
pub fn parts_are_near_labels()
    ensures near { PartsAreNearLabels }
{}
