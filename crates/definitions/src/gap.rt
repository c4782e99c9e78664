//! Laws of the gap between cost and bound, as theorems about the definitions alone.

ghost use Rattle.definitions.specs.Gap.{NodeIsWithinItsPart, GapIsWithinNodes, GapIsWithinSlack, NoUnitsCostNothing};

/// The cost of a destination's volumes and waits is near the bound of its labels.
///
/// In every well-formed network, for volumes and least waits that follow from the labels of a
/// destination and a demand that can be carried there, and for a wait that is no shorter than that
/// for any one boarding arc alone, as the longest wait of the network is: the cost exceeds the
/// bound by at most the sum, over the nodes with units at which the choice is to wait, of these
/// units and twice that wait. It exceeds it by at most the slack of one destination. Without units
/// both are 0.
///
/// At each node, what the arcs that leave it lead to, times their volumes, and the wait exceed the
/// label times the units by at most the node's part of that sum. In the fractions of Spiess and
/// Florian (1989) they are the same; a part is what the rounding of labels, splits and waits to
/// whole numbers may cost.
pub fn gaps_are_small()
    ensures node_is_within_its_part { NodeIsWithinItsPart }
    ensures gap_within_nodes { GapIsWithinNodes }
    ensures gap_within_slack { GapIsWithinSlack }
    ensures no_units_cost_nothing { NoUnitsCostNothing }
{}
