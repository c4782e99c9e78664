//! Laws of volumes and waits, as theorems about their definitions alone.

ghost use Rattle.definitions.specs.VolumeLaws.{VolumesAreAPlan, VolumesLeadLower, UnitsAreWithinDemand, VolumesAreWithinDemand, VolumesAreOne, LeastWaitsAreOne};

/// The volumes of a demand and their least waits are a plan, and there is at most one list of each.
///
/// In every well-formed network: volumes and least waits that follow from the labels of a
/// destination and a demand that can be carried there are a plan at scale 1 for the linear program
/// of Spiess and Florian (1989). Each arc with volume leads to a strictly lower label, and no node
/// and no arc has more units than there is demand. The equations of volumes have one solution at
/// most, and volumes have at most one list of least waits.
pub fn volume_laws()
    ensures volumes_are_a_plan { VolumesAreAPlan }
    ensures volumes_lead_lower { VolumesLeadLower }
    ensures units_are_within_demand { UnitsAreWithinDemand }
    ensures volumes_are_within_demand { VolumesAreWithinDemand }
    ensures volumes_are_one { VolumesAreOne }
    ensures least_waits_are_one { LeastWaitsAreOne }
{}
