//! Who is shown each destination.

ghost use Rattle.std.specs.Prelude.{◌≡◌, ◌<◌, ◌≤◌, ◌∷◌, [], All, List, Option, OnErr, OnOk, length, sum};
ghost use Rattle.definitions.specs.declared.limits.TheConstants.{LABEL_LIMIT, UNIT_LIMIT, WAIT_LIMIT};
ghost use Rattle.definitions.specs.Causes.{Rose};
ghost use Rattle.definitions.specs.Gap.{IsLoaded};
ghost use Rattle.definitions.specs.Labels.{IsOrder};
ghost use Rattle.definitions.specs.Reach.{IsReach};
ghost use Rattle.assign.specs.Visits.{AreShown, Visit, visit_of};

use desk_io::{Counted, Failed};
use label_setting::Workspace;
use loading::Loads;
use lp_model::Network;

/// Is shown each destination with demand once, with what was found for it.
pub trait Visitor: Counted {
    /// The visits so far, where they are told.
    ghost visits: { Self → Option (List Visit) };

    /// Takes a destination: its node, the demand at each node in units, its labels, and the volumes
    /// and waits of the demand, all within the limits of a certificate. A failed visit is not told.
    fn visit(
        &mut self,
        net: &Network,
        dest: u32,
        g: &[u64],
        ws: &Workspace,
        loads: &Loads,
    ) -> Result<(), Failed>
        requires there { dest < net.now.nodes }
        requires reach { IsReach net.now dest ws.now.reached }
        requires order { IsOrder ws.now.reached ws.now.labels ws.now.order }
        requires loaded { IsLoaded net.now dest ws.now.reached ws.now.labels g.now loads.now.volumes loads.now.waits }
        requires demand_per_node { length g.now ≡ net.now.nodes }
        requires units_within { sum g.now ≤ UNIT_LIMIT }
        requires labels_within { All (λ label. label ≤ LABEL_LIMIT) ws.now.labels }
        requires volumes_within { All (λ volume. volume ≤ sum g.now) loads.now.volumes }
        requires waits_within { All (λ wait. wait ≤ WAIT_LIMIT) loads.now.waits }
        ensures ok { OnOk result (AreShown (visits self.old) (visits self.new)
            (visit_of dest g.now ws.now.labels loads.now.volumes loads.now.waits ∷ [])) }
        ensures err { OnErr result (visits self.new ≡ visits self.old) }
        ensures visitor_cause { OnErr result (Rose (Self.count self.old) (Self.count self.new)) }
        ensures count { Self.count self.old ≤ Self.count self.new };
}
