//! Ways that lead through one node.

ghost use Rattle.std.specs.Prelude.{◌<◌, IfOk, IsTrue};
ghost use Rattle.definitions.specs.Reach.{Reaches};
ghost use Rattle.assign.specs.Ways.{AreWays};

use crate::marking::Marking;
use lp_model::Network;
use std::alloc::{AllocError, Global};

/// The nodes that reach one node, the hub, nodes that are reached from it, and the nodes that
/// reach a goal.
#[derive(Drop)]
pub(crate) struct Ways {
    pub to_hub: Marking,
    pub from_hub: Marking,
    pub to_goal: Marking,
}

impl Ways {
    /// Room for the nodes of a network, with no hub yet.
    pub fn new(alloc: Global, net: &Network) -> Result<Ways, AllocError>
        ensures ways { IfOk result (AreWays net.now) }
    {
        Ok(Ways {
            to_hub: Marking::new(alloc, net)?,
            from_hub: Marking::new(alloc, net)?,
            to_goal: Marking::new(alloc, net)?,
        })
    }

    /// Takes a hub from which `dest` is reached: of the nodes that reach it, one near the middle of
    /// them by how far they are, into which a boarding leads. Any node serves, and this one is
    /// seldom at an end of a city.
    pub fn find_hub(&mut self, net: &Network, dest: u32)
        requires there { dest < net.now.nodes }
        requires ways { AreWays net.now self.old }
        ensures ways { AreWays net.now self.new }
    {
        self.to_goal.find(net, dest);
        let hub = self.to_goal.middle(net, dest);
        self.take_hub(net, hub);
    }

    /// Whether the hub is known to lie on a way from `origin` to `goal`.
    pub fn joins(&self, net: &Network, origin: u32, goal: u32) -> bool
        requires origin { origin < net.now.nodes }
        requires goal { goal < net.now.nodes }
        requires ways { AreWays net.now self.now }
        ensures joined { IsTrue result → Reaches net.now goal origin }
    {
        self.to_hub.reached[origin as usize] && self.from_hub.reached[goal as usize]
    }

    // Takes a node as the hub.
    fn take_hub(&mut self, net: &Network, hub: u32)
        requires there { hub < net.now.nodes }
        requires ways { AreWays net.now self.old }
        ensures ways { AreWays net.now self.new }
    {
        self.to_hub.find(net, hub);
        self.from_hub.find_from(net, hub);
    }
}

#[cfg(test)]
mod tests {
    use super::Ways;
    use lp_model::{NetArc, Network};
    use std::test::Fail;

    fn walk(tail: u32, head: u32) -> NetArc {
        NetArc {
            tail,
            head,
            cost: 1,
            weight: None,
        }
    }

    #[test]
    fn a_hub_joins_what_reaches_it_and_what_it_reaches(rt: HostRuntime) -> Result<(), Fail> {
        // From 0 over 1 to 2, and from 3 to 4.
        let arcs = vec![in rt.alloc(); walk(0, 1), walk(1, 2), walk(3, 4)]?;
        let net = Network::new(5, arcs, 1)?;
        assert!(rt; net.nodes() == 5);
        let mut ways = Ways::new(rt.alloc(), &net)?;
        assert!(rt; !ways.joins(&net, 0, 2));
        ways.find_hub(&net, 2);
        // The hub is 1, since 2, 1 and 0 reach 2.
        let cases = [
            (0, 2, true),
            (1, 2, true),
            (0, 1, true),
            (0, 4, false),
            (3, 4, false),
            (2, 0, false),
        ];
        for (origin, goal, joined) in cases {
            assert!(rt; origin < 5 && goal < 5);
            assert_eq!(rt;
                ways.joins(&net, origin, goal),
                joined,
                "from {origin} to {goal}"
            );
        }
        Ok(())
    }
}
