//! Which nodes reach a destination, marked on the way back from it, and which are reached from a
//! node, marked on the way on from it.

ghost use Rattle.std.specs.Prelude.{◌≡◌, ◌<◌, ℕ, IfOk, IfSome, IsTrue, length};
ghost use Rattle.definitions.specs.Reach.{IsReach, Reaches};
ghost use Rattle.assign.specs.Marks.{AreFound, HasPlaces, IsHeadFrom, IsTailTo, Marks, is_marked};

use lp_model::Network;
use std::alloc::{AllocError, Global};

/// For each node whether it is marked, and the marked nodes as they were found.
#[derive(Drop)]
pub(crate) struct Marking {
    pub reached: Vec<bool>,
    pub found: Vec<u32>,
    pub count: usize,
}

impl Marking {
    /// Room for the nodes of a network.
    pub fn new(alloc: Global, net: &Network) -> Result<Marking, AllocError>
        ensures places { IfOk result (HasPlaces net.now) }
        ensures none { IfOk result (λ marking. (node : ℕ) → ¬ IsTrue (is_marked marking node)) }
    {
        let nodes = net.nodes() as usize;
        Ok(Marking {
            reached: vec![in alloc; false; nodes]?,
            found: vec![in alloc; 0u32; nodes]?,
            count: 0,
        })
    }

    /// Marks the nodes that reach `dest`, and no others, in linear time.
    pub fn find(&mut self, net: &Network, dest: u32)
        requires there { dest < net.now.nodes }
        requires places { HasPlaces net.now self.old }
        ensures places { HasPlaces net.now self.new }
        ensures reach { IsReach net.now dest self.new.reached.items }
        ensures found { AreFound self.new }
    {
        // The number of nodes is within its limit.
        let _nodes = net.nodes();
        self.clear();
        self.mark(dest);
        let mut done = 0;
        while done < self.count {
            let node = self.found[done];
            self.mark_tails(net, node);
            done += 1;
        }
    }

    /// Marks nodes that are reached from `node`, and no others, in linear time.
    pub fn find_from(&mut self, net: &Network, node: u32)
        requires there { node < net.now.nodes }
        requires places { HasPlaces net.now self.old }
        ensures places { HasPlaces net.now self.new }
        ensures reached { (other : ℕ) → IsTrue (is_marked self.new other) → Reaches net.now other node }
    {
        // The number of nodes is within its limit.
        let _nodes = net.nodes();
        self.clear();
        self.mark(node);
        let mut done = 0;
        while done < self.count {
            let next = self.found[done];
            self.mark_heads(net, next);
            done += 1;
        }
    }

    /// Of the nodes that were found to reach `dest`, the first one from their middle on into which
    /// a boarding leads, so that ways come there from all over; the one in the middle where there is
    /// none.
    pub fn middle(&self, net: &Network, dest: u32) -> u32
        requires dest { dest < net.now.nodes }
        requires places { HasPlaces net.now self.now }
        requires reach { IsReach net.now dest self.now.reached.items }
        requires found { AreFound self.now }
        ensures there { result < net.now.nodes }
    {
        let middle = self.count / 2;
        match self.boarded_from(net, middle) {
            Some(node) => node,
            None => self.found_node(net, middle),
        }
    }

    // The first node found from a place on into which a boarding leads.
    fn boarded_from(&self, net: &Network, place: usize) -> Option<u32>
        requires places { HasPlaces net.now self.now }
        requires found { AreFound self.now }
        ensures there { IfSome result (λ node. node < net.now.nodes) }
    {
        for at in place..self.count {
            let node = self.found_node(net, at);
            if let Some(arc) = net.entering(node).first() {
                if arc.is_boarding() {
                    return Some(node);
                }
            }
        }
        None
    }

    // A node that was found, by its place.
    fn found_node(&self, net: &Network, place: usize) -> u32
        requires places { HasPlaces net.now self.now }
        requires found { AreFound self.now }
        requires place { place < self.now.count }
        ensures there { result < net.now.nodes }
    {
        // Each node has one place at most.
        let _nodes = net.nodes();
        self.found[place]
    }

    // Marks no node.
    fn clear(&mut self)
        requires places { length self.old.found.items ≡ length self.old.reached.items }
        ensures found { AreFound self.new }
        ensures none { self.new.count ≡ 0 }
        ensures size { length self.new.reached.items ≡ length self.old.reached.items }
    {
        self.reached.fill(false);
        self.count = 0;
    }

    // Marks the nodes from which arcs lead to a node.
    fn mark_tails(&mut self, net: &Network, node: u32)
        requires there { node < net.now.nodes }
        requires found { AreFound self.old }
        requires places { HasPlaces net.now self.old }
        ensures marked { Marks (IsTailTo net.now node) self.old self.new }
    {
        let arcs = net.entering(node);
        for place in 0..arcs.len() {
            self.mark(arcs[place].tail);
        }
    }

    // Marks the nodes to which arcs lead from a node.
    fn mark_heads(&mut self, net: &Network, node: u32)
        requires there { node < net.now.nodes }
        requires found { AreFound self.old }
        requires places { HasPlaces net.now self.old }
        ensures marked { Marks (IsHeadFrom net.now node) self.old self.new }
    {
        net.rules();
        let arcs = net.out(node);
        for place in 0..arcs.len() {
            self.mark(arcs[place].head);
        }
    }

    // Marks a node.
    fn mark(&mut self, node: u32)
        requires there { node < length self.old.reached.items }
        requires found { AreFound self.old }
        ensures marked { Marks (λ other. other ≡ node) self.old self.new }
    {
        if self.reached[node as usize] {
            return;
        }
        self.reached[node as usize] = true;
        self.found[self.count] = node;
        self.count += 1;
    }
}
