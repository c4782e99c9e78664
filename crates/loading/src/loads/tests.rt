//! Loads of small networks, worked out by hand and by a plain program of the definitions.

mod plain;

ghost use Rattle.std.specs.Prelude.{◌≡◌, ◌<◌, ◌≤◌, length, slice_index, sum, IfOk};
ghost use Rattle.definitions.specs.declared.limits.TheConstants.{UNIT_LIMIT};
ghost use Rattle.definitions.specs.Reach.{IsReach};
ghost use Rattle.definitions.specs.Labels.{SolvesLabels, IsOrder};

use super::*;
use label_setting::labels;
use lp_model::NetArc;
use plain::{is_reached, lost, reach_of, volumes_of, waits_of};
use std::test::Fail;

fn arc(tail: u32, head: u32, cost: u32, weight: Option<u32>) -> NetArc {
    NetArc {
        tail,
        head,
        cost,
        weight,
    }
}

// Room with the labels of a destination.
fn labelled(alloc: Global, net: &Network, dest: u32) -> Result<Workspace, AllocError>
    requires { dest < net.now.nodes }
    ensures reach { IfOk result (λ ws. IsReach net.now dest ws.reached) }
    ensures labels { IfOk result (λ ws. SolvesLabels net.now dest ws.reached ws.labels) }
    ensures order { IfOk result (λ ws. IsOrder ws.reached ws.labels ws.order) }
{
    let mut ws = Workspace::new(alloc, net)?;
    labels(net, dest, &mut ws);
    Ok(ws)
}

// The loads of some units from node 0 to node 1, where node 2 has no arcs.
fn loaded(alloc: Global, arcs: [NetArc; 3], units: u64) -> Result<Loads, Fail>
    requires { units ≤ UNIT_LIMIT }
{
    let net = Network::new(3, Vec::from_array(alloc, arcs)?, 1_800_000_000)?;
    let ws = labelled(alloc, &net, 1)?;
    let mut loads = Loads::new(alloc, &net)?;
    load(&net, 1, &ws, &[units, 0, 0], &mut loads)?;
    Ok(loads)
}

#[test]
fn small_networks_have_the_loads_of_their_equations(rt: HostRuntime) -> Result<(), Fail> {
    // Three nodes: a stop 0, the destination 1, and a node 2 without arcs. `back` leaves 1.
    let back = arc(1, 0, 1, None);
    let line = |cost, weight| arc(0, 1, cost, Some(weight));
    let cases = [
        // (1800000000 + 6000 * 600000 + 4000 * 899999) / 10000 = 899999.6; shares 0.6 and 0.4;
        // 1800000000 / 6000 to wait.
        (
            [line(600_000, 6000), line(899_999, 4000), back],
            1,
            [1, 0, 0],
            300_000,
        ),
        // Label 900000: both lines, with 180000 to wait; 1800000000 * 6 / 6000.
        (
            [line(600_000, 6000), line(900_000, 4000), back],
            10,
            [6, 4, 0],
            1_800_000,
        ),
        // Three lines alike: the units left go to the first two.
        (
            [
                line(600_000, 6000),
                line(600_000, 6000),
                line(600_000, 6000),
            ],
            2,
            [1, 1, 0],
            300_000,
        ),
        // A walk in just the label is taken, and nobody waits.
        (
            [line(600_000, 6000), arc(0, 1, 900_000, None), back],
            5,
            [0, 5, 0],
            0,
        ),
        // Of walks alike the first.
        (
            [arc(0, 1, 5, None), arc(0, 1, 5, None), back],
            3,
            [3, 0, 0],
            0,
        ),
        // 1800000000 / 7000 is 257142.9.
        ([line(60_000, 7000), back, back], 1, [1, 0, 0], 257_143),
        // The most units: 1800000000 * 6 * 10^14 / 6000.
        (
            [line(600_000, 6000), line(900_000, 4000), back],
            1_000_000_000_000_000,
            [600_000_000_000_000, 400_000_000_000_000, 0],
            180_000_000_000_000_000_000,
        ),
    ];
    for (arcs, units, volumes, wait) in cases {
        assert!(rt; units <= 1_000_000_000_000_000);
        let loads = loaded(rt.alloc(), arcs, units)?;
        assert_eq!(rt;
            loads.volumes(),
            volumes.as_slice(),
            "volumes over {arcs:?}"
        );
        assert_eq!(rt;
            loads.waits(),
            [wait, 0, 0].as_slice(),
            "waits over {arcs:?}"
        );
    }
    Ok(())
}

#[test]
fn the_least_node_that_does_not_reach_is_named(rt: HostRuntime) -> Result<(), Fail> {
    let arcs = vec![in rt.alloc(); arc(0, 1, 60_000, Some(7000))]?;
    let net = Network::new(4, arcs, 1_800_000_000)?;
    let ws = labelled(rt.alloc(), &net, 1)?;
    let mut loads = Loads::new(rt.alloc(), &net)?;
    let loaded = load(&net, 1, &ws, &[1, 0, 0, 0], &mut loads);
    assert_eq!(rt; loaded, Ok(()));
    let loaded = load(&net, 1, &ws, &[1, 0, 0, 1], &mut loads);
    assert_eq!(rt; loaded, Err(Unreachable { node: 3 }));
    let loaded = load(&net, 1, &ws, &[1, 0, 1, 1], &mut loads);
    assert_eq!(rt; loaded, Err(Unreachable { node: 2 }));
    // Nothing is left of what was loaded before.
    assert_eq!(rt; loads.volumes(), [0].as_slice());
    assert_eq!(rt; loads.waits(), [0, 0, 0, 0].as_slice());
    Ok(())
}

// Numbers that look random, the same in each run.
#[derive(Drop)]
struct Dice {
    state: u64,
}

impl Dice {
    // A number below `sides`.
    fn roll(&mut self, sides: u32) -> u32
        requires { 0 < sides }
        ensures { result < sides }
    {
        let state = self.state.wrapping_mul(6_364_136_223_846_793_005);
        self.state = state.wrapping_add(1_442_695_040_888_963_407);
        (self.state >> 33) as u32 % sides
    }

    // Up to four arcs out of each of five nodes, of costs and weights so small that many tie.
    fn arcs(&mut self, alloc: Global) -> Result<Vec<NetArc>, AllocError> {
        let mut arcs = Vec::new(alloc);
        for tail in 0..5 {
            for _ in 0..self.roll(5) {
                let weight = self.roll(4);
                arcs.push(NetArc {
                    tail,
                    head: self.roll(5),
                    cost: 1 + self.roll(4),
                    weight: if weight == 0 { None } else { Some(weight) },
                })?;
            }
        }
        Ok(arcs)
    }

    // The demand of a node: none where it has to be without.
    fn demand(&mut self, without: bool) -> u64
        ensures { result < 9 }
    {
        let units = self.roll(9) as u64;
        if without { 0 } else { units }
    }
}

// Whether the loads of a network with node 4 as the destination are those of the plain program.
fn agrees(alloc: Global, arcs: Vec<NetArc>, k: u64, demand: &[u64]) -> Result<bool, Fail>
    requires demand_per_node { length demand.now ≡ 5 }
    requires none_at_destination { slice_index demand.now 4 ≡ 0 }
    requires units { sum demand.now ≤ UNIT_LIMIT }
{
    let net = Network::new(5, arcs.clone()?, k)?;
    let ws = labelled(alloc, &net, 4)?;
    let mut loads = Loads::new(alloc, &net)?;
    let loaded = load(&net, 4, &ws, demand, &mut loads);
    is_plain(alloc, &arcs, k, ws.labels(), demand, loaded.err(), &loads)
}

// Whether an answer and loads are those of the plain program: after a refusal all are 0.
fn is_plain(
    alloc: Global,
    arcs: &[NetArc],
    k: u64,
    labels: &[u64],
    demand: &[u64],
    fault: Option<Unreachable>,
    loads: &Loads,
) -> Result<bool, Fail> {
    let reached = reach_of(alloc, arcs, 5, 4)?;
    if let Some(node) = lost(demand, &reached) {
        let volumes = vec![in alloc; 0u64; arcs.len()]?;
        return Ok(
            fault == Some(Unreachable { node })
                && loads.volumes() == volumes.as_slice()
                && loads.waits() == [0u128; 5].as_slice(),
        );
    }
    let volumes = volumes_of(alloc, arcs, 5, 4, labels, &reached, demand)?;
    let waits = waits_of(alloc, arcs, 5, k, &volumes)?;
    Ok(
        fault.is_none()
            && loads.volumes() == volumes.as_slice()
            && loads.waits() == waits.as_slice(),
    )
}

#[test]
fn random_networks_have_the_loads_of_a_plain_program(rt: HostRuntime) -> Result<(), Fail> {
    let mut dice = Dice { state: 7 };
    for round in 0..400u32 {
        let arcs = dice.arcs(rt.alloc())?;
        let k = dice.roll(12) as u64;
        // In half of the rounds there is demand at nodes alone that reach.
        let reached = reach_of(rt.alloc(), &arcs, 5, 4)?;
        let without = |node| round % 2 == 0 && !is_reached(&reached, node);
        let one = dice.demand(without(0));
        let two = dice.demand(without(1));
        let three = dice.demand(without(2));
        let four = dice.demand(without(3));
        let demand = [one, two, three, four, 0];
        assert!(rt; agrees(rt.alloc(), arcs, k, &demand)?, "round {round}");
    }
    Ok(())
}
