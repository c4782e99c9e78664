//! A plain program of the definitions: no order of nodes, no sorting, and no care for time.

use lp_model::NetArc;
use std::alloc::{AllocError, Global};

// The number at a place, 0 where there is none.
fn at(numbers: &[u64], place: u32) -> u64 {
    numbers.get(place as usize).copied().unwrap_or(0)
}

/// Whether a node reaches.
pub fn is_reached(reached: &[bool], node: u32) -> bool {
    reached.get(node as usize).copied().unwrap_or(false)
}

fn time_through(labels: &[u64], arc: &NetArc) -> u64 {
    at(labels, arc.head).saturating_add(arc.cost as u64)
}

fn is_tight(labels: &[u64], reached: &[bool], arc: &NetArc) -> bool {
    arc.weight.is_none()
        && is_reached(reached, arc.head)
        && time_through(labels, arc) == at(labels, arc.tail)
}

// The weight of an attractive arc of a node, 0 of any other arc.
fn weight_at(labels: &[u64], reached: &[bool], node: u32, arc: &NetArc) -> u64 {
    let attractive = is_reached(reached, arc.head)
        && time_through(labels, arc) <= at(labels, arc.tail);
    if arc.tail == node && attractive {
        arc.weight.unwrap_or(0) as u64
    } else {
        0
    }
}

// The first tight arc of a node.
fn tight_arc(arcs: &[NetArc], labels: &[u64], reached: &[bool], node: u32) -> Option<usize> {
    for number in 0..arcs.len() {
        if arcs[number].tail == node && is_tight(labels, reached, &arcs[number]) {
            return Some(number);
        }
    }
    None
}

// The sum of some numbers.
fn sum_of(numbers: &[u64]) -> u64 {
    let mut sum = 0u64;
    for number in numbers {
        sum = sum.saturating_add(*number);
    }
    sum
}

fn whole(units: u64, weight: u64, all: u64) -> u64 {
    units.saturating_mul(weight).checked_div(all).unwrap_or(0)
}

fn remainder(units: u64, weight: u64, all: u64) -> u64 {
    units.saturating_mul(weight).checked_rem(all).unwrap_or(0)
}

// The share of a place, by counting the places that come before it.
fn share(units: u64, weights: &[u64], place: usize) -> u64 {
    let all = sum_of(weights);
    let own = weights.get(place).copied().unwrap_or(0);
    let rest = remainder(units, own, all);
    let mut left = units;
    let mut before = 0u64;
    for other in 0..weights.len() {
        left = left.saturating_sub(whole(units, weights[other], all));
        let others = remainder(units, weights[other], all);
        if others > rest || others == rest && other < place {
            before = before.saturating_add(1);
        }
    }
    whole(units, own, all).saturating_add(u64::from(before < left))
}

/// Which nodes reach a destination.
pub fn reach_of(
    alloc: Global,
    arcs: &[NetArc],
    nodes: u32,
    dest: u32,
) -> Result<Vec<bool>, AllocError> {
    let mut reached = vec![in alloc; false; nodes as usize]?;
    mark(&mut reached, dest);
    for _ in 0..nodes {
        for arc in arcs {
            if is_reached(&reached, arc.head) {
                mark(&mut reached, arc.tail);
            }
        }
    }
    Ok(reached)
}

fn mark(reached: &mut [bool], node: u32) {
    if let Some(reach) = reached.get_mut(node as usize) {
        *reach = true;
    }
}

/// The least node with demand that does not reach.
pub fn lost(demand: &[u64], reached: &[bool]) -> Option<u32> {
    for node in 0..5 {
        if at(demand, node) > 0 && !is_reached(reached, node) {
            return Some(node);
        }
    }
    None
}

// The units at a node.
fn units_at(arcs: &[NetArc], demand: &[u64], volumes: &[u64], node: u32) -> u64 {
    let mut units = at(demand, node);
    for number in 0..arcs.len() {
        if arcs[number].head == node {
            units = units.saturating_add(volumes.get(number).copied().unwrap_or(0));
        }
    }
    units
}

// The weights of the attractive arcs of a node, one number for each arc.
fn weights_at(
    alloc: Global,
    arcs: &[NetArc],
    labels: &[u64],
    reached: &[bool],
    node: u32,
) -> Result<Vec<u64>, AllocError> {
    let mut weights = Vec::new(alloc);
    for arc in arcs {
        weights.push(weight_at(labels, reached, node, arc))?;
    }
    Ok(weights)
}

// What the arc of a number takes of the units at its tail.
fn part_of(
    alloc: Global,
    arcs: &[NetArc],
    dest: u32,
    labels: &[u64],
    reached: &[bool],
    units: u64,
    number: usize,
) -> Result<u64, AllocError> {
    let Some(arc) = arcs.get(number) else {
        return Ok(0);
    };
    if arc.tail == dest || !is_reached(reached, arc.tail) {
        return Ok(0);
    }
    match tight_arc(arcs, labels, reached, arc.tail) {
        Some(chosen) => Ok(if chosen == number { units } else { 0 }),
        None => {
            let weights = weights_at(alloc, arcs, labels, reached, arc.tail)?;
            Ok(if weight_at(labels, reached, arc.tail, arc) > 0 {
                share(units, &weights, number)
            } else {
                0
            })
        }
    }
}

// The equations of volumes, applied once.
fn next_volumes(
    alloc: Global,
    arcs: &[NetArc],
    dest: u32,
    labels: &[u64],
    reached: &[bool],
    demand: &[u64],
    volumes: &[u64],
) -> Result<Vec<u64>, AllocError> {
    let mut next = Vec::new(alloc);
    for number in 0..arcs.len() {
        let units = units_at(arcs, demand, volumes, arcs[number].tail);
        next.push(part_of(alloc, arcs, dest, labels, reached, units, number)?)?;
    }
    Ok(next)
}

/// The volumes: their equations are applied until nothing changes any more, since no path to a
/// lower label has more arcs than there are nodes.
pub fn volumes_of(
    alloc: Global,
    arcs: &[NetArc],
    nodes: u32,
    dest: u32,
    labels: &[u64],
    reached: &[bool],
    demand: &[u64],
) -> Result<Vec<u64>, AllocError> {
    let mut volumes = Vec::new(alloc);
    for _ in 0..nodes {
        volumes = next_volumes(alloc, arcs, dest, labels, reached, demand, &volumes)?;
    }
    Ok(volumes)
}

/// The waits: for each node the least number that is long enough, found by counting up.
pub fn waits_of(
    alloc: Global,
    arcs: &[NetArc],
    nodes: u32,
    k: u64,
    volumes: &[u64],
) -> Result<Vec<u128>, AllocError> {
    let mut waits = Vec::new(alloc);
    for node in 0..nodes {
        waits.push(wait_at(arcs, k, volumes, node))?;
    }
    Ok(waits)
}

fn wait_at(arcs: &[NetArc], k: u64, volumes: &[u64], node: u32) -> u128 {
    for wait in 0..100_000u32 {
        if is_enough(arcs, k, volumes, node, wait as u128) {
            return wait as u128;
        }
    }
    0
}

fn is_enough(arcs: &[NetArc], k: u64, volumes: &[u64], node: u32, wait: u128) -> bool {
    for number in 0..arcs.len() {
        let volume = volumes.get(number).copied().unwrap_or(0);
        if !is_waited_for(&arcs[number], k, volume, node, wait) {
            return false;
        }
    }
    true
}

// Whether a wait at a node is long enough for the volume of an arc, if that is boarded there.
fn is_waited_for(arc: &NetArc, k: u64, volume: u64, node: u32, wait: u128) -> bool {
    match arc.weight {
        Some(weight) if arc.tail == node => {
            (k as u128).saturating_mul(volume as u128) <= (weight as u128).saturating_mul(wait)
        }
        _ => true,
    }
}
