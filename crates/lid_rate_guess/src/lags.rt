//! Lags by Dijkstra's search, with the values of a policy as potentials.

ghost use Rattle.std.specs.Int.{IsGcd};

use crate::fans::{Direction, fans_of};
use crate::groups::Groups;
use crate::guess::Plan;
use crate::heap::{Heap, heap_of, lower, pop};
use crate::policy::Cycle;
use crate::tables::{edge_at, get, put};
use crate::values::cost;
use lid_graph::{Edge, Graph};
use std::alloc::{AllocError, Global};

/// For each transition the edge that lowered its key last, and how many were settled before it.
#[derive(Drop)]
pub(crate) struct Settling {
    pub(crate) tight: Vec<Option<u32>>,
    pub(crate) ranks: Vec<u32>,
}

/// Lowers the key where an edge ends to what the way along it asks.
fn relax(
    heap: &mut Heap,
    tight: &mut [Option<u32>],
    values: &[u64],
    k: u32,
    edge: Edge,
    cycle: Cycle,
) {
    let from = get(&heap.keys, edge.from, 0).wrapping_sub(get(values, edge.from, 0));
    let key = from
        .wrapping_add(cost(edge, cycle))
        .wrapping_add(get(values, edge.to, 0));
    if key < get(&heap.keys, edge.to, 0) {
        put(tight, edge.to, Some(k));
        lower(heap, edge.to, key);
    }
}

/// Relaxes the edges out of a transition.
fn relax_from(
    heap: &mut Heap,
    tight: &mut [Option<u32>],
    fans: &Groups,
    edges: &[Edge],
    plan: &Plan,
    v: u32,
) {
    for k in fans.at(v) {
        let edge = edge_at(edges, *k);
        relax(heap, tight, &plan.policy.values, *k, edge, plan.cycle);
    }
}

/// Settles all transitions, least key first.
fn settle_all(
    heap: &mut Heap,
    settling: &mut Settling,
    fans: &Groups,
    edges: &[Edge],
    plan: &Plan,
) {
    let mut rank: u32 = 0;
    for _ in 0..plan.policy.choices.len() {
        let v = pop(heap);
        put(&mut settling.ranks, v, rank);
        relax_from(heap, &mut settling.tight, fans, edges, plan, v);
        rank = rank.wrapping_add(1);
    }
}

/// Nothing settled.
fn new_settling(alloc: Global, count: u32) -> Result<Settling, AllocError> {
    let tight = Vec::from_elem(alloc, None, count as usize)?;
    let ranks = Vec::from_elem(alloc, 0, count as usize)?;
    Ok(Settling { tight, ranks })
}

/// Settles all transitions of a heap of their own.
pub(crate) fn settle(
    alloc: Global,
    graph: &Graph,
    heap: &mut Heap,
    plan: &Plan,
) -> Result<Settling, AllocError> {
    let fans = fans_of(alloc, graph, Direction::Out)?;
    let mut settling = new_settling(alloc, graph.nodes)?;
    settle_all(heap, &mut settling, &fans, graph.edges.as_slice(), plan);
    Ok(settling)
}

/// The heap of all transitions by their values.
pub(crate) fn heap_by_values(
    alloc: Global,
    graph: &Graph,
    plan: &Plan,
) -> Result<Heap, AllocError> {
    heap_of(alloc, graph.nodes, &plan.policy.values)
}

/// The greatest common divisor.
pub fn gcd(a: u64, b: u64) -> u64
    ensures { IsGcd a b result }
{
    let mut x = a;
    let mut y = b;
    while y != 0 {
        let rest = x % y;
        x = y;
        y = rest;
    }
    x
}

/// How far the keys were lowered, in units of the ratio in lowest terms.
pub(crate) fn lags_of(alloc: Global, heap: &Heap, plan: &Plan) -> Result<Vec<u64>, AllocError> {
    let unit = gcd(plan.cycle.tokens, plan.cycle.edges).max(1);
    let mut lags = Vec::new(alloc);
    let mut v: u32 = 0;
    for value in plan.policy.values.as_slice() {
        let lowered = value.wrapping_sub(get(&heap.keys, v, 0));
        lags.push(scaled(lowered, unit))?;
        v = v.wrapping_add(1);
    }
    Ok(lags)
}

/// A quotient, or 0 by 0.
fn scaled(number: u64, unit: u64) -> u64 {
    if unit == 0 { 0 } else { number / unit }
}
