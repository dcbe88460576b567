//! Policies: one edge out of each transition. Followed from any transition they come to a closed walk.

use crate::tables::{edge_at, get, put};
use lid_graph::{Edge, Graph};
use std::alloc::{AllocError, Global};

/// Stands for a transition's choice where its walks end there.
pub(crate) const STOP: u32 = u32::MAX;

/// A closed walk of a policy: a transition on it, and its sums.
#[derive(Clone, Copy)]
pub(crate) struct Cycle {
    pub(crate) start: u32,
    pub(crate) tokens: u64,
    pub(crate) edges: u64,
}

/// How late an edge is chosen among those with as many tokens: edges forth come first, which have even numbers, then
/// those back, and edges from a transition to itself last.
fn rank(edge: Edge, number: u32) -> u64 {
    if edge.from == edge.to {
        2
    } else {
        u64::from(number % 2)
    }
}

/// Takes each edge that has fewer tokens than the one that was taken before, or as many and comes before it.
fn choose_few(choices: &mut [u32], fewest: &mut [u64], edges: &[Edge]) {
    let mut number: u32 = 0;
    for edge in edges {
        let key = u64::from(edge.tokens)
            .wrapping_mul(4)
            .wrapping_add(rank(*edge, number));
        if key < get(fewest, edge.from, 0) {
            put(fewest, edge.from, key);
            put(choices, edge.from, number);
        }
        number = number.wrapping_add(1);
    }
}

/// For each transition an edge out of it with the fewest tokens.
pub(crate) fn first_choices(alloc: Global, graph: &Graph) -> Result<Vec<u32>, AllocError> {
    let mut choices = Vec::from_elem(alloc, 0, graph.nodes as usize)?;
    let mut fewest = Vec::from_elem(alloc, u64::MAX, graph.nodes as usize)?;
    choose_few(&mut choices, &mut fewest, graph.edges.as_slice());
    Ok(choices)
}

/// Follows the choices from a transition on to the first that is marked, and marks all on the way.
/// Where they stop it is no transition.
fn follow(marks: &mut [u32], edges: &[Edge], choices: &[u32], from: u32, mark: u32) -> u32 {
    let mut at = from;
    for _ in 0..choices.len() {
        if get(marks, at, mark) != 0 {
            return at;
        }
        put(marks, at, mark);
        let k = get(choices, at, STOP);
        if k == STOP {
            return STOP;
        }
        at = edge_at(edges, k).to;
    }
    at
}

/// The sums of the closed walk from a transition on it.
fn measure(edges: &[Edge], choices: &[u32], start: u32) -> Cycle {
    let mut cycle = Cycle {
        start,
        tokens: 0,
        edges: 0,
    };
    let mut at = start;
    for _ in 0..choices.len() {
        let edge = edge_at(edges, get(choices, at, 0));
        cycle.tokens = cycle.tokens.wrapping_add(u64::from(edge.tokens));
        cycle.edges = cycle.edges.wrapping_add(1);
        at = edge.to;
        if at == start {
            return cycle;
        }
    }
    cycle
}

/// Whether the first closed walk has the lower ratio.
fn is_lower(first: Cycle, second: Cycle) -> bool {
    first.tokens.wrapping_mul(second.edges) < second.tokens.wrapping_mul(first.edges)
}

/// The closed walk of least ratio of a policy.
pub(crate) fn least_cycle(marks: &mut [u32], edges: &[Edge], choices: &[u32]) -> Cycle {
    let mut least = Cycle {
        start: 0,
        tokens: 1,
        edges: 0,
    };
    let mut v: u32 = 0;
    for _ in 0..choices.len() {
        let mark = v.wrapping_add(1);
        let end = follow(marks, edges, choices, v, mark);
        if get(marks, end, 0) == mark {
            let cycle = measure(edges, choices, end);
            if is_lower(cycle, least) {
                least = cycle;
            }
        }
        v = mark;
    }
    least
}
