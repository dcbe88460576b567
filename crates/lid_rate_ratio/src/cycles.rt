//! Closed walks, found by following predecessors.

ghost use Rattle.std.specs.Prelude.{◌≡◌, ◌<◌, ◌≤◌, ◌^◌, ℕ, length, reverse, drop, slice_index, IfOk};
ghost use Rattle.lid_rate_ratio.specs.Cycles.{ArePredecessors, IsTrace, StepsBack, Follows};

use crate::relaxation::edge;
use lid_base::Items;
use lid_graph::Graph;
use std::alloc::{AllocError, Global};

/// Where a chain of edges from predecessors leads.
#[derive(Drop)]
pub(crate) enum Followed {
    /// To a transition without an edge, by this many edges.
    Ends(usize),
    /// To one of its own transitions. This is the closed walk there.
    Closes(Items<u32>),
}

/// A chain as it is followed: its edges, for each transition its place in the chain counted from 1,
/// or 0, and the transition where it has come to.
#[derive(Drop)]
struct Trace {
    chain: Vec<u32>,
    places: Vec<u32>,
    at: u32,
}

/// Goes one edge on. Answers whether there was one.
fn step_back(
    trace: &mut Trace,
    graph: &Graph,
    predecessors: &[Option<u32>],
) -> Result<bool, AllocError>
    requires predecessors { ArePredecessors graph.now predecessors.now }
    requires trace { (start : ℕ) × IsTrace graph.now predecessors.now start trace.old.chain.items trace.old.places.items trace.old.at }
    requires new { slice_index trace.old.places.items trace.old.at ≡ 0 }
    requires nodes { graph.now.nodes ≤ 2 ^ 18 }
    ensures { IfOk result (λ went. (start : ℕ) → IsTrace graph.now predecessors.now start trace.old.chain.items trace.old.places.items trace.old.at
        → StepsBack graph.now predecessors.now start went trace.old.chain.items trace.old.at trace.new.chain.items trace.new.places.items trace.new.at) }
{
    match predecessors[trace.at as usize] {
        None => Ok(false),
        Some(k) => {
            trace.chain.push(k)?;
            trace.places[trace.at as usize] = trace.chain.len() as u32;
            trace.at = edge(graph, k).from;
            Ok(true)
        }
    }
}

/// The edges of a chain from a place on, in the order of a walk.
fn closed(alloc: Global, chain: &[u32], first: usize) -> Result<Items<u32>, AllocError>
    requires { first ≤ length chain.now }
    ensures { IfOk result (λ walk. walk ≡ reverse (drop first chain.now)) }
{
    let mut walk = Vec::from_slice(alloc, &chain[first..])?;
    walk.reverse();
    Ok(Items::from_vec(walk))
}

/// Follows the edges from predecessors back from `start`.
///
/// # Errors
/// Where there is no memory.
pub(crate) fn follow_predecessors(
    alloc: Global,
    graph: &Graph,
    predecessors: &[Option<u32>],
    start: u32,
) -> Result<Followed, AllocError>
    requires predecessors { ArePredecessors graph.now predecessors.now }
    requires start { start < graph.now.nodes }
    requires nodes { graph.now.nodes ≤ 2 ^ 18 }
    ensures { IfOk result (Follows graph.now predecessors.now start) }
{
    let places = Vec::from_elem(alloc, 0, graph.nodes as usize)?;
    let mut trace = Trace {
        chain: Vec::new(alloc),
        places,
        at: start,
    };
    while trace.places[trace.at as usize] == 0 {
        if !step_back(&mut trace, graph, predecessors)? {
            return Ok(Followed::Ends(trace.chain.len()));
        }
    }
    let first = trace.places[trace.at as usize] as usize - 1;
    Ok(Followed::Closes(closed(alloc, &trace.chain, first)?))
}
