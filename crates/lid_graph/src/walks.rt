//! Walks over edges by number: where one begins, and whether one is closed.

ghost use Rattle.std.specs.Prelude.{◌≡◌, ◌↔◌, IsTrue};
ghost use Rattle.lid_graph.specs.Walks.{IsWalk, IsClosedWalk, walk_start};

use crate::graph::Graph;

/// Where the first edge of a walk begins, or 0 where there is no edge of this number.
pub fn walk_start(graph: &Graph, walk: &[u32]) -> u32
    ensures { result ≡ walk_start graph.now walk.now }
{
    let edges = graph.edges.as_slice();
    match walk {
        [first, ..] if (*first as usize) < edges.len() => edges[*first as usize].from,
        _ => 0,
    }
}

/// Whether edges lead from one transition to another, each beginning where the one before ends.
pub fn is_walk(graph: &Graph, from: u32, walk: &[u32], to: u32) -> bool
    ensures { IsTrue result ↔ IsWalk graph.now from walk.now to }
{
    let edges = graph.edges.as_slice();
    let mut at = from;
    let mut rest = walk;
    while let [number, after @ ..] = rest {
        let number = *number as usize;
        if number >= edges.len() || edges[number].from != at {
            return false;
        }
        at = edges[number].to;
        rest = after;
    }
    at == to
}

/// Whether edges make a closed walk.
pub fn is_closed_walk(graph: &Graph, walk: &[u32]) -> bool
    ensures { IsTrue result ↔ IsClosedWalk graph.now walk.now }
{
    let start = walk_start(graph, walk);
    !walk.is_empty() && is_walk(graph, start, walk, start)
}
