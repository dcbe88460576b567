//! Whether a graph is paired.

ghost use Rattle.std.specs.Prelude.{◌≡◌, ℕ, ◌<◌, ◌↔◌, length, IsTrue};
ghost use Rattle.lid_graph.specs.Walks.{edge_at, HasEdge, HasSelfEdge, AreEndsPaired, IsPaired};

use crate::graph::{Edge, Graph};

/// How many edges there are.
fn edge_count(graph: &Graph) -> usize
    ensures { result ≡ length graph.now.edges }
{
    graph.edges.len()
}

/// The edge with this number.
fn edge_at(graph: &Graph, k: usize) -> Edge
    requires { k < length graph.now.edges }
    ensures { result ≡ edge_at graph.now k }
{
    graph.edges.as_slice()[k]
}

/// Whether there is an edge with these ends.
fn has_edge(graph: &Graph, u: u32, v: u32) -> bool
    ensures { IsTrue result ↔ HasEdge graph.now u v }
{
    for k in 0..edge_count(graph) {
        let edge = edge_at(graph, k);
        if edge.from == u && edge.to == v {
            return true;
        }
    }
    false
}

/// Whether there is an edge from the transition to itself with one token.
fn has_self_edge(graph: &Graph, v: u32) -> bool
    ensures { IsTrue result ↔ HasSelfEdge graph.now v }
{
    for k in 0..edge_count(graph) {
        let edge = edge_at(graph, k);
        if edge.from == v && edge.to == v && edge.tokens == 1 {
            return true;
        }
    }
    false
}

/// Whether the ends of an edge are transitions, and there is an edge back.
fn are_ends_paired(graph: &Graph, k: usize) -> bool
    requires { k < length graph.now.edges }
    ensures { IsTrue result ↔ AreEndsPaired graph.now k }
{
    let edge = edge_at(graph, k);
    edge.from < graph.nodes && edge.to < graph.nodes && has_edge(graph, edge.to, edge.from)
}

/// Whether the ends of all edges are paired.
fn are_edges_paired(graph: &Graph) -> bool
    ensures { IsTrue result ↔ ((k : ℕ) → k < length graph.now.edges → AreEndsPaired graph.now k) }
{
    for k in 0..edge_count(graph) {
        if !are_ends_paired(graph, k) {
            return false;
        }
    }
    true
}

/// Whether each transition has a self edge with one token.
fn have_self_edges(graph: &Graph) -> bool
    ensures { IsTrue result ↔ ((v : ℕ) → v < graph.now.nodes → HasSelfEdge graph.now v) }
{
    for v in 0..graph.nodes {
        if !has_self_edge(graph, v) {
            return false;
        }
    }
    true
}

/// Whether a graph is paired: all ends of edges are transitions, each transition has a self edge with
/// one token, and each edge has one back. It compares each edge with all others, so it is for small
/// graphs.
pub fn is_paired(graph: &Graph) -> bool
    ensures { IsTrue result ↔ IsPaired graph.now }
{
    if !are_edges_paired(graph) {
        return false;
    }
    have_self_edges(graph)
}
