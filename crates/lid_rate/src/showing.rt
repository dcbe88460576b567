//! Whether a graph has a certificate, as lists of numbers show.

ghost use Rattle.std.specs.Prelude.{◌≡◌, ℕ, ◌<◌, ◌≤◌, ◌^◌, ◌↔◌, length, slice_index, IsTrue};
ghost use Rattle.lid_graph.specs.declared.graph.Edge.{Edge};
ghost use Rattle.lid_graph.specs.Walks.{edge_at};
ghost use Rattle.lid_graph.specs.Walks.{WalksHaveTokens};
ghost use Rattle.lid_rate.specs.Rates.{IsLoopAt, is_loop_edge};
ghost use Rattle.lid_rate.specs.Shown.{IsBackEdge, LeadsUp, IsEdgeShown, ShowsRateable};

use lid_graph::Graph;
use lid_rate_ratio::edge;

/// Whether `back` is an edge from the end of another edge to its beginning.
fn is_back(graph: &Graph, k: u32, back: u32) -> bool
    requires { k < length graph.now.edges }
    ensures { IsTrue result ↔ IsBackEdge graph.now k back }
{
    if back as usize >= graph.edges.len() {
        return false;
    }
    let along = edge(graph, k);
    let other = edge(graph, back);
    other.from == along.to && other.to == along.from
}

/// Whether an edge has tokens or leads to a greater number.
fn rises(graph: &Graph, k: u32, numbers: &[u32]) -> bool
    requires within { k < length graph.now.edges }
    requires from { (edge_at graph.now k).from < length numbers.now }
    requires to { (edge_at graph.now k).to < length numbers.now }
    ensures { IsTrue result ↔ LeadsUp graph.now numbers.now k }
{
    let along = edge(graph, k);
    along.tokens > 0 || numbers[along.from as usize] < numbers[along.to as usize]
}

/// Whether an edge is as it has to be.
fn is_edge_shown(graph: &Graph, k: u32, back: u32, numbers: &[u32]) -> bool
    requires within { k < length graph.now.edges }
    requires count { length numbers.now ≡ graph.now.nodes }
    ensures { IsTrue result ↔ IsEdgeShown graph.now k back numbers.now }
{
    let along = edge(graph, k);
    if along.from >= graph.nodes || along.to >= graph.nodes || along.tokens > 16 {
        return false;
    }
    is_back(graph, k, back) && rises(graph, k, numbers)
}

/// Whether each edge is as it has to be.
fn are_edges_shown(graph: &Graph, backs: &[u32], numbers: &[u32]) -> bool
    requires few { length graph.now.edges < 2 ^ 19 }
    requires backs { length backs.now ≡ length graph.now.edges }
    requires numbers { length numbers.now ≡ graph.now.nodes }
    ensures { IsTrue result ↔ ((k : ℕ) → k < length graph.now.edges → IsEdgeShown graph.now k (slice_index backs.now k) numbers.now) }
{
    for k in 0..backs.len() {
        if !is_edge_shown(graph, k as u32, backs[k], numbers) {
            return false;
        }
    }
    true
}

/// Whether a number is that of an edge from a transition to itself, with one token.
fn is_loop_at(graph: &Graph, v: u32, k: u32) -> bool
    ensures { IsTrue result ↔ IsLoopAt graph.now v k }
{
    if k as usize >= graph.edges.len() {
        return false;
    }
    let along = edge(graph, k);
    along.from == v && along.to == v && along.tokens == 1
}

/// Whether each transition has an edge to itself with one token.
fn are_loops_shown(graph: &Graph, loops: &[u32]) -> bool
    requires { length loops.now ≡ graph.now.nodes }
    ensures { IsTrue result ↔ ((v : ℕ) → v < graph.now.nodes → IsLoopAt graph.now v (slice_index loops.now v)) }
{
    for v in 0..graph.nodes {
        if !is_loop_at(graph, v, loops[v as usize]) {
            return false;
        }
    }
    true
}

/// Whether a graph is one that [`find`](crate::find) takes, and each closed walk of it has a token, as
/// these lists show: for each edge the number of an edge back, for each transition the number of an
/// edge to itself with one token, and for each transition a number that rises along every edge
/// without tokens. It takes no memory, and its time is linear.
pub fn is_rateable(graph: &Graph, backs: &[u32], loops: &[u32], numbers: &[u32]) -> bool
    ensures shown { IsTrue result ↔ ShowsRateable graph.now backs.now loops.now numbers.now }
    ensures tokens { IsTrue result → WalksHaveTokens graph.now }
{
    let count = graph.edges.len();
    if graph.nodes == 0 || graph.nodes > 262_144 || count >= 524_288 {
        return false;
    }
    if backs.len() != count || loops.len() != graph.nodes as usize {
        return false;
    }
    if numbers.len() != graph.nodes as usize || !are_loops_shown(graph, loops) {
        return false;
    }
    are_edges_shown(graph, backs, numbers)
}
