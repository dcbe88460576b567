//! Whether labels show that a ratio is kept with further relay stations on a channel, and whether edges make a way
//! that shows that it is not. Both are read off the present marked graph, and take no memory.

ghost use Rattle.std.specs.Prelude.{◌≡◌, ℕ, ◌+◌, ◌*◌, ◌<◌, ◌≤◌, ◌↔◌, length, IsTrue};
ghost use Rattle.lid_graph.specs.Walks.{edge_at};
ghost use Rattle.lid_slack_longer.specs.Labels.{label_at, IsEdgeAllowed, IsChainAllowed, IsElsewhere, AreKeepingLabels, IsWay};

use lid_graph::{Edge, Graph, is_walk};

/// A station with relay stations of capacity 2 in a row after it.
#[derive(Clone, Copy)]
pub struct Chain {
    pub station: u32,
    /// How many relay stations stand after it.
    pub more: u32,
}

/// A product. It can't overflow.
fn product(a: u64, b: u64) -> u128
    ensures value { result ≡ a * b }
    ensures small { result ≤ 18446744073709551615 * 18446744073709551615 }
{
    u128::from(a) * u128::from(b)
}

/// The label of a transition, if it has one.
fn label_at(labels: &[Option<u64>], v: u32) -> Option<u64>
    ensures { result ≡ label_at labels.now v }
{
    let v = v as usize;
    if v < labels.len() { labels[v] } else { None }
}

/// The edge with this number, or past the end one from transition 0 to itself without a token.
fn edge_at(graph: &Graph, k: usize) -> Edge
    ensures { result ≡ edge_at graph.now k }
{
    let edges = graph.edges.as_slice();
    if k < edges.len() {
        edges[k]
    } else {
        Edge {
            from: 0,
            to: 0,
            tokens: 0,
        }
    }
}

/// Whether two labels allow for so many edges with so many tokens from the one to the other, at the ratio a/b.
fn allow(from: u64, to: u64, a: u64, b: u64, edges: u64, tokens: u64) -> bool
    ensures { IsTrue result ↔ (from + a * edges ≤ to + b * tokens) }
{
    u128::from(from) + product(a, edges) <= u128::from(to) + product(b, tokens)
}

/// Whether labels allow for an edge.
fn is_edge_allowed(labels: &[Option<u64>], a: u64, b: u64, edge: &Edge) -> bool
    ensures { IsTrue result ↔ IsEdgeAllowed labels.now a b edge.now }
{
    match (label_at(labels, edge.from), label_at(labels, edge.to)) {
        (Some(from), Some(to)) => allow(from, to, a, b, 1, u64::from(edge.tokens)),
        (None, None) => true,
        _ => false,
    }
}

/// Whether an edge is none of the two of a station.
fn is_elsewhere(station: u32, k: usize) -> bool
    ensures { IsTrue result ↔ IsElsewhere station k }
{
    let along = 2 * station as usize;
    k != along && k != along + 1
}

/// Whether labels allow for all edges but the two of a station.
fn are_others_allowed(graph: &Graph, station: u32, a: u64, b: u64, labels: &[Option<u64>]) -> bool
    ensures { IsTrue result ↔ ((k : ℕ) → k < length graph.now.edges → IsElsewhere station k → IsEdgeAllowed labels.now a b (edge_at graph.now k)) }
{
    let edges = graph.edges.as_slice();
    for k in 0..edges.len() {
        if is_elsewhere(station, k) && !is_edge_allowed(labels, a, b, &edges[k]) {
            return false;
        }
    }
    true
}

/// Whether labels allow for a station and the relay stations after it, along all of them and back.
fn is_chain_allowed(graph: &Graph, chain: Chain, a: u64, b: u64, labels: &[Option<u64>]) -> bool
    ensures { IsTrue result ↔ IsChainAllowed graph.now chain.station chain.more a b labels.now }
{
    let number = 2 * chain.station as usize;
    let along = edge_at(graph, number);
    let back = edge_at(graph, number + 1);
    let edges = u64::from(chain.more) + 1;
    let room = u64::from(back.tokens) + 2 * u64::from(chain.more);
    match (label_at(labels, along.from), label_at(labels, along.to)) {
        (Some(filled), Some(drained)) => {
            allow(filled, drained, a, b, edges, u64::from(along.tokens))
                && allow(drained, filled, a, b, edges, room)
        }
        _ => false,
    }
}

/// Whether labels show that with a chain in place of its station no closed walk of the component of `start` has a
/// ratio below a/b. It looks once at each edge.
pub fn are_labels(
    graph: &Graph,
    chain: Chain,
    start: u32,
    a: u64,
    b: u64,
    labels: &[Option<u64>],
) -> bool
    ensures { IsTrue result ↔ AreKeepingLabels graph.now chain.station start chain.more a b labels.now }
{
    if a > b || label_at(labels, start).is_none() {
        return false;
    }
    is_chain_allowed(graph, chain, a, b, labels)
        && are_others_allowed(graph, chain.station, a, b, labels)
}

/// Whether edges lead from where a station is drained to where it is filled, and are none of its own.
pub fn is_way(graph: &Graph, station: u32, way: &[u32]) -> bool
    ensures { IsTrue result ↔ IsWay graph.now station way.now }
{
    let along = edge_at(graph, 2 * station as usize);
    is_walk(graph, along.to, way, along.from)
        && way.iter().all(|k| is_elsewhere(station, *k as usize))
}
