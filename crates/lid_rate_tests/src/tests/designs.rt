//! Small graphs.

use lid_base::Items;
use lid_graph::{Edge, Graph};
use std::alloc::{AllocError, Global};

/// A station: filler, drainer, start tokens and capacity.
pub(crate) type Station = (u32, u32, u32, u32);

/// A ring of two registers, 1 and 2, with a mover, 4, from the first to the second, and a sink, 3. The
/// source, 0, stands alone.
pub(crate) const RING: [Station; 4] = [(1, 4, 1, 2), (4, 2, 0, 2), (2, 1, 1, 2), (2, 3, 1, 2)];

/// A certificate of the ring.
pub(crate) const RING_CERT: &[u8] = b"lid-cert 1
part 1
ratio 1 1
cycle 8
node 0 0 0 0 -
part 4
ratio 2 3
cycle 0 2 4
node 1 1 2 0 -
node 2 2 5 1 5
node 3 1 8 2 6
node 4 0 5 1 0
";

/// The actors of two ways that join again: the source, three shells, the sink and three movers.
pub(crate) const DIAMOND: [Station; 8] = [
    (0, 1, 1, 2),
    (1, 5, 1, 2),
    (5, 6, 0, 2),
    (6, 7, 0, 2),
    (7, 2, 0, 2),
    (1, 3, 1, 2),
    (2, 4, 1, 2),
    (3, 2, 1, 2),
];

/// The edge with these ends and tokens.
fn edge(from: u32, to: u32, tokens: u32) -> Edge {
    Edge { from, to, tokens }
}

/// The edge of a station from its filler to its drainer.
fn forth(station: &Station) -> Edge {
    let (filler, drainer, tokens, _) = *station;
    edge(filler, drainer, tokens)
}

/// The edge back.
fn back(station: &Station) -> Edge {
    let (filler, drainer, tokens, capacity) = *station;
    edge(drainer, filler, capacity.saturating_sub(tokens))
}

/// A graph with two edges for each station, one forth and one back, and then the self edges.
pub(crate) fn graph_of(
    alloc: Global,
    nodes: u32,
    stations: &[Station],
) -> Result<Graph, AllocError> {
    let mut edges = Vec::new(alloc);
    for station in stations {
        edges.push(forth(station))?;
        edges.push(back(station))?;
    }
    for v in 0..nodes {
        edges.push(edge(v, v, 1))?;
    }
    let edges = Items::from_vec(edges);
    Ok(Graph { nodes, edges })
}

/// Whether two lists are the same.
pub(crate) fn are(numbers: &[u32], want: &[u32]) -> bool {
    numbers == want
}

/// The same of large numbers.
pub(crate) fn are_large(numbers: &[u64], want: &[u64]) -> bool {
    numbers == want
}
