//! The graph of some transitions and edges of another, numbered from 0 each.

ghost use Rattle.std.specs.Prelude.{◌≡◌, ℕ, ◌<◌, ◌^◌, true, length, slice_index, IfOk};
ghost use Rattle.std.specs.List.{Contains};
ghost use Rattle.lid_cert.specs.Certificates.{ascends};
ghost use Rattle.lid_rate.specs.Pieces.{IsImage, IsInnerEdge, IsPiece};

use lid_base::Items;
use lid_cert::place_of;
use lid_graph::{Edge, Graph};
use lid_rate_ratio::edge;
use std::alloc::{AllocError, Global};

/// Where a number stands in an ascending list that has it.
pub(crate) fn place(numbers: &[u32], wanted: u32) -> u32
    requires ascending { ascends numbers.now ≡ true }
    requires few { length numbers.now < 2 ^ 32 }
    requires listed { Contains numbers.now wanted }
    ensures within { result < length numbers.now }
    ensures here { slice_index numbers.now result ≡ wanted }
{
    match place_of(numbers, wanted) {
        Some(place) => place as u32,
        None => 0,
    }
}

/// An edge of the graph, between the places of its ends.
fn image(graph: &Graph, nodes: &[u32], k: u32) -> Edge
    requires ascending { ascends nodes.now ≡ true }
    requires few { length nodes.now < 2 ^ 32 }
    requires inside { IsInnerEdge graph.now nodes.now k }
    ensures { IsImage graph.now nodes.now k result }
{
    let along = edge(graph, k);
    Edge {
        from: place(nodes, along.from),
        to: place(nodes, along.to),
        tokens: along.tokens,
    }
}

/// The piece of these transitions, which ascend, and these edges between them.
///
/// # Errors
/// Where there is no memory.
pub(crate) fn piece_of(
    alloc: Global,
    graph: &Graph,
    nodes: &[u32],
    edges: &[u32],
) -> Result<Graph, AllocError>
    requires ascending { ascends nodes.now ≡ true }
    requires few { length nodes.now < 2 ^ 32 }
    requires inside { (i : ℕ) → i < length edges.now → IsInnerEdge graph.now nodes.now (slice_index edges.now i) }
    ensures { IfOk result (IsPiece graph.now nodes.now edges.now) }
{
    let mut all = Vec::with_capacity(alloc, edges.len())?;
    for k in edges {
        all.push(image(graph, nodes, *k))?;
    }
    Ok(Graph {
        nodes: nodes.len() as u32,
        edges: Items::from_vec(all),
    })
}
