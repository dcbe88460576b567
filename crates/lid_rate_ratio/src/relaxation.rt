//! Potentials of transitions, and edges that are relaxed.

ghost use Rattle.std.specs.Prelude.{◌≡◌, ◌*◌, ◌<◌, ◌≤◌, ◌^◌, length, slice_index};
ghost use Rattle.std.specs.Bool.{MatchBool};
ghost use Rattle.lid_graph.specs.Walks.{edge_at};
ghost use Rattle.lid_rate_ratio.specs.Relaxation.{Relaxes, StaysRelaxed, AreEdges, ArePotentials, AreAtMost, IsRound, IsRelaxed};

use lid_graph::{Edge, Graph};

/// For each transition its potential, and the edge that has raised it last: the edge from its predecessor.
#[derive(Drop)]
pub(crate) struct Potentials {
    pub(crate) values: Vec<u64>,
    pub(crate) predecessors: Vec<Option<u32>>,
}

/// The edge with this number.
pub fn edge(graph: &Graph, k: u32) -> Edge
    requires { k < length graph.now.edges }
    ensures { result ≡ edge_at graph.now k }
{
    graph.edges.as_slice()[k as usize]
}

/// Relaxes an edge: raises the potential at its end to the potential at its beginning plus `p` less `q`
/// for each token, if it is less than that. Answers whether it was.
fn relax(potentials: &mut Potentials, edge: Edge, k: u32, p: u64, q: u64) -> bool
    requires from { edge.from < length potentials.old.values.items }
    requires to { edge.to < length potentials.old.values.items }
    requires predecessors { edge.to < length potentials.old.predecessors.items }
    requires small { AreAtMost potentials.old.values.items (2 ^ 61) }
    requires p { p ≤ 2 ^ 22 }
    requires q { q ≤ 2 ^ 18 }
    requires tokens { edge.tokens ≤ 16 }
    ensures { MatchBool result
        (Relaxes edge k p q potentials.old.values.items potentials.old.predecessors.items
        potentials.new.values.items potentials.new.predecessors.items)
        (StaysRelaxed edge p q potentials.old.values.items potentials.old.predecessors.items
        potentials.new.values.items potentials.new.predecessors.items) }
{
    let taken = q * u64::from(edge.tokens);
    let reached = potentials.values[edge.from as usize] + p;
    if potentials.values[edge.to as usize] + taken >= reached {
        return false;
    }
    potentials.values[edge.to as usize] = reached - taken;
    potentials.predecessors[edge.to as usize] = Some(k);
    true
}

/// Relaxes each edge once. Answers a transition whose potential has grown, if there is one.
pub(crate) fn relax_all(
    potentials: &mut Potentials,
    graph: &Graph,
    edges: &[u32],
    p: u64,
    q: u64,
) -> Option<u32>
    requires edges { AreEdges graph.now edges.now }
    requires potentials { ArePotentials graph.now edges.now p q potentials.old.values.items potentials.old.predecessors.items }
    requires small { AreAtMost potentials.old.values.items (2 ^ 60) }
    requires few { p * length edges.now ≤ 2 ^ 41 }
    requires p { p ≤ 2 ^ 22 }
    requires q { q ≤ 2 ^ 18 }
    ensures potentials { ArePotentials graph.now edges.now p q potentials.new.values.items potentials.new.predecessors.items }
    ensures over { IsRound graph.now edges.now p q (length edges.now) potentials.old.values.items potentials.new.values.items }
    ensures changed { IsRelaxed graph.now potentials.old.values.items potentials.new.values.items result }
{
    let mut changed = None;
    for k in edges {
        let along = edge(graph, *k);
        if relax(potentials, along, *k, p, q) {
            changed = Some(along.to);
        }
    }
    changed
}
