//! Small graphs, with answers worked out by hand, and slow functions beside the definitions.

use crate::tests::designs::{RING, Station, are, graph_of};
use crate::tests::walks::rate_at;
use lid_base::Items;
use lid_graph::{Edge, Graph, components, is_paired};
use std::alloc::Global;

/// Whether a graph is paired, and has these components.
fn is_joined(alloc: Global, graph: &Graph, least: &[u32]) -> bool {
    if !is_paired(graph) {
        return false;
    }
    match components(alloc, graph) {
        Ok(found) => are(found.as_slice(), least),
        Err(_) => false,
    }
}

/// The same of the graph of these stations.
fn has_components(alloc: Global, nodes: u32, stations: &[Station], least: &[u32]) -> bool {
    match graph_of(alloc, nodes, stations) {
        Ok(graph) => is_joined(alloc, &graph, least),
        Err(_) => false,
    }
}

/// Two components, whose edges lead from greater to lesser transitions first.
const BACK: [Station; 3] = [(4, 3, 0, 1), (2, 0, 3, 3), (3, 1, 0, 0)];

/// Graphs, and the least transition that a walk joins to each.
static JOINED: [(&[Station], &[u32]); 2] = [(&RING, &[0, 1, 1, 1, 1]), (&BACK, &[0, 1, 0, 1, 1])];

#[test]
fn finds_components(rt: HostRuntime) {
    for case in &JOINED {
        assert!(rt; has_components(rt.alloc(), 5, case.0, case.1));
    }
}

/// Graphs that are not paired: without an edge back, with an end that is no transition, and without a
/// self edge.
static BARE: [(u32, &[Edge]); 3] = [
    (
        2,
        &[
            Edge {
                from: 0,
                to: 1,
                tokens: 0,
            },
            Edge {
                from: 0,
                to: 0,
                tokens: 1,
            },
            Edge {
                from: 1,
                to: 1,
                tokens: 1,
            },
        ],
    ),
    (
        1,
        &[
            Edge {
                from: 0,
                to: 1,
                tokens: 0,
            },
            Edge {
                from: 1,
                to: 0,
                tokens: 0,
            },
            Edge {
                from: 0,
                to: 0,
                tokens: 1,
            },
        ],
    ),
    (1, &[]),
];

/// Whether a graph with these edges is not paired.
fn is_bare(alloc: Global, nodes: u32, edges: &[Edge]) -> bool {
    match Vec::from_slice(alloc, edges) {
        Ok(edges) => {
            let edges = Items::from_vec(edges);
            !is_paired(&Graph { nodes, edges })
        }
        Err(_) => false,
    }
}

#[test]
fn tells_graphs_that_are_not_paired(rt: HostRuntime) {
    for case in &BARE {
        assert!(rt; is_bare(rt.alloc(), case.0, case.1));
    }
}

/// The firing counts of five transitions.
type Counts = [u64; 5];

/// The firing counts one cycle on, where no transition fires more often than its cap.
fn fire(graph: &Graph, caps: &Counts, counts: &Counts) -> Counts {
    let mut next = *caps;
    for edge in graph.edges.as_slice() {
        let (from, to) = (edge.from as usize, edge.to as usize);
        if from < 5 && to < 5 {
            let most = counts[from].saturating_add(u64::from(edge.tokens));
            if most < next[to] {
                next[to] = most;
            }
        }
    }
    next
}

/// Whether these are the firing counts after 0 cycles, after one, and so on.
fn fires(graph: &Graph, caps: &Counts, table: &[Counts]) -> bool {
    let mut counts = [0; 5];
    for row in table {
        if counts != *row {
            return false;
        }
        counts = fire(graph, caps, &counts);
    }
    true
}

/// What the ring's transitions have fired after 0 cycles, after one, and so on.
static COUNTS: [Counts; 7] = [
    [0, 0, 0, 0, 0],
    [1, 1, 0, 1, 1],
    [2, 1, 1, 1, 2],
    [3, 2, 2, 2, 2],
    [3, 3, 2, 3, 3],
    [3, 3, 3, 3, 4],
    [3, 3, 3, 4, 4],
];

/// Whether the ring fires so, and the transitions 0 and 1 lie on closed walks of ratios 1 and 2/3.
fn runs_as_a_ring(graph: &Graph) -> bool {
    fires(graph, &[3, 3, 3, 4, 4], &COUNTS)
        && rate_at(graph, 0, 1, 1) == (true, true)
        && rate_at(graph, 1, 2, 3) == (true, true)
}

#[test]
fn counts_firings_and_finds_least_ratios(rt: HostRuntime) {
    let ran = match graph_of(rt.alloc(), 5, &RING) {
        Ok(graph) => runs_as_a_ring(&graph),
        Err(_) => false,
    };
    assert!(rt; ran);
}
