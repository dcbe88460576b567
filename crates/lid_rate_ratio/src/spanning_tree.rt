//! A spanning tree of a component from where a closed walk starts: leads, depths and via edges.

ghost use Rattle.std.specs.Prelude.{◌≡◌, ◌+◌, ◌*◌, ◌<◌, ◌≤◌, ◌^◌, length, slice_index, slice_set, replicate, None, IfOk};
ghost use Rattle.std.specs.Bool.{MatchBool};
ghost use Rattle.lid_rate_ratio.specs.Relaxation.{AreEdges};
ghost use Rattle.lid_rate_ratio.specs.SpanningTrees.{is_reached, AddsEdge, AddsNone, IsTree, IsSpanning, unreached};

use crate::relaxation::edge;
use lid_graph::{Edge, Graph};
use std::alloc::{AllocError, Global};

/// Where a tree starts, the lead there, and what each token adds to leads.
#[derive(Clone, Copy)]
pub struct Root {
    pub start: u32,
    pub first: u64,
    pub q: u64,
}

/// For each transition that is reached the edge from a transition of less depth, its lead and its
/// depth.
#[derive(Drop)]
pub(crate) struct Tree {
    pub(crate) via: Vec<Option<u32>>,
    pub(crate) lead: Vec<u64>,
    pub(crate) depth: Vec<u32>,
}

/// Whether a transition is the start or has an edge in the tree.
fn reached(tree: &Tree, start: u32, v: u32) -> bool
    requires { v < length tree.now.via.items }
    ensures { result ≡ is_reached start tree.now.via.items v }
{
    v == start || tree.via[v as usize].is_some()
}

/// Adds an edge to the tree where it leads out of it. Answers whether it does.
fn extend(tree: &mut Tree, edge: Edge, k: u32, start: u32, q: u64) -> bool
    requires from { edge.from < length tree.old.via.items }
    requires to { edge.to < length tree.old.via.items }
    requires lead { length tree.old.lead.items ≡ length tree.old.via.items }
    requires depth { length tree.old.depth.items ≡ length tree.old.via.items }
    requires small { slice_index tree.old.lead.items edge.from ≤ 2 ^ 61 }
    requires shallow { slice_index tree.old.depth.items edge.from ≤ 2 ^ 18 }
    requires q { q ≤ 2 ^ 18 }
    requires tokens { edge.tokens ≤ 16 }
    ensures { MatchBool result
        (AddsEdge edge k start q tree.old.via.items tree.old.lead.items tree.old.depth.items
        tree.new.via.items tree.new.lead.items tree.new.depth.items)
        (AddsNone edge start tree.old.via.items tree.old.lead.items tree.old.depth.items
        tree.new.via.items tree.new.lead.items tree.new.depth.items) }
{
    if !reached(tree, start, edge.from) || reached(tree, start, edge.to) {
        return false;
    }
    tree.via[edge.to as usize] = Some(k);
    tree.lead[edge.to as usize] = tree.lead[edge.from as usize] + q * u64::from(edge.tokens);
    tree.depth[edge.to as usize] = tree.depth[edge.from as usize] + 1;
    true
}

/// Goes over the edges once. Answers whether the tree has grown.
fn grow(tree: &mut Tree, graph: &Graph, edges: &[u32], start: u32, q: u64, first: u64) -> bool
    requires edges { AreEdges graph.now edges.now }
    requires nodes { graph.now.nodes ≤ 2 ^ 18 }
    requires q { q ≤ 2 ^ 18 }
    requires first { first ≤ 2 ^ 40 }
    requires tree { IsTree graph.now edges.now start q first tree.old.via.items tree.old.lead.items tree.old.depth.items }
    ensures tree { IsTree graph.now edges.now start q first tree.new.via.items tree.new.lead.items tree.new.depth.items }
    ensures no_more { unreached tree.new.via.items ≤ unreached tree.old.via.items }
    ensures grown { MatchBool result (unreached tree.new.via.items < unreached tree.old.via.items)
        (IsSpanning graph.now edges.now start (length edges.now) tree.new.via.items) }
{
    let _ = first;
    let mut grown = false;
    for k in edges {
        if extend(tree, edge(graph, *k), *k, start, q) {
            grown = true;
        }
    }
    grown
}

/// The tree of the start alone.
fn plant(alloc: Global, nodes: u32, start: u32, first: u64) -> Result<Tree, AllocError>
    requires { start < nodes }
    ensures via { IfOk result (λ tree. tree.via.items ≡ replicate nodes None) }
    ensures lead { IfOk result (λ tree. tree.lead.items ≡ slice_set (replicate nodes 0) start first) }
    ensures depth { IfOk result (λ tree. tree.depth.items ≡ replicate nodes 0) }
{
    let via = Vec::from_elem(alloc, None, nodes as usize)?;
    let mut lead = Vec::from_elem(alloc, 0, nodes as usize)?;
    lead[start as usize] = first;
    let depth = Vec::from_elem(alloc, 0, nodes as usize)?;
    Ok(Tree { via, lead, depth })
}

/// The tree of all that edges lead to from its start.
///
/// # Errors
/// Where there is no memory.
pub(crate) fn span(
    alloc: Global,
    graph: &Graph,
    edges: &[u32],
    root: Root,
) -> Result<Tree, AllocError>
    requires edges { AreEdges graph.now edges.now }
    requires nodes { graph.now.nodes ≤ 2 ^ 18 }
    requires start { root.start < graph.now.nodes }
    requires q { root.q ≤ 2 ^ 18 }
    requires first { root.first ≤ 2 ^ 40 }
    ensures tree { IfOk result (λ tree. IsTree graph.now edges.now root.start root.q root.first tree.via.items tree.lead.items tree.depth.items) }
    ensures all { IfOk result (λ tree. IsSpanning graph.now edges.now root.start (length edges.now) tree.via.items) }
{
    let mut tree = plant(alloc, graph.nodes, root.start, root.first)?;
    let mut grown = true;
    while grown {
        grown = grow(&mut tree, graph, edges, root.start, root.q, root.first);
    }
    Ok(tree)
}
