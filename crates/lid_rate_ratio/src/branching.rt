//! A tree of edges from one transition to all: by a guess that is tested, and by sweeps over the edges
//! where the test fails.

ghost use Rattle.std.specs.Prelude.{◌≡◌, ℕ, ◌+◌, ◌*◌, ◌<◌, ◌≤◌, ◌≢◌, ◌^◌, ◌↔◌, length, slice_index, IsTrue, IfOk};
ghost use Rattle.std.specs.Option.{MatchOption};
ghost use Rattle.lid_rate_ratio.specs.Relaxation.{AreAtMost};
ghost use Rattle.lid_rate_ratio.specs.WalksBack.{predecessor_of};
ghost use Rattle.lid_rate_ratio.specs.SpanningTrees.{AreTreeLists, IsRoot};
ghost use Rattle.lid_rate_ratio.specs.Components.{IsSmallGraph, CanSpan, IsBranch, SpansFrom};

use crate::judging::are_at_most;
use crate::rating::numbers;
use crate::relaxation::edge;
use crate::spanning_tree::{Root, Tree, span};
use lid_base::Items;
use lid_graph::Graph;
use lid_rate_guess::{Branches, propose_tree};
use std::alloc::{AllocError, Global};

/// The largest lead that is taken.
const MOST_LEAD: u64 = 1 << 61;

/// Whether the start has no edge, the first lead and no depth.
fn is_root(tree: &Branches, root: Root) -> bool
    requires via { root.start < length tree.now.via }
    requires lead { root.start < length tree.now.lead }
    requires depth { root.start < length tree.now.depth }
    ensures { IsTrue result ↔ IsRoot root.start root.first tree.now.via tree.now.lead tree.now.depth }
{
    let place = root.start as usize;
    tree.via.as_slice()[place].is_none()
        && tree.lead.as_slice()[place] == root.first
        && tree.depth.as_slice()[place] == 0
}

/// Whether an edge leads to a transition from one of less depth, and the lead there is large enough.
fn is_branch(graph: &Graph, q: u64, tree: &Branches, v: u32, k: u32) -> bool
    requires graph { IsSmallGraph graph.now }
    requires q { q ≤ 2 ^ 18 }
    requires lists { AreTreeLists graph.now tree.now.via tree.now.lead tree.now.depth }
    requires small { AreAtMost tree.now.lead (2 ^ 61) }
    requires within { v < graph.now.nodes }
    ensures { IsTrue result ↔ IsBranch graph.now q tree.now.lead tree.now.depth v k }
{
    if k as usize >= graph.edges.len() {
        return false;
    }
    let along = edge(graph, k);
    let depths = tree.depth.as_slice();
    if along.to != v || depths[along.from as usize] >= depths[v as usize] {
        return false;
    }
    let leads = tree.lead.as_slice();
    leads[along.from as usize] + q * u64::from(along.tokens) <= leads[v as usize]
}

/// Whether a transition is the start, or an edge of the tree leads to it.
fn is_reached(graph: &Graph, tree: &Branches, root: Root, v: u32) -> bool
    requires root { CanSpan graph.now root.start root.q root.first }
    requires lists { AreTreeLists graph.now tree.now.via tree.now.lead tree.now.depth }
    requires small { AreAtMost tree.now.lead (2 ^ 61) }
    requires within { v < graph.now.nodes }
    ensures { IsTrue result ↔ (v ≢ root.start → MatchOption (predecessor_of tree.now.via v) ⊥ (IsBranch graph.now root.q tree.now.lead tree.now.depth v)) }
{
    if v == root.start {
        return true;
    }
    match tree.via.as_slice()[v as usize] {
        Some(k) => is_branch(graph, root.q, tree, v, k),
        None => false,
    }
}

/// Whether the edges of the tree lead to all transitions.
fn are_reached(graph: &Graph, tree: &Branches, root: Root) -> bool
    requires root { CanSpan graph.now root.start root.q root.first }
    requires lists { AreTreeLists graph.now tree.now.via tree.now.lead tree.now.depth }
    requires small { AreAtMost tree.now.lead (2 ^ 61) }
    ensures { IsTrue result ↔ ((v : ℕ) → v < graph.now.nodes → v ≢ root.start
        → MatchOption (predecessor_of tree.now.via v) ⊥ (IsBranch graph.now root.q tree.now.lead tree.now.depth v)) }
{
    for v in 0..graph.nodes {
        if !is_reached(graph, tree, root, v) {
            return false;
        }
    }
    true
}

/// Whether a tree comes from the start to each transition.
fn spans(graph: &Graph, tree: &Branches, root: Root) -> bool
    requires { CanSpan graph.now root.start root.q root.first }
    ensures { IsTrue result ↔ SpansFrom graph.now root.start root.q root.first tree.now.via tree.now.lead tree.now.depth }
{
    let count = graph.nodes as usize;
    if tree.via.len() != count || tree.lead.len() != count || tree.depth.len() != count {
        return false;
    }
    if !are_at_most(tree.lead.as_slice(), MOST_LEAD) || !is_root(tree, root) {
        return false;
    }
    are_reached(graph, tree, root)
}

/// The lists of a tree.
fn listed(tree: Tree) -> Branches
    ensures via { result.via ≡ tree.via.items }
    ensures lead { result.lead ≡ tree.lead.items }
    ensures depth { result.depth ≡ tree.depth.items }
{
    let Tree { via, lead, depth } = tree;
    Branches {
        via: Items::from_vec(via),
        lead: Items::from_vec(lead),
        depth: Items::from_vec(depth),
    }
}

/// The tree, searched by sweeps over all edges.
fn sweep(alloc: Global, graph: &Graph, root: Root) -> Result<Branches, AllocError>
    requires { CanSpan graph.now root.start root.q root.first }
    ensures { IfOk result (λ tree. SpansFrom graph.now root.start root.q root.first tree.via tree.lead tree.depth) }
{
    let all = numbers(alloc, graph.edges.len())?;
    let tree = span(alloc, graph, &all, root)?;
    Ok(listed(tree))
}

/// The tree that a guess shows, or, where it shows none, the one that is searched. Any guess will do,
/// and a good one saves the search.
///
/// # Errors
/// Where there is no memory.
pub fn tree_by(
    alloc: Global,
    graph: &Graph,
    root: Root,
    guess: Branches,
) -> Result<Branches, AllocError>
    requires { CanSpan graph.now root.start root.q root.first }
    ensures is { IfOk result (λ tree. SpansFrom graph.now root.start root.q root.first tree.via tree.lead tree.depth) }
    ensures taken { IfOk result (λ tree. SpansFrom graph.now root.start root.q root.first guess.via guess.lead guess.depth → tree ≡ guess) }
{
    if spans(graph, &guess, root) {
        return Ok(guess);
    }
    sweep(alloc, graph, root)
}

/// A tree of edges from a start to all transitions, where the lead of the start is `first`, and that of
/// each other is at least that of the one before it plus `q` for each token between.
///
/// # Errors
/// Where there is no memory.
pub fn tree_of(alloc: Global, graph: &Graph, root: Root) -> Result<Branches, AllocError>
    requires { CanSpan graph.now root.start root.q root.first }
    ensures { IfOk result (λ tree. SpansFrom graph.now root.start root.q root.first tree.via tree.lead tree.depth) }
{
    let guess = propose_tree(alloc, graph, root.start, root.q, root.first)?;
    tree_by(alloc, graph, root, guess)
}
