//! The components of a graph, by union-find with path halving.

ghost use Rattle.std.specs.Prelude.{◌≡◌, ℕ, ◌<◌, ◌≤◌, length, slice_index, IfOk};
ghost use Rattle.lid_graph.specs.Walks.{IsPaired, IsLeastJoined};
ghost use Rattle.lid_graph.specs.Forests.{IsForest, IsLabelled, IsComplete, merged};

use crate::graph::Graph;
use lid_base::Items;
use std::alloc::{AllocError, Global};

/// The root of a transition. The path to it is halved: each transition that is passed gets its
/// grandparent as its parent.
fn find(parents: &mut [u32], v: u32) -> u32
    requires forest { IsForest parents.old }
    requires within { v < length parents.old }
    ensures forest { IsForest parents.new }
    ensures within { result ≤ v }
    ensures label { (label : ℕ → ℕ) → IsLabelled parents.old label → IsLabelled parents.new label × (result ≡ label v) }
{
    let mut at = v;
    while parents[at as usize] != at {
        let parent = parents[at as usize];
        let grandparent = parents[parent as usize];
        parents[at as usize] = grandparent;
        at = grandparent;
    }
    at
}

/// Makes the trees of two transitions one. The lesser root is the root of both.
fn unite(parents: &mut [u32], u: u32, v: u32)
    requires forest { IsForest parents.old }
    requires left { u < length parents.old }
    requires right { v < length parents.old }
    ensures forest { IsForest parents.new }
    ensures label { (label : ℕ → ℕ) → IsLabelled parents.old label → IsLabelled parents.new (merged label u v) }
{
    let left = find(parents, u);
    let right = find(parents, v);
    if left < right {
        parents[right as usize] = left;
    } else {
        parents[left as usize] = right;
    }
}

/// Each transition as its own root.
fn roots(alloc: Global, count: u32) -> Result<Vec<u32>, AllocError>
    ensures length { IfOk result (λ parents. length parents.items ≡ count) }
    ensures own { IfOk result (λ parents. (v : ℕ) → v < count → slice_index parents.items v ≡ v) }
{
    let mut parents = Vec::with_capacity(alloc, count as usize)?;
    for v in 0..count {
        parents.push(v)?;
    }
    Ok(parents)
}

/// Makes the trees of the ends of each edge one.
fn unite_all(parents: &mut [u32], graph: &Graph)
    requires paired { IsPaired graph.now }
    requires length { length parents.old ≡ graph.now.nodes }
    requires own { (v : ℕ) → v < graph.now.nodes → slice_index parents.old v ≡ v }
    ensures { IsComplete graph.now parents.new }
{
    let edges = graph.edges.as_slice();
    for k in 0..edges.len() {
        unite(parents, edges[k].from, edges[k].to);
    }
}

/// Makes each transition a child of its root.
fn flatten(parents: &mut [u32])
    requires { IsForest parents.old }
    ensures { (label : ℕ → ℕ) → IsLabelled parents.old label → (v : ℕ) → v < length parents.new → slice_index parents.new v ≡ label v }
{
    for v in 0..parents.len() {
        let parent = parents[v];
        parents[v] = parents[parent as usize];
    }
}

/// Makes each transition a child of the least transition of its component.
fn label_components(parents: &mut [u32], graph: &Graph)
    requires paired { IsPaired graph.now }
    requires length { length parents.old ≡ graph.now.nodes }
    requires own { (v : ℕ) → v < graph.now.nodes → slice_index parents.old v ≡ v }
    ensures { (v : ℕ) → v < graph.now.nodes → IsLeastJoined graph.now v (slice_index parents.new v) }
{
    unite_all(parents, graph);
    flatten(parents);
}

/// For each transition the least transition that a walk joins to it.
///
/// # Errors
/// Where there is no memory.
pub fn components(alloc: Global, graph: &Graph) -> Result<Items<u32>, AllocError>
    requires { IsPaired graph.now }
    ensures length { IfOk result (λ least. length least ≡ graph.now.nodes) }
    ensures least { IfOk result (λ least. (v : ℕ) → v < graph.now.nodes → IsLeastJoined graph.now v (slice_index least v)) }
{
    let mut parents = roots(alloc, graph.nodes)?;
    label_components(parents.as_mut_slice(), graph);
    Ok(Items::from_vec(parents))
}
