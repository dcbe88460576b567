//! For each transition the part that owns it: an index by which a certificate of many parts is checked
//! in linear time.

ghost use Rattle.std.specs.Prelude.{◌≡◌, ℕ, ◌<◌, ◌≤◌, ◌^◌, ◌↔◌, true, length, replicate, Some, None, IsTrue, IfOk, IfSome, is_some};
ghost use Rattle.std.specs.List.{All};
ghost use Rattle.lid_cert.specs.Certificates.{ascends};
ghost use Rattle.lid_cert.specs.Owners.{owner_of, Claims, Owns, IsEdgeOwned};

use crate::cert::Part;
use crate::rules::is_edge_met;
use lid_graph::{Edge, Graph};
use std::alloc::{AllocError, Global};

/// The part of a transition, if there is one.
fn owner_of(owners: &[Option<u32>], v: u32) -> Option<u32>
    ensures { result ≡ owner_of owners.now v }
{
    if (v as usize) < owners.len() {
        owners[v as usize]
    } else {
        None
    }
}

/// Claims transitions for a part. Answers whether no part owned any of them.
fn claim(owners: &mut [Option<u32>], nodes: &[u32], number: u32) -> bool
    ensures { IsTrue result → Claims number owners.old nodes.now owners.new }
{
    for v in nodes {
        let v = *v as usize;
        if v >= owners.len() || owners[v].is_some() {
            return false;
        }
        owners[v] = Some(number);
    }
    true
}

/// Lets each part claim its transitions. Answers whether no two claim the same.
fn claim_all(owners: &mut [Option<u32>], parts: &[Part]) -> bool
    requires { length parts.now < 2 ^ 32 }
    ensures { IsTrue result → Owns 0 owners.old parts.now owners.new }
{
    for k in 0..parts.len() {
        if !claim(owners, parts[k].nodes.as_slice(), k as u32) {
            return false;
        }
    }
    true
}

/// For each transition the part that owns it, where no transition has two.
///
/// # Errors
/// Where there is no memory.
pub(crate) fn owners_of(
    alloc: Global,
    graph: &Graph,
    parts: &[Part],
) -> Result<Option<Vec<Option<u32>>>, AllocError>
    ensures { IfOk result (λ found. IfSome found (λ owners. Owns 0 (replicate graph.now.nodes None) parts.now owners.items)) }
{
    if parts.len() > graph.nodes as usize {
        return Ok(None);
    }
    let mut owners = Vec::from_elem(alloc, None, graph.nodes as usize)?;
    if claim_all(&mut owners, parts) {
        Ok(Some(owners))
    } else {
        Ok(None)
    }
}

/// Whether some part owns each transition.
pub(crate) fn are_all_owned(owners: &[Option<u32>]) -> bool
    ensures { IsTrue result ↔ All (λ o. is_some o ≡ true) owners.now }
{
    owners.iter().all(|owner| owner.is_some())
}

/// Whether the part that owns the beginning of an edge meets the rule for the edge.
fn is_edge_owned(parts: &[Part], owners: &[Option<u32>], edge: &Edge) -> bool
    requires ascending { All (λ part. ascends part.nodes ≡ true) parts.now }
    requires within { (v j : ℕ) → owner_of owners.now v ≡ Some j → j < length parts.now }
    ensures { IsTrue result ↔ IsEdgeOwned parts.now owners.now edge.now }
{
    match owner_of(owners, edge.from) {
        Some(number) => is_edge_met(&parts[number as usize], edge),
        None => owner_of(owners, edge.to).is_none(),
    }
}

/// The same of each edge.
pub(crate) fn are_edges_owned(graph: &Graph, parts: &[Part], owners: &[Option<u32>]) -> bool
    requires ascending { All (λ part. ascends part.nodes ≡ true) parts.now }
    requires within { (v j : ℕ) → owner_of owners.now v ≡ Some j → j < length parts.now }
    ensures { IsTrue result ↔ All (IsEdgeOwned parts.now owners.now) graph.now.edges }
{
    for edge in graph.edges.as_slice() {
        if !is_edge_owned(parts, owners, edge) {
            return false;
        }
    }
    true
}
