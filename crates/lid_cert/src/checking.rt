//! The check of a certificate.

ghost use Rattle.std.specs.Prelude.{◌≡◌, ◌<◌, ℕ, ◌↔◌, ◌∷◌, true, IsTrue, map, replicate, None};
ghost use Rattle.std.specs.List.{All, count_by};
ghost use Rattle.lid_graph.specs.Walks.{walk_start};
ghost use Rattle.lid_cert.specs.Certificates.{ascends, has_node, least_node, IsEdgeMet, IsStartMet, IsNodeMet, IsPart, IsPartInside, IsPartInRange, IsInRange, Certifies};
ghost use Rattle.lid_cert.specs.Owners.{Owns, AreOwned};

use crate::cert::{Cert, Part};
use crate::owners::{are_all_owned, are_edges_owned, owners_of};
use crate::places::{ascends, has_node};
use crate::rules::{are_lists, has_ratio, is_edge_met, is_lowest, is_node_met, is_start_met};
use lid_graph::{Graph, is_closed_walk, walk_start};
use std::alloc::Global;

/// Whether all transitions of a part are transitions of the graph.
fn are_within(graph: &Graph, part: &Part) -> bool
    ensures { IsTrue result ↔ All (λ v. v < graph.now.nodes) part.now.nodes }
{
    let nodes = part.nodes.as_slice();
    let count = graph.nodes;
    nodes.iter().all(|v| *v < count)
}

/// Whether the rule for edges holds for each edge.
fn are_edges_met(graph: &Graph, part: &Part) -> bool
    requires { ascends part.now.nodes ≡ true }
    ensures { IsTrue result ↔ All (IsEdgeMet part.now) graph.now.edges }
{
    let edges = graph.edges.as_slice();
    edges.iter().all(|edge| is_edge_met(part, edge))
}

/// Whether the rule for the start of the walk holds.
fn is_walk_start_met(graph: &Graph, part: &Part) -> bool
    requires { ascends part.now.nodes ≡ true }
    ensures { IsTrue result ↔ IsStartMet part.now (walk_start graph.now part.now.cycle) }
{
    is_start_met(part, walk_start(graph, part.cycle.as_slice()))
}

/// Whether the rule for via edges holds for each transition of a part.
fn are_nodes_met(graph: &Graph, part: &Part) -> bool
    requires { ascends part.now.nodes ≡ true }
    ensures { IsTrue result ↔ All (IsNodeMet graph.now part.now (walk_start graph.now part.now.cycle)) part.now.nodes }
{
    let start = walk_start(graph, part.cycle.as_slice());
    let nodes = part.nodes.as_slice();
    nodes.iter().all(|v| is_node_met(graph, part, start, *v))
}

/// Whether the rules hold for a part, but those for edges.
fn is_part_inside(graph: &Graph, part: &Part) -> bool
    requires { IsPartInRange part.now }
    ensures { IsTrue result ↔ IsPartInside graph.now part.now }
{
    if part.nodes.is_empty() || !are_lists(part) {
        return false;
    }
    if !ascends(part.nodes.as_slice()) || !are_within(graph, part) {
        return false;
    }
    if part.q == 0 || !is_lowest(part.p, part.q) {
        return false;
    }
    if !is_closed_walk(graph, part.cycle.as_slice()) || !has_ratio(graph, part) {
        return false;
    }
    if !is_walk_start_met(graph, part) {
        return false;
    }
    are_nodes_met(graph, part)
}

/// The same of each part.
fn are_parts_inside(graph: &Graph, parts: &[Part]) -> bool
    requires { All IsPartInRange parts.now }
    ensures { IsTrue result ↔ All (IsPartInside graph.now) parts.now }
{
    parts.iter().all(|part| is_part_inside(graph, part))
}

/// Whether the rules hold for a part.
fn is_part(graph: &Graph, part: &Part) -> bool
    requires { IsPartInRange part.now }
    ensures { IsTrue result ↔ IsPart graph.now part.now }
{
    is_part_inside(graph, part) && are_edges_met(graph, part)
}

/// Whether the rules hold for each part.
fn are_parts(graph: &Graph, parts: &[Part]) -> bool
    requires { All IsPartInRange parts.now }
    ensures { IsTrue result ↔ All (IsPart graph.now) parts.now }
{
    parts.iter().all(|part| is_part(graph, part))
}

/// Whether the parts stand in the order of their least transition.
fn are_in_order(parts: &[Part]) -> bool
    ensures { result ≡ ascends (map least_node parts.now) }
{
    let mut low: u64 = 0;
    let mut rest = parts;
    while let [part, after @ ..] = rest {
        let nodes = part.nodes.as_slice();
        let least = if nodes.is_empty() { 0 } else { nodes[0] };
        if u64::from(least) < low {
            return false;
        }
        low = u64::from(least) + 1;
        rest = after;
    }
    true
}

/// Whether a transition stands in exactly one part.
fn is_once(parts: &[Part], v: u32) -> bool
    requires { All (λ part. ascends part.nodes ≡ true) parts.now }
    ensures { IsTrue result ↔ (count_by (λ part. has_node part v) parts.now ≡ 1) }
{
    let mut count: usize = 0;
    for part in parts {
        if has_node(part, v) {
            count += 1;
        }
    }
    count == 1
}

/// Whether each transition stands in exactly one part.
fn is_each_once(count: u32, parts: &[Part]) -> bool
    requires { All (λ part. ascends part.nodes ≡ true) parts.now }
    ensures { IsTrue result ↔ ((v : ℕ) → v < count → count_by (λ part. has_node part v) parts.now ≡ 1) }
{
    for v in 0..count {
        if !is_once(parts, v) {
            return false;
        }
    }
    true
}

/// Whether a certificate shows the ratio of each component of a graph.
///
/// It takes no memory. Where the graph is connected, and so the certificate has one part, its time is
/// linear in the graph and the certificate. With more parts it looks at each edge and each transition
/// once for each part, and finds a transition in a part in logarithmic time. The order of the parts is
/// judged first, so that a part that stands many times costs nothing.
pub fn check(graph: &Graph, cert: &Cert) -> bool
    requires { IsInRange cert.now }
    ensures { IsTrue result ↔ Certifies graph.now cert.now }
{
    let parts = cert.parts.as_slice();
    if parts.is_empty() || !are_in_order(parts) || !are_parts(graph, parts) {
        return false;
    }
    is_each_once(graph.nodes, parts)
}

/// Whether the rules hold for all parts, where it is known which part owns each transition.
fn are_owned(graph: &Graph, parts: &[Part], owners: &[Option<u32>]) -> bool
    requires range { All IsPartInRange parts.now }
    requires owners { Owns 0 (replicate graph.now.nodes None) parts.now owners.now }
    ensures { IsTrue result ↔ AreOwned graph.now parts.now owners.now }
{
    if parts.is_empty() || !are_parts_inside(graph, parts) || !are_in_order(parts) {
        return false;
    }
    if !are_all_owned(owners) {
        return false;
    }
    are_edges_owned(graph, parts, owners)
}

/// Whether a certificate shows the ratio of each component of a graph, where it is known which part owns
/// each transition.
fn check_owned(graph: &Graph, cert: &Cert, owners: &[Option<u32>]) -> bool
    requires range { IsInRange cert.now }
    requires owners { Owns 0 (replicate graph.now.nodes None) cert.now.parts owners.now }
    ensures { IsTrue result ↔ Certifies graph.now cert.now }
{
    are_owned(graph, cert.parts.as_slice(), owners)
}

/// Whether a certificate shows the ratio of each component of a graph.
///
/// With memory for one number for each transition its time is linear in the graph and the certificate,
/// but for the finding of transitions in a part, which is logarithmic. Without, or where a transition
/// stands in two parts, it is that of [`check`].
pub fn check_by_owners(alloc: Global, graph: &Graph, cert: &Cert) -> bool
    requires { IsInRange cert.now }
    ensures { IsTrue result ↔ Certifies graph.now cert.now }
{
    match owners_of(alloc, graph, cert.parts.as_slice()) {
        Ok(Some(owners)) => check_owned(graph, cert, &owners),
        _ => check(graph, cert),
    }
}
