//! The rules for a part, one by one.

ghost use Rattle.std.specs.Prelude.{◌≡◌, ◌*◌, ◌<◌, ◌≤◌, ◌^◌, ◌↔◌, true, IsTrue, length};
ghost use Rattle.std.specs.Int.{IsGcd};
ghost use Rattle.lid_graph.specs.Walks.{walk_tokens};
ghost use Rattle.lid_cert.specs.Certificates.{ascends, AreLists, IsEdgeMet, IsStartMet, IsVia, IsNodeMet, IsPartInRange};

use crate::cert::Part;
use crate::places::{depth_of, has_node, lag_at, lead_of, via_of};
use lid_graph::{Edge, Graph};

/// A product. It can't overflow.
fn product(a: u64, b: u64) -> u128
    ensures value { result ≡ a * b }
    ensures small { result ≤ 18446744073709551615 * 18446744073709551615 }
{
    u128::from(a) * u128::from(b)
}

/// Whether two numbers have no common factor.
pub(crate) fn is_lowest(p: u64, q: u64) -> bool
    ensures { IsTrue result ↔ IsGcd p q 1 }
{
    let mut x = p;
    let mut y = q;
    while y != 0 {
        let rest = x % y;
        x = y;
        y = rest;
    }
    x == 1
}

/// Whether each list of a part has one entry for each transition.
pub(crate) fn are_lists(part: &Part) -> bool
    ensures { IsTrue result ↔ AreLists part.now }
{
    let count = part.nodes.len();
    part.lag.len() == count
        && part.lead.len() == count
        && part.via.len() == count
        && part.depth.len() == count
}

/// The tokens on the edges of a walk. A number that is no edge's counts for nothing.
pub(crate) fn walk_tokens(graph: &Graph, walk: &[u32]) -> u128
    ensures value { result ≡ walk_tokens graph.now walk.now }
    ensures small { result ≤ 4294967295 * length walk.now }
{
    let edges = graph.edges.as_slice();
    let mut tokens: u128 = 0;
    let mut rest = walk;
    while let [number, after @ ..] = rest {
        let number = *number as usize;
        if number < edges.len() {
            tokens += u128::from(edges[number].tokens);
        }
        rest = after;
    }
    tokens
}

/// Whether the walk of a part has the ratio of the part.
pub(crate) fn has_ratio(graph: &Graph, part: &Part) -> bool
    requires { IsPartInRange part.now }
    ensures { IsTrue result ↔ (walk_tokens graph.now part.now.cycle * part.now.q ≡ part.now.p * length part.now.cycle) }
{
    let walk = part.cycle.as_slice();
    walk_tokens(graph, walk) * u128::from(part.q) == product(part.p, walk.len() as u64)
}

/// Whether an edge stays in the part or out of it, and the lag at its end is as large as it asks.
pub(crate) fn is_edge_met(part: &Part, edge: &Edge) -> bool
    requires { ascends part.now.nodes ≡ true }
    ensures { IsTrue result ↔ IsEdgeMet part.now edge.now }
{
    let tokens = u64::from(edge.tokens);
    match (lag_at(part, edge.from), lag_at(part, edge.to)) {
        (Some(from), Some(to)) => {
            u128::from(from) + u128::from(part.p) <= u128::from(to) + product(part.q, tokens)
        }
        (None, None) => true,
        _ => false,
    }
}

/// Whether the rule holds for the transition where the walk starts.
pub(crate) fn is_start_met(part: &Part, start: u32) -> bool
    requires { ascends part.now.nodes ≡ true }
    ensures { IsTrue result ↔ IsStartMet part.now start }
{
    let further = part.cycle.len().saturating_sub(1) as u64;
    has_node(part, start)
        && depth_of(part, start) == 0
        && via_of(part, start).is_none()
        && product(part.q, further) <= u128::from(lead_of(part, start)) + product(part.p, further)
}

/// Whether an edge may be the via edge of a transition.
fn is_via(graph: &Graph, part: &Part, v: u32, number: u32) -> bool
    requires { ascends part.now.nodes ≡ true }
    ensures { IsTrue result ↔ IsVia graph.now part.now v number }
{
    let edges = graph.edges.as_slice();
    if number as usize >= edges.len() {
        return false;
    }
    let edge = edges[number as usize];
    edge.to == v
        && has_node(part, edge.from)
        && depth_of(part, edge.from) < depth_of(part, v)
        && u128::from(lead_of(part, edge.from)) + product(part.q, u64::from(edge.tokens))
            <= u128::from(lead_of(part, v))
}

/// Whether a transition is the start or has a via edge.
pub(crate) fn is_node_met(graph: &Graph, part: &Part, start: u32, v: u32) -> bool
    requires { ascends part.now.nodes ≡ true }
    ensures { IsTrue result ↔ IsNodeMet graph.now part.now start v }
{
    if v == start {
        return true;
    }
    match via_of(part, v) {
        Some(number) => is_via(graph, part, v, number),
        None => false,
    }
}
