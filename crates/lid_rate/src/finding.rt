//! The search for a certificate.

ghost use Rattle.std.specs.Prelude.{◌≤◌, IfOk};
ghost use Rattle.std.specs.List.{All};
ghost use Rattle.lid_cert.specs.Certificates.{Certifies, IsInRange};
ghost use Rattle.lid_rate.specs.Grouping.{AreSorted};
ghost use Rattle.lid_graph.specs.Rateable.{IsRateable};
ghost use Rattle.lid_graph.specs.Walks.{WalksHaveTokens};
ghost use Rattle.lid_rate.specs.Rates.{IsShort, AreLabels, AreParts};
ghost use Rattle.lid_rate.specs.Exact.{IsExactPart};

use crate::grouping::{Sorted, places_of, sort};
use crate::parts::part_of;
use lid_base::Items;
use lid_cert::{Cert, Part};
use lid_graph::{Graph, components};
use std::alloc::{AllocError, Global};

/// The parts of all components, in the order of their least transitions.
fn all_parts(
    alloc: Global,
    graph: &Graph,
    least: &[u32],
    sorted: &Sorted,
) -> Result<Vec<Part>, AllocError>
    requires graph { IsRateable graph.now }
    requires labels { AreLabels graph.now least.now }
    requires sorted { AreSorted graph.now least.now sorted.now.nodes.items sorted.now.edges.items sorted.now.loops.items }
    ensures { IfOk result (λ parts. AreParts graph.now least.now graph.now.nodes parts.items) }
{
    let mut parts = Vec::new(alloc);
    for v in 0..graph.nodes {
        if least[v as usize] == v {
            let inside = places_of(&sorted.nodes, v);
            let edges = places_of(&sorted.edges, v);
            let first = sorted.loops[v as usize];
            let part = part_of(alloc, graph, inside, edges, first)?;
            parts.push(part)?;
        }
    }
    Ok(parts)
}

/// Finds a certificate of the ratio of each component of a graph: the ratio itself, the least lags, and
/// a closed walk that meets no transition twice. A graph that has a transition, is paired and has at
/// most 262,144 transitions, fewer than 524,288 edges and at most 16 tokens on an edge has one. No
/// ratio is 0 where each closed walk has a token. The text of the certificate has at most 11 bytes, and 139
/// for each transition.
///
/// # Errors
/// Where there is no memory.
pub fn find(alloc: Global, graph: &Graph) -> Result<Cert, AllocError>
    requires { IsRateable graph.now }
    ensures certifies { IfOk result (Certifies graph.now) }
    ensures exact { IfOk result (λ cert. All (IsExactPart graph.now) cert.parts) }
    ensures in_range { IfOk result IsInRange }
    ensures short { IfOk result (IsShort graph.now) }
    ensures positive { IfOk result (λ cert. WalksHaveTokens graph.now → All (λ part. 1 ≤ part.p) cert.parts) }
{
    let least = components(alloc, graph)?;
    let labels = least.as_slice();
    let sorted = sort(alloc, graph, labels)?;
    let parts = all_parts(alloc, graph, labels, &sorted)?;
    Ok(Cert {
        parts: Items::from_vec(parts),
    })
}
