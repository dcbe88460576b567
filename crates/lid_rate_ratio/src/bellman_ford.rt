//! Bellman and Ford's search at a ratio: the potentials of the transitions, which are their lags, or a
//! closed walk of lower ratio.

ghost use Rattle.std.specs.Prelude.{◌≡◌, ◌<◌, ◌≤◌, ◌^◌, length, replicate, None, IfOk};
ghost use Rattle.lid_rate_ratio.specs.Relaxation.{AreEdges};
ghost use Rattle.lid_rate_ratio.specs.BellmanFord.{SettlesLags};

use crate::cycles::{Followed, follow_predecessors};
use crate::relaxation::{Potentials, relax_all};
use lid_base::Items;
use lid_graph::Graph;
use std::alloc::{AllocError, Global};

/// What comes of relaxing edges at a ratio.
#[derive(Drop)]
pub(crate) enum Settled {
    /// No edge asks for more. The potentials are the lags.
    Lags(Items<u64>),
    /// A closed walk of lower ratio.
    Lower(Items<u32>),
}

/// The potentials before the first edge is relaxed.
fn start(alloc: Global, nodes: u32) -> Result<Potentials, AllocError>
    ensures values { IfOk result (λ potentials. potentials.values.items ≡ replicate nodes 0) }
    ensures predecessors { IfOk result (λ potentials. potentials.predecessors.items ≡ replicate nodes None) }
{
    let values = Vec::from_elem(alloc, 0, nodes as usize)?;
    let predecessors = Vec::from_elem(alloc, None, nodes as usize)?;
    Ok(Potentials {
        values,
        predecessors,
    })
}

/// Relaxes the edges from potentials 0 on, by `p` less `q` for each token, until no edge asks for more or
/// the edges of predecessors close.
///
/// # Errors
/// Where there is no memory.
pub(crate) fn find_potentials(
    alloc: Global,
    graph: &Graph,
    edges: &[u32],
    p: u64,
    q: u64,
) -> Result<Settled, AllocError>
    requires edges { AreEdges graph.now edges.now }
    requires nodes { graph.now.nodes ≤ 2 ^ 18 }
    requires few { length edges.now ≤ 2 ^ 19 }
    requires p { p ≤ 2 ^ 22 }
    requires q { q ≤ 2 ^ 18 }
    ensures { IfOk result (SettlesLags graph.now edges.now p q) }
{
    let mut potentials = start(alloc, graph.nodes)?;
    let mut rounds: u32 = 0;
    loop {
        let Some(grown) = relax_all(&mut potentials, graph, edges, p, q) else {
            return Ok(Settled::Lags(Items::from_vec(potentials.values)));
        };
        match follow_predecessors(alloc, graph, &potentials.predecessors, grown)? {
            Followed::Closes(walk) => return Ok(Settled::Lower(walk)),
            Followed::Ends(_) => rounds += 1,
        }
    }
}
