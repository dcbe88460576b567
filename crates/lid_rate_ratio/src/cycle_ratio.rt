//! The least ratio of the closed walks of a component, and the lags.

ghost use Rattle.std.specs.Prelude.{◌≡◌, ◌∷◌, [], ◌<◌, ◌≤◌, ◌^◌, length, IfOk};
ghost use Rattle.lid_rate_ratio.specs.Relaxation.{AreEdges};
ghost use Rattle.lid_rate_ratio.specs.CycleRatios.{IsRate, IsOneTokenLoop};

use crate::bellman_ford::{Settled, find_potentials};
use crate::lowest_terms::{Ratio, lowest, tokens_on};
use lid_base::Items;
use lid_graph::Graph;
use std::alloc::{AllocError, Global};

/// The ratio of a component, a closed walk that has it, and the lags.
#[derive(Drop)]
pub struct Rate {
    pub ratio: Ratio,
    pub walk: Items<u32>,
    pub lags: Items<u64>,
}

/// A list of one edge.
fn single(alloc: Global, k: u32) -> Result<Items<u32>, AllocError>
    ensures { IfOk result (λ walk. walk ≡ k ∷ []) }
{
    let mut walk = Vec::new(alloc);
    walk.push(k)?;
    Ok(Items::from_vec(walk))
}

/// The ratio of the closed walks on these edges, of which `first` is one with one token.
///
/// # Errors
/// Where there is no memory.
pub(crate) fn least_ratio(
    alloc: Global,
    graph: &Graph,
    edges: &[u32],
    first: u32,
) -> Result<Rate, AllocError>
    requires edges { AreEdges graph.now edges.now }
    requires nodes { graph.now.nodes ≤ 2 ^ 18 }
    requires few { length edges.now ≤ 2 ^ 19 }
    requires first { IsOneTokenLoop graph.now edges.now first }
    ensures { IfOk result (λ rate. IsRate graph.now edges.now rate.ratio.p rate.ratio.q rate.walk rate.lags) }
{
    let mut walk = single(alloc, first)?;
    let mut ratio = Ratio { p: 1, q: 1 };
    'search: loop {
        match find_potentials(alloc, graph, edges, ratio.p, ratio.q)? {
            Settled::Lags(lags) => return Ok(Rate { ratio, walk, lags }),
            Settled::Lower(lower) => {
                ratio = lowest(tokens_on(graph, lower.as_slice()), lower.len() as u64);
                walk = lower;
            }
        }
    }
}
