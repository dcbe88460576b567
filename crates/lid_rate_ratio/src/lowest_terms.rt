//! Ratios in lowest terms.

ghost use Rattle.std.specs.Prelude.{◌≡◌, ◌*◌, ◌<◌, ◌≤◌, ◌^◌, ℕ, length};
ghost use Rattle.std.specs.List.{All};
ghost use Rattle.lid_graph.specs.Walks.{edge_at, walk_tokens};
ghost use Rattle.lid_rate_ratio.specs.CycleRatios.{IsLowest};

use crate::relaxation::edge;
use lid_graph::Graph;
use lid_rate_guess::gcd;

/// A ratio in lowest terms.
#[derive(Clone, Copy)]
pub struct Ratio {
    pub p: u64,
    pub q: u64,
}

/// The ratio of a number of tokens to a number of edges, which is not 0, in lowest terms.
pub fn lowest(tokens: u64, edges: u64) -> Ratio
    requires { 0 < edges }
    ensures { IsLowest tokens edges result.p result.q }
{
    let common = gcd(tokens, edges);
    Ratio {
        p: tokens / common,
        q: edges / common,
    }
}

/// The tokens on the edges with these numbers, at most 2^18 of them with at most 16 tokens each.
pub fn tokens_on(graph: &Graph, walk: &[u32]) -> u64
    requires within { All (λ k. k < length graph.now.edges) walk.now }
    requires few { (k : ℕ) → k < length graph.now.edges → (edge_at graph.now k).tokens ≤ 16 }
    requires short { length walk.now ≤ 2 ^ 18 }
    ensures tokens { result ≡ walk_tokens graph.now walk.now }
    ensures most { result ≤ 16 * length walk.now }
{
    let mut tokens = 0;
    for k in walk {
        tokens += u64::from(edge(graph, *k).tokens);
    }
    tokens
}
