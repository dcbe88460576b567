//! The test of a guess: whether its walk is closed and its lags are the least, so that the ratio of the
//! walk is that of the graph. It looks at each edge and each transition once.

ghost use Rattle.std.specs.Prelude.{◌≡◌, ℕ, ◌+◌, ◌*◌, ◌<◌, ◌≤◌, ◌^◌, ◌↔◌, length, slice_index, IsNone, IsTrue, IfOk, IfSome};
ghost use Rattle.std.specs.List.{All};
ghost use Rattle.lid_graph.specs.Walks.{edge_at};
ghost use Rattle.lid_rate_ratio.specs.Relaxation.{AreAtMost, IsMet};
ghost use Rattle.lid_rate_ratio.specs.Components.{IsSmallGraph, IsCycle, HasRate};
ghost use Rattle.lid_rate_ratio.specs.Tests.{LeadsOn, IsSeenRound, IsTight, IsShown, AreShown, IsRightGuess};

use crate::lowest_terms::{Ratio, lowest, tokens_on};
use crate::relaxation::edge;
use lid_graph::{Edge, Graph, walk_start};
use lid_rate_guess::Guess;
use std::alloc::{AllocError, Global};

/// The largest lag that is taken.
pub(crate) const MOST_LAG: u64 = 1 << 60;

/// Whether the edges lead from a transition to itself, each to a transition that was not seen before.
fn is_round(graph: &Graph, walk: &[u32], seen: &mut [bool], start: u32) -> bool
    requires seen { length seen.old ≡ graph.now.nodes }
    requires ends { (k : ℕ) → k < length graph.now.edges → (edge_at graph.now k).to < graph.now.nodes }
    ensures { IsTrue result ↔ LeadsOn graph.now start seen.old walk.now start }
{
    let mut at = start;
    for k in walk {
        if *k as usize >= graph.edges.len() {
            return false;
        }
        let along = edge(graph, *k);
        if along.from != at || seen[along.to as usize] {
            return false;
        }
        seen[along.to as usize] = true;
        at = along.to;
    }
    at == start
}

/// Whether edges make a closed walk that meets no transition twice.
fn is_cycle(alloc: Global, graph: &Graph, walk: &[u32]) -> Result<bool, AllocError>
    requires { IsSmallGraph graph.now }
    ensures { IfOk result (λ closed. IsTrue closed ↔ IsSeenRound graph.now walk.now) }
{
    let mut seen = Vec::from_elem(alloc, false, graph.nodes as usize)?;
    let start = walk_start(graph, walk);
    Ok(is_round(graph, walk, &mut seen, start))
}

/// The ratio of a closed walk that meets no transition twice, or none where the edges are no such walk.
pub(crate) fn ratio_of(
    alloc: Global,
    graph: &Graph,
    walk: &[u32],
) -> Result<Option<Ratio>, AllocError>
    requires { IsSmallGraph graph.now }
    ensures some { IfOk result (λ found. IfSome found (λ ratio. IsCycle graph.now ratio.p ratio.q walk.now)) }
    ensures none { IfOk result (λ found. IsNone found → 0 < length walk.now → length walk.now ≤ graph.now.nodes → IsSeenRound graph.now walk.now → ⊥) }
{
    if walk.len() == 0 || walk.len() > graph.nodes as usize {
        return Ok(None);
    }
    if !is_cycle(alloc, graph, walk)? {
        return Ok(None);
    }
    Ok(Some(lowest(tokens_on(graph, walk), walk.len() as u64)))
}

/// Whether no number is above a bound.
pub(crate) fn are_at_most(numbers: &[u64], most: u64) -> bool
    ensures { IsTrue result ↔ All (λ n. n ≤ most) numbers.now }
{
    numbers.iter().all(|n| *n <= most)
}

/// Whether the lag at the end of an edge is as large as it asks.
fn is_met(edge: Edge, lags: &[u64], ratio: Ratio) -> bool
    requires from { edge.from < length lags.now }
    requires to { edge.to < length lags.now }
    requires small { AreAtMost lags.now (2 ^ 60) }
    requires p { ratio.p ≤ 2 ^ 22 }
    requires q { ratio.q ≤ 2 ^ 18 }
    requires tokens { edge.tokens ≤ 16 }
    ensures { IsTrue result ↔ (slice_index lags.now edge.from + ratio.p ≤ slice_index lags.now edge.to + ratio.q * edge.tokens) }
{
    let taken = ratio.q * u64::from(edge.tokens);
    lags[edge.from as usize] + ratio.p <= lags[edge.to as usize] + taken
}

/// Whether the lags are as large as the edges ask.
pub(crate) fn are_met(graph: &Graph, lags: &[u64], ratio: Ratio) -> bool
    requires graph { IsSmallGraph graph.now }
    requires count { length lags.now ≡ graph.now.nodes }
    requires small { AreAtMost lags.now (2 ^ 60) }
    requires p { ratio.p ≤ 2 ^ 22 }
    requires q { ratio.q ≤ 2 ^ 18 }
    ensures { IsTrue result ↔ ((k : ℕ) → k < length graph.now.edges → IsMet graph.now ratio.p ratio.q lags.now lags.now k) }
{
    for k in 0..graph.edges.len() {
        if !is_met(edge(graph, k as u32), lags, ratio) {
            return false;
        }
    }
    true
}

/// Whether an edge shows the lag of a transition.
fn is_tight(graph: &Graph, lags: &[u64], ranks: &[u32], ratio: Ratio, v: u32, k: u32) -> bool
    requires graph { IsSmallGraph graph.now }
    requires lags { length lags.now ≡ graph.now.nodes }
    requires ranks { length ranks.now ≡ graph.now.nodes }
    requires within { v < graph.now.nodes }
    requires small { AreAtMost lags.now (2 ^ 60) }
    requires p { ratio.p ≤ 2 ^ 22 }
    requires q { ratio.q ≤ 2 ^ 18 }
    ensures { IsTrue result ↔ IsTight graph.now ratio.p ratio.q lags.now ranks.now v k }
{
    if k as usize >= graph.edges.len() {
        return false;
    }
    let along = edge(graph, k);
    if along.to != v || ranks[along.from as usize] >= ranks[v as usize] {
        return false;
    }
    let taken = ratio.q * u64::from(along.tokens);
    lags[along.from as usize] + ratio.p == lags[v as usize] + taken
}

/// Whether the lag of a transition is 0, or an edge shows it.
fn is_shown(graph: &Graph, guess: &Guess, ratio: Ratio, v: u32) -> bool
    requires graph { IsSmallGraph graph.now }
    requires lags { length guess.now.lags ≡ graph.now.nodes }
    requires ranks { length guess.now.ranks ≡ graph.now.nodes }
    requires tight { length guess.now.tight ≡ graph.now.nodes }
    requires within { v < graph.now.nodes }
    requires small { AreAtMost guess.now.lags (2 ^ 60) }
    requires p { ratio.p ≤ 2 ^ 22 }
    requires q { ratio.q ≤ 2 ^ 18 }
    ensures { IsTrue result ↔ IsShown graph.now ratio.p ratio.q guess.now.lags guess.now.ranks guess.now.tight v }
{
    let lags = guess.lags.as_slice();
    match guess.tight.as_slice()[v as usize] {
        Some(k) => is_tight(graph, lags, guess.ranks.as_slice(), ratio, v, k),
        None => lags[v as usize] == 0,
    }
}

/// Whether each lag is 0, or an edge shows it.
fn are_all_shown(graph: &Graph, guess: &Guess, ratio: Ratio) -> bool
    requires graph { IsSmallGraph graph.now }
    requires lags { length guess.now.lags ≡ graph.now.nodes }
    requires ranks { length guess.now.ranks ≡ graph.now.nodes }
    requires tight { length guess.now.tight ≡ graph.now.nodes }
    requires small { AreAtMost guess.now.lags (2 ^ 60) }
    requires p { ratio.p ≤ 2 ^ 22 }
    requires q { ratio.q ≤ 2 ^ 18 }
    ensures { IsTrue result ↔ ((v : ℕ) → v < graph.now.nodes → IsShown graph.now ratio.p ratio.q guess.now.lags guess.now.ranks guess.now.tight v) }
{
    for v in 0..graph.nodes {
        if !is_shown(graph, guess, ratio, v) {
            return false;
        }
    }
    true
}

/// Whether the lags of a guess are the least at a ratio, as its edges and ranks show.
fn are_shown(graph: &Graph, guess: &Guess, ratio: Ratio) -> bool
    requires graph { IsSmallGraph graph.now }
    requires p { ratio.p ≤ 2 ^ 22 }
    requires q { ratio.q ≤ 2 ^ 18 }
    ensures { IsTrue result ↔ AreShown graph.now ratio.p ratio.q guess.now.lags guess.now.ranks guess.now.tight }
{
    let count = graph.nodes as usize;
    if guess.lags.len() != count || guess.ranks.len() != count || guess.tight.len() != count {
        return false;
    }
    if !are_at_most(guess.lags.as_slice(), MOST_LAG)
        || !are_met(graph, guess.lags.as_slice(), ratio)
    {
        return false;
    }
    are_all_shown(graph, guess, ratio)
}

/// The ratio of a graph, where a guess shows it. None only where it does not.
///
/// # Errors
/// Where there is no memory.
pub fn judge(alloc: Global, graph: &Graph, guess: &Guess) -> Result<Option<Ratio>, AllocError>
    requires { IsSmallGraph graph.now }
    ensures some { IfOk result (λ found. IfSome found (λ ratio. HasRate graph.now ratio.p ratio.q guess.now.walk guess.now.lags)) }
    ensures none { IfOk result (λ found. IsNone found → IsRightGuess graph.now guess.now → ⊥) }
{
    let Some(ratio) = ratio_of(alloc, graph, guess.walk.as_slice())? else {
        return Ok(None);
    };
    if are_shown(graph, guess, ratio) {
        Ok(Some(ratio))
    } else {
        Ok(None)
    }
}
