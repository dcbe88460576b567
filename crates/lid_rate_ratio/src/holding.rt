//! Whether no closed walk of a graph has a ratio below p/q.

ghost use Rattle.std.specs.Prelude.{◌≡◌, ◌*◌, ◌<◌, ◌≤◌, ◌^◌, ◌↔◌, length, IsTrue, IfOk};
ghost use Rattle.lid_rate_ratio.specs.Components.{IsSmallGraph};
ghost use Rattle.lid_rate_ratio.specs.declared.holding.Bound.TheVariants.{At};
ghost use Rattle.lid_rate_ratio.specs.Bounds.{MeetRule, IsLowerWalk, Bounds};

use crate::bellman_ford::{Settled, find_potentials};
use crate::judging::{MOST_LAG, are_at_most, are_met, ratio_of};
use crate::lowest_terms::Ratio;
use crate::rating::numbers;
use lid_base::Items;
use lid_graph::Graph;
use lid_rate_guess::{Labels, propose_labels};
use std::alloc::{AllocError, Global};

/// What holds of the closed walks of a graph at a ratio.
#[derive(Drop)]
pub enum Bound {
    /// None has a lower one: these labels meet the rule for lags at every edge.
    At(Items<u64>),
    /// This one has a lower one.
    Lower(Items<u32>),
}

/// Whether labels meet the rule for lags at every edge.
fn meet_rule(graph: &Graph, labels: &[u64], ratio: Ratio) -> bool
    requires graph { IsSmallGraph graph.now }
    requires p { ratio.p ≤ 2 ^ 22 }
    requires q { ratio.q ≤ 2 ^ 18 }
    ensures { IsTrue result ↔ MeetRule graph.now ratio.p ratio.q labels.now }
{
    if labels.len() != graph.nodes as usize || !are_at_most(labels, MOST_LAG) {
        return false;
    }
    are_met(graph, labels, ratio)
}

/// Whether edges make a closed walk of lower ratio.
fn is_lower(alloc: Global, graph: &Graph, walk: &[u32], aim: Ratio) -> Result<bool, AllocError>
    requires graph { IsSmallGraph graph.now }
    requires p { aim.p ≤ 2 ^ 22 }
    requires q { aim.q ≤ 2 ^ 18 }
    ensures { IfOk result (λ lower. IsTrue lower → IsLowerWalk graph.now aim.p aim.q walk.now) }
{
    let Some(ratio) = ratio_of(alloc, graph, walk)? else {
        return Ok(false);
    };
    Ok(u128::from(aim.q) * u128::from(ratio.p) < u128::from(aim.p) * u128::from(ratio.q))
}

/// The answer that is searched by relaxations.
fn search_bound(alloc: Global, graph: &Graph, aim: Ratio) -> Result<Bound, AllocError>
    requires graph { IsSmallGraph graph.now }
    requires p { aim.p ≤ 2 ^ 22 }
    requires q { aim.q ≤ 2 ^ 18 }
    ensures { IfOk result (Bounds graph.now aim.p aim.q) }
{
    let all = numbers(alloc, graph.edges.len())?;
    match find_potentials(alloc, graph, &all, aim.p, aim.q)? {
        Settled::Lags(lags) => Ok(Bound::At(lags)),
        Settled::Lower(walk) => Ok(Bound::Lower(walk)),
    }
}

/// The answer that a guess shows, or, where it shows none, the one that is searched. Any guess will do,
/// and a good one saves the search.
///
/// # Errors
/// Where there is no memory.
pub fn holds_by(
    alloc: Global,
    graph: &Graph,
    aim: Ratio,
    guess: Labels,
) -> Result<Bound, AllocError>
    requires graph { IsSmallGraph graph.now }
    requires p { aim.p ≤ 2 ^ 22 }
    requires q { aim.q ≤ 2 ^ 18 }
    ensures is { IfOk result (Bounds graph.now aim.p aim.q) }
    ensures taken { IfOk result (λ b. MeetRule graph.now aim.p aim.q guess.labels → b ≡ At guess.labels) }
{
    if meet_rule(graph, guess.labels.as_slice(), aim) {
        let Labels { labels, .. } = guess;
        return Ok(Bound::At(labels));
    }
    if is_lower(alloc, graph, guess.walk.as_slice(), aim)? {
        let Labels { walk, .. } = guess;
        return Ok(Bound::Lower(walk));
    }
    search_bound(alloc, graph, aim)
}

/// Whether no closed walk of a graph has a ratio below p/q: labels that show it, or a closed walk of lower
/// ratio. It begins with the labels of `hint`, of any length: with those of an earlier answer for nearly
/// the same graph it looks at little more than what has changed.
///
/// # Errors
/// Where there is no memory.
pub fn holds(alloc: Global, graph: &Graph, aim: Ratio, hint: &[u64]) -> Result<Bound, AllocError>
    requires graph { IsSmallGraph graph.now }
    requires p { aim.p ≤ 2 ^ 22 }
    requires q { aim.q ≤ 2 ^ 18 }
    ensures { IfOk result (Bounds graph.now aim.p aim.q) }
{
    let guess = propose_labels(alloc, graph, aim.p, aim.q, hint)?;
    holds_by(alloc, graph, aim, guess)
}
