//! The ratio of a graph whose transitions are all joined, and its lags: by a guess that is tested, and
//! by a search where the test fails.

ghost use Rattle.std.specs.Prelude.{◌≡◌, ◌<◌, ◌^◌, length, IfOk};
ghost use Rattle.lid_rate_ratio.specs.Components.{IsSmallGraph, IsLoop, HasRate};
ghost use Rattle.lid_rate_ratio.specs.Numbers.{AreAllNumbers};
ghost use Rattle.lid_rate_ratio.specs.Tests.{IsRightGuess};

use crate::cycle_ratio::{Rate, least_ratio};
use crate::judging::judge;
use crate::lowest_terms::Ratio;
use lid_graph::Graph;
use lid_rate_guess::{Guess, propose};
use std::alloc::{AllocError, Global};

/// The numbers below a count, in order.
///
/// # Errors
/// Where there is no memory.
pub(crate) fn numbers(alloc: Global, count: usize) -> Result<Vec<u32>, AllocError>
    requires { count < 2 ^ 32 }
    ensures { IfOk result (λ all. AreAllNumbers count all.items) }
{
    let mut all = Vec::with_capacity(alloc, count)?;
    for k in 0..count {
        all.push(k as u32)?;
    }
    Ok(all)
}

/// The ratio and the lags, searched by Bellman and Ford's relaxations.
fn search(alloc: Global, graph: &Graph, first: u32) -> Result<Rate, AllocError>
    requires graph { IsSmallGraph graph.now }
    requires first { IsLoop graph.now first }
    ensures { IfOk result (λ rate. HasRate graph.now rate.ratio.p rate.ratio.q rate.walk rate.lags) }
{
    let all = numbers(alloc, graph.edges.len())?;
    least_ratio(alloc, graph, &all, first)
}

/// The walk and the lags of a guess.
fn taken(ratio: Ratio, guess: Guess) -> Rate
    ensures ratio { result.ratio ≡ ratio }
    ensures walk { result.walk ≡ guess.walk }
    ensures lags { result.lags ≡ guess.lags }
{
    let Guess { walk, lags, .. } = guess;
    Rate { ratio, walk, lags }
}

/// The rate that a guess shows, or, where it shows none, the one that is searched. Any guess will do, and
/// a good one saves the search. `first` is an edge from a transition to itself, with one token.
///
/// # Errors
/// Where there is no memory.
pub fn rate_by(alloc: Global, graph: &Graph, first: u32, guess: Guess) -> Result<Rate, AllocError>
    requires graph { IsSmallGraph graph.now }
    requires first { IsLoop graph.now first }
    ensures is { IfOk result (λ rate. HasRate graph.now rate.ratio.p rate.ratio.q rate.walk rate.lags) }
    ensures taken { IfOk result (λ rate. IsRightGuess graph.now guess → (rate.walk ≡ guess.walk) × (rate.lags ≡ guess.lags)) }
{
    match judge(alloc, graph, &guess)? {
        Some(ratio) => Ok(taken(ratio, guess)),
        None => search(alloc, graph, first),
    }
}

/// The least ratio of the closed walks of a graph, one that has it, and the lags. `first` is an edge
/// from a transition to itself, with one token.
///
/// # Errors
/// Where there is no memory.
pub fn rate_of(alloc: Global, graph: &Graph, first: u32) -> Result<Rate, AllocError>
    requires graph { IsSmallGraph graph.now }
    requires first { IsLoop graph.now first }
    ensures { IfOk result (λ rate. HasRate graph.now rate.ratio.p rate.ratio.q rate.walk rate.lags) }
{
    let guess = propose(alloc, graph)?;
    rate_by(alloc, graph, first, guess)
}
