//! A guess of the ratio of a graph, of a closed walk that has it, and of the lags.

use crate::fans::{Direction, fans_of};
use crate::lags::{Settling, heap_by_values, lags_of, settle};
use crate::policy::{Cycle, first_choices, least_cycle};
use crate::tables::{edge_at, get};
use crate::values::{Policy, Search, Ways, evaluate, improve, new_search};
use lid_base::Items;
use lid_graph::Graph;
use std::alloc::{AllocError, Global};

/// What is guessed of a graph. The lists have one entry for each transition, if the guess is a good one.
#[derive(Drop)]
pub struct Guess {
    /// The edges of a closed walk of least ratio.
    pub walk: Items<u32>,
    /// The greatest p*edges - q*tokens over the walks that end at the transition.
    pub lags: Items<u64>,
    /// Where the lag is not 0, the last edge of such a walk.
    pub tight: Items<Option<u32>>,
    /// Numbers that rise along those edges.
    pub ranks: Items<u32>,
    /// How many rounds of policy iteration it took: at most `MOST_ROUNDS`, after which the guess may be wrong.
    pub rounds: u32,
}

/// After so many rounds policy iteration gives up, so that it ends. Of the graphs that were tried none takes 100.
pub(crate) const MOST_ROUNDS: u32 = 4_096;

/// A policy, and a closed walk of it.
#[derive(Drop)]
pub(crate) struct Plan {
    pub(crate) policy: Policy,
    pub(crate) cycle: Cycle,
    pub(crate) rounds: u32,
}

/// Makes all marks 0.
pub(crate) fn clear(marks: &mut [u32]) {
    for k in 0..marks.len() {
        marks[k] = 0;
    }
}

/// Evaluates and improves the policy until no value falls. Answers its closed walk of least ratio.
fn iterate(policy: &mut Policy, search: &mut Search, marks: &mut [u32], ways: Ways<'_>) -> Cycle {
    let mut cycle = least_cycle(marks, ways.edges, &policy.choices);
    for _ in 0..MOST_ROUNDS {
        evaluate(search, policy, ways, cycle);
        if !improve(search, policy, ways, cycle) {
            return cycle;
        }
        clear(marks);
        cycle = least_cycle(marks, ways.edges, &policy.choices);
    }
    cycle
}

/// The closed walk of a policy that was improved as far as can be, and after how many rounds.
fn improved(alloc: Global, policy: &mut Policy, graph: &Graph) -> Result<(Cycle, u32), AllocError> {
    let fans = fans_of(alloc, graph, Direction::In)?;
    let mut search = new_search(alloc, graph)?;
    let mut marks = Vec::from_elem(alloc, 0, graph.nodes as usize)?;
    let ways = Ways {
        edges: graph.edges.as_slice(),
        fans: &fans,
    };
    let cycle = iterate(policy, &mut search, &mut marks, ways);
    Ok((cycle, search.round))
}

/// The policy of the fewest tokens.
pub(crate) fn first_policy(alloc: Global, graph: &Graph) -> Result<Policy, AllocError> {
    let choices = first_choices(alloc, graph)?;
    let values = Vec::from_elem(alloc, 0, graph.nodes as usize)?;
    Ok(Policy { choices, values })
}

/// The best policy that was found, and its closed walk.
fn plan_of(alloc: Global, graph: &Graph) -> Result<Plan, AllocError> {
    let mut policy = first_policy(alloc, graph)?;
    let (cycle, rounds) = improved(alloc, &mut policy, graph)?;
    Ok(Plan {
        policy,
        cycle,
        rounds,
    })
}

/// The edges of the closed walk.
pub(crate) fn walk_of(alloc: Global, graph: &Graph, plan: &Plan) -> Result<Vec<u32>, AllocError> {
    let edges = graph.edges.as_slice();
    let mut walk = Vec::new(alloc);
    let mut at = plan.cycle.start;
    for _ in 0..plan.cycle.edges {
        let k = get(&plan.policy.choices, at, 0);
        walk.push(k)?;
        at = edge_at(edges, k).to;
    }
    Ok(walk)
}

/// The lags, and how they were settled.
fn settled(alloc: Global, graph: &Graph, plan: &Plan) -> Result<(Vec<u64>, Settling), AllocError> {
    let mut heap = heap_by_values(alloc, graph, plan)?;
    let settling = settle(alloc, graph, &mut heap, plan)?;
    let lags = lags_of(alloc, &heap, plan)?;
    Ok((lags, settling))
}

/// Guesses the ratio of a connected graph by Howard's policy iteration, and the lags by Dijkstra's
/// search. It says nothing of what it answers: test it.
///
/// # Errors
/// Where there is no memory.
pub fn propose(alloc: Global, graph: &Graph) -> Result<Guess, AllocError> {
    let plan = plan_of(alloc, graph)?;
    let walk = walk_of(alloc, graph, &plan)?;
    let (lags, settling) = settled(alloc, graph, &plan)?;
    let Settling { tight, ranks } = settling;
    Ok(Guess {
        walk: Items::from_vec(walk),
        lags: Items::from_vec(lags),
        tight: Items::from_vec(tight),
        ranks: Items::from_vec(ranks),
        rounds: plan.rounds,
    })
}
