//! A guess of labels that meet the rule for lags at a ratio, or of a closed walk of lower ratio.

use crate::fans::{Direction, fans_of};
use crate::guess::{MOST_ROUNDS, Plan, clear, first_policy, walk_of};
use crate::policy::{Cycle, STOP, least_cycle};
use crate::queue::{Aim, new_queue, raise_all};
use crate::tables::{get, put};
use crate::values::{Policy, Search, Ways, evaluate, improve, new_search};
use lid_base::Items;
use lid_graph::Graph;
use std::alloc::{AllocError, Global};

/// What is guessed of a graph at a ratio.
#[derive(Drop)]
pub struct Labels {
    /// For each transition a label.
    pub labels: Items<u64>,
    /// The edges of a closed walk of lower ratio, where there is one.
    pub walk: Items<u32>,
}

/// The first labels of a list, and 0 for further transitions.
fn padded(alloc: Global, hint: &[u64], count: u32) -> Result<Vec<u64>, AllocError> {
    let mut labels = Vec::with_capacity(alloc, count as usize)?;
    for v in 0..count {
        labels.push(get(hint, v, 0))?;
    }
    Ok(labels)
}

/// Raises labels by a queue. Answers whether no edge asks for more.
fn repair(alloc: Global, graph: &Graph, labels: &mut [u64], aim: Aim) -> Result<bool, AllocError> {
    let fans = fans_of(alloc, graph, Direction::Out)?;
    let mut queue = new_queue(alloc, graph)?;
    Ok(raise_all(labels, &mut queue, &fans, graph.edges.as_slice(), aim))
}

/// A closed walk that is none.
fn no_cycle() -> Cycle {
    Cycle {
        start: 0,
        tokens: 0,
        edges: 0,
    }
}

/// Improves a policy at a ratio until no value falls, or its choices close: then their walk is of lower
/// ratio.
fn improve_at(
    policy: &mut Policy,
    search: &mut Search,
    marks: &mut [u32],
    ways: Ways<'_>,
    aim: Aim,
) -> Cycle {
    let ratio = Cycle {
        start: u32::MAX,
        tokens: aim.p,
        edges: aim.q,
    };
    for _ in 0..MOST_ROUNDS {
        evaluate(search, policy, ways, ratio);
        if !improve(search, policy, ways, ratio) {
            return no_cycle();
        }
        clear(marks);
        let cycle = least_cycle(marks, ways.edges, &policy.choices);
        if cycle.edges != 0 {
            return cycle;
        }
    }
    no_cycle()
}

/// The same with what it needs, and after how many rounds.
fn settle_at(
    alloc: Global,
    policy: &mut Policy,
    graph: &Graph,
    aim: Aim,
) -> Result<(Cycle, u32), AllocError> {
    let fans = fans_of(alloc, graph, Direction::In)?;
    let mut search = new_search(alloc, graph)?;
    let mut marks = Vec::from_elem(alloc, 0, graph.nodes as usize)?;
    let ways = Ways {
        edges: graph.edges.as_slice(),
        fans: &fans,
    };
    let cycle = improve_at(policy, &mut search, &mut marks, ways, aim);
    Ok((cycle, search.round))
}

/// The least of some values.
fn least_of(values: &[u64]) -> u64 {
    let mut least = u64::MAX;
    for value in values {
        if *value < least {
            least = *value;
        }
    }
    least
}

/// The labels that values make: their distance from the least.
fn labels_of(alloc: Global, plan: &Plan) -> Result<Vec<u64>, AllocError> {
    let least = least_of(&plan.policy.values);
    let mut labels = Vec::new(alloc);
    for value in plan.policy.values.as_slice() {
        labels.push(value.wrapping_sub(least))?;
    }
    Ok(labels)
}

/// A policy whose choices stop at transition 0, settled at a ratio.
fn plan_at(alloc: Global, graph: &Graph, aim: Aim) -> Result<Plan, AllocError> {
    let mut policy = first_policy(alloc, graph)?;
    put(&mut policy.choices, 0, STOP);
    let (cycle, rounds) = settle_at(alloc, &mut policy, graph, aim)?;
    Ok(Plan {
        policy,
        cycle,
        rounds,
    })
}

/// The guess by policy iteration at the ratio.
fn guess_at(alloc: Global, graph: &Graph, aim: Aim) -> Result<Labels, AllocError> {
    let plan = plan_at(alloc, graph, aim)?;
    let walk = walk_of(alloc, graph, &plan)?;
    let labels = labels_of(alloc, &plan)?;
    Ok(Labels {
        labels: Items::from_vec(labels),
        walk: Items::from_vec(walk),
    })
}

/// Guesses labels that meet the rule for lags at the ratio p/q, or a closed walk of lower ratio. It
/// begins with the labels of a hint, which serves best where few of them are too small. It says nothing
/// of what it answers: test it.
///
/// # Errors
/// Where there is no memory.
pub fn propose_labels(
    alloc: Global,
    graph: &Graph,
    p: u64,
    q: u64,
    hint: &[u64],
) -> Result<Labels, AllocError> {
    let aim = Aim { p, q };
    let mut labels = padded(alloc, hint, graph.nodes)?;
    if !repair(alloc, graph, &mut labels, aim)? {
        return guess_at(alloc, graph, aim);
    }
    Ok(Labels {
        labels: Items::from_vec(labels),
        walk: Items::from_vec(Vec::new(alloc)),
    })
}
