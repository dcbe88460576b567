//! Values of a policy, and the choices that lower them.
//!
//! At the ratio T/L an edge costs tokens*L - T. A value is what the choices cost from a transition to
//! where the closed walk starts, or to where walks end that do not come there. Values count from 2^62,
//! so that those below it are numbers too.

use crate::groups::Groups;
use crate::policy::{Cycle, STOP};
use crate::queue::{Queue, add, clear, new_queue, take};
use crate::tables::{edge_at, get, put};
use lid_graph::{Edge, Graph};
use std::alloc::{AllocError, Global};

/// The value where the closed walk starts.
const ORIGIN: u64 = 1 << 62;

/// For each transition the edge that is chosen, and its value.
#[derive(Drop)]
pub(crate) struct Policy {
    pub(crate) choices: Vec<u32>,
    pub(crate) values: Vec<u64>,
}

/// A search back from a transition: in which round each transition was seen last, those of this round in the
/// order in which they were seen, and those whose values are to be looked at where edges lead to them.
#[derive(Drop)]
pub(crate) struct Search {
    order: Vec<u32>,
    seen: Vec<u32>,
    count: u32,
    pub(crate) round: u32,
    waiting: Queue,
}

/// The edges of a graph, and for each transition the numbers of those that lead into it.
#[derive(Clone, Copy)]
pub(crate) struct Ways<'g> {
    pub(crate) edges: &'g [Edge],
    pub(crate) fans: &'g Groups,
}

/// What an edge costs.
pub(crate) fn cost(edge: Edge, cycle: Cycle) -> u64 {
    u64::from(edge.tokens)
        .wrapping_mul(cycle.edges)
        .wrapping_sub(cycle.tokens)
}

/// A search that has seen nothing.
pub(crate) fn new_search(alloc: Global, graph: &Graph) -> Result<Search, AllocError> {
    let order = Vec::from_elem(alloc, 0, graph.nodes as usize)?;
    let seen = Vec::from_elem(alloc, 0, graph.nodes as usize)?;
    let waiting = new_queue(alloc, graph)?;
    Ok(Search {
        order,
        seen,
        count: 0,
        round: 0,
        waiting,
    })
}

/// Puts a transition at the end of the order.
fn see(search: &mut Search, v: u32) {
    put(&mut search.seen, v, search.round);
    put(&mut search.order, search.count, v);
    search.count = search.count.wrapping_add(1);
}

/// Chooses an edge where it begins.
fn choose(policy: &mut Policy, k: u32, edge: Edge, value: u64) {
    put(&mut policy.choices, edge.from, k);
    put(&mut policy.values, edge.from, value);
}

/// What the way along an edge costs from where it begins.
fn value_along(policy: &Policy, edge: Edge, cycle: Cycle) -> u64 {
    get(&policy.values, edge.to, ORIGIN).wrapping_add(cost(edge, cycle))
}

/// Whether the search goes back along an edge: where it begins has not been seen, and the edge is the
/// choice there or any edge will do.
fn is_way_back(search: &Search, policy: &Policy, k: u32, edge: Edge, any: bool) -> bool {
    if get(&search.seen, edge.from, search.round) == search.round {
        return false;
    }
    any || get(&policy.choices, edge.from, k) == k
}

/// Goes back along the edges into a transition.
fn step_back(
    search: &mut Search,
    policy: &mut Policy,
    ways: Ways<'_>,
    cycle: Cycle,
    v: u32,
    any: bool,
) {
    for k in ways.fans.at(v) {
        let edge = edge_at(ways.edges, *k);
        if is_way_back(search, policy, *k, edge, any) {
            let value = value_along(policy, edge, cycle);
            choose(policy, *k, edge, value);
            see(search, edge.from);
        }
    }
}

/// Goes back from each transition that was seen.
fn search_back(search: &mut Search, policy: &mut Policy, ways: Ways<'_>, cycle: Cycle, any: bool) {
    let mut place: u32 = 0;
    for _ in 0..policy.choices.len() {
        if place >= search.count {
            return;
        }
        let v = get(&search.order, place, 0);
        step_back(search, policy, ways, cycle, v, any);
        place = place.wrapping_add(1);
    }
}

/// Puts down that the walks of each transition that was not seen end there: no edges lead from it to the
/// closed walk.
fn stop_unseen(search: &mut Search, policy: &mut Policy) {
    let mut v: u32 = 0;
    for _ in 0..search.seen.len() {
        if get(&search.seen, v, 0) != search.round {
            put(&mut policy.choices, v, STOP);
            put(&mut policy.values, v, ORIGIN);
            see(search, v);
        }
        v = v.wrapping_add(1);
    }
}

/// Begins a search at the transitions where walks end.
fn see_stops(search: &mut Search, policy: &mut Policy) {
    let mut v: u32 = 0;
    for _ in 0..search.seen.len() {
        if get(&policy.choices, v, 0) == STOP && get(&search.seen, v, 0) != search.round {
            put(&mut policy.values, v, ORIGIN);
            see(search, v);
        }
        v = v.wrapping_add(1);
    }
}

/// Gives each transition its value. Where the choices do not lead to the closed walk they are changed.
pub(crate) fn evaluate(search: &mut Search, policy: &mut Policy, ways: Ways<'_>, cycle: Cycle) {
    search.round = search.round.wrapping_add(1);
    search.count = 0;
    if (cycle.start as usize) < policy.choices.len() {
        put(&mut policy.values, cycle.start, ORIGIN);
        see(search, cycle.start);
    }
    see_stops(search, policy);
    search_back(search, policy, ways, cycle, false);
    if (search.count as usize) < policy.choices.len() {
        search_back(search, policy, ways, cycle, true);
    }
    if (search.count as usize) < policy.choices.len() {
        stop_unseen(search, policy);
    }
}

/// Chooses each edge into a transition that lowers the value where it begins, which waits then. Answers whether
/// one does.
fn improve_into(
    policy: &mut Policy,
    waiting: &mut Queue,
    ways: Ways<'_>,
    cycle: Cycle,
    v: u32,
) -> bool {
    let mut lowered = false;
    for k in ways.fans.at(v) {
        let edge = edge_at(ways.edges, *k);
        let value = value_along(policy, edge, cycle);
        if value < get(&policy.values, edge.from, 0) {
            choose(policy, *k, edge, value);
            add(waiting, edge.from);
            lowered = true;
        }
    }
    lowered
}

/// Chooses each edge that lowers the value where it begins, nearest to the closed walk first, and then those into
/// transitions whose values fell, until none falls or four times as often as there are transitions. (Values fall
/// without end where the choices close to a walk of lower ratio; and they fall far in a round, where one look at
/// each edge would move what was found by one edge.) Answers whether a value fell.
pub(crate) fn improve(
    search: &mut Search,
    policy: &mut Policy,
    ways: Ways<'_>,
    cycle: Cycle,
) -> bool {
    for v in search.order.as_slice() {
        add(&mut search.waiting, *v);
    }
    let mut lowered = false;
    for _ in 0..4 {
        for _ in 0..search.order.len() {
            let Some(v) = take(&mut search.waiting) else {
                return lowered;
            };
            if improve_into(policy, &mut search.waiting, ways, cycle, v) {
                lowered = true;
            }
        }
    }
    clear(&mut search.waiting);
    lowered
}
