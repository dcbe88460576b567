//! Dijkstra's search, over channels, for the nearest way from where a channel ends to where its last station is filled,
//! by other edges than those of that station.

use crate::arcs::{Arc, Arcs, edge_on, start_of, stations_on};
use crate::chain::{Chain, Price};
use lid_graph::Graph;
use lid_rate_guess::{get, put};
use lid_size_guess::heap::{Reach, add, is_nearer, take};
use std::alloc::{AllocError, Global};

/// What the search knows of a node: the round in which it was reached last, or one more where it is settled, how far it
/// is, by how many edges, and along which channel it was reached.
#[derive(Clone, Copy)]
struct Mark {
    far: u64,
    round: u32,
    steps: u32,
    channel: u32,
    is_back: bool,
}

/// A node that was never reached.
const UNSEEN: Mark = Mark {
    far: 0,
    round: 0,
    steps: 0,
    channel: 0,
    is_back: false,
};

/// The marks of all nodes, those that were settled in this round, and those that are to be settled.
#[derive(Drop)]
pub(crate) struct Search {
    round: u32,
    marks: Vec<Mark>,
    pub(crate) order: Vec<u32>,
    heap: Vec<Reach>,
}

/// A search that has reached nothing.
pub(crate) fn new_search(alloc: Global, graph: &Graph) -> Result<Search, AllocError> {
    Ok(Search {
        round: 0,
        marks: Vec::from_elem(alloc, UNSEEN, graph.nodes as usize)?,
        order: Vec::new(alloc),
        heap: Vec::new(alloc),
    })
}

/// How far a node is that was reached in this round.
pub(crate) fn far(search: &Search, v: u32) -> u64 {
    get(&search.marks, v, UNSEEN).far
}

/// Whether a node is not yet settled nor reached so near in this round.
fn is_news(search: &Search, v: u32, far: u64, steps: u32) -> bool {
    let mark = get(&search.marks, v, UNSEEN);
    if mark.round != search.round {
        return mark.round != search.round.wrapping_add(1);
    }
    is_nearer(far, steps, mark.far, mark.steps)
}

/// Reaches a node along a channel.
fn reach(search: &mut Search, reach: Reach, channel: u32, is_back: bool) -> Result<(), AllocError> {
    let mark = Mark {
        far: reach.far,
        round: search.round,
        steps: reach.steps,
        channel,
        is_back,
    };
    put(&mut search.marks, reach.at, mark);
    add(&mut search.heap, reach)
}

/// Goes on along arcs from what was reached, but for those of a channel, as far as `need`.
fn go_on(
    search: &mut Search,
    arcs: &[Arc],
    channel: u32,
    price: Price,
    from: Reach,
    need: u64,
) -> Result<(), AllocError> {
    for arc in arcs {
        let more = price.extra.wrapping_mul(u64::from(arc.edges));
        let far = from
            .far
            .wrapping_add(price.times.wrapping_mul(arc.cost))
            .wrapping_add(more);
        let steps = from.steps.wrapping_add(arc.edges);
        if far < need && arc.channel != channel && is_news(search, arc.to, far, steps) {
            let next = Reach {
                far,
                steps,
                at: arc.to,
            };
            reach(search, next, arc.channel, arc.is_back)?;
        }
    }
    Ok(())
}

/// Begins a round at a node.
fn begin(search: &mut Search, start: u32) -> Result<(), AllocError> {
    search.round = search.round.wrapping_add(2);
    search.order.clear();
    search.heap.clear();
    let first = Reach {
        far: 0,
        steps: 0,
        at: start,
    };
    reach(search, first, 0, false)
}

/// Settles the nearest node that is not settled yet. Answers it, or none where nothing more was reached.
fn settle(search: &mut Search) -> Option<Reach> {
    for _ in 0..search.heap.len() {
        let nearest = take(&mut search.heap)?;
        let mut mark = get(&search.marks, nearest.at, UNSEEN);
        if mark.round == search.round {
            mark.round = search.round.wrapping_add(1);
            put(&mut search.marks, nearest.at, mark);
            return Some(nearest);
        }
    }
    None
}

/// How far it is from where a channel ends to where its last station is filled, or none where it is not less than
/// `need`. The nodes that are nearer than that, or than `need`, stand in the order of the search then.
pub(crate) fn distance(
    search: &mut Search,
    arcs: &Arcs,
    chain: Chain,
    price: Price,
    need: u64,
) -> Result<Option<u64>, AllocError> {
    begin(search, chain.drainer)?;
    let more = price.extra.wrapping_mul(u64::from(chain.prefix_edges));
    let prefix = price
        .times
        .wrapping_mul(chain.prefix_cost)
        .wrapping_add(more);
    let mut bound = need;
    let mut found = None;
    for _ in 0..search.marks.len() {
        let Some(nearest) = settle(search) else {
            return Ok(found);
        };
        if nearest.far >= bound {
            return Ok(found);
        }
        search.order.push(nearest.at)?;
        if nearest.at == chain.producer && nearest.far.wrapping_add(prefix) < bound {
            bound = nearest.far.wrapping_add(prefix);
            found = Some(bound);
        }
        let out = arcs.out_of(nearest.at);
        go_on(search, out, chain.channel, price, nearest, bound)?;
    }
    Ok(found)
}

/// Turns a list round.
fn reverse(list: &mut [u32]) {
    let count = list.len();
    for k in 0..count / 2 {
        let held = list[k];
        list[k] = list[count - 1 - k];
        list[count - 1 - k] = held;
    }
}

/// Appends the first edges of a channel, the last of them first.
fn push_back(
    way: &mut Vec<u32>,
    firsts: &[u32],
    channel: u32,
    is_back: bool,
    edges: u32,
) -> Result<(), AllocError> {
    let mut left = edges;
    for _ in 0..edges {
        left = left.wrapping_sub(1);
        way.push(edge_on(firsts, channel, is_back, left))?;
    }
    Ok(())
}

/// Writes down the edges of the way that was found.
pub(crate) fn take_way(
    way: &mut Vec<u32>,
    search: &Search,
    graph: &Graph,
    firsts: &[u32],
    chain: Chain,
) -> Result<(), AllocError> {
    way.clear();
    push_back(way, firsts, chain.channel, false, chain.prefix_edges)?;
    let mut at = chain.producer;
    for _ in 0..search.order.len() {
        if at == chain.drainer {
            break;
        }
        let mark = get(&search.marks, at, UNSEEN);
        let edges = stations_on(firsts, mark.channel);
        push_back(way, firsts, mark.channel, mark.is_back, edges)?;
        at = start_of(graph, firsts, mark.channel, mark.is_back);
    }
    reverse(way.as_mut_slice());
    Ok(())
}
