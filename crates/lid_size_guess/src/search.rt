//! A search for the nearest ways from one node to others, over what arcs cost by labels. It stops at the
//! node that is asked for, and goes on from there where another is asked for.

use crate::channels::{Arc, Channels, push_back};
use crate::heap::{Reach, add, is_nearer, take};
use lid_rate_guess::{get, put};
use lid_rate_ratio::Ratio;
use std::alloc::{AllocError, Global};

/// What the search knows of a node: the round in which it was reached last, or one more where it is settled,
/// how far it is, by how many edges and by which arc, and whether the way to it was told.
#[derive(Clone, Copy)]
struct Mark {
    far: u64,
    round: u32,
    steps: u32,
    arc: u32,
    is_told: bool,
}

/// A node that was never reached.
const UNSEEN: Mark = Mark {
    far: 0,
    round: 0,
    steps: 0,
    arc: 0,
    is_told: false,
};

/// What stands past the end of the heap.
const FARTHEST: Reach = Reach {
    far: u64::MAX,
    steps: 0,
    at: 0,
};

/// Where the round began, how far it goes at most, the ratio that its component is to have, the marks of all
/// nodes, those that were settled in this round, and those that are to be settled.
#[derive(Drop)]
pub(crate) struct Search {
    round: u32,
    root: u32,
    most: u64,
    want: Ratio,
    marks: Vec<Mark>,
    order: Vec<u32>,
    heap: Vec<Reach>,
}

/// A search that has reached nothing.
pub(crate) fn new_search(alloc: Global, nodes: u32) -> Result<Search, AllocError> {
    Ok(Search {
        round: 0,
        root: 0,
        most: 0,
        want: Ratio { p: 1, q: 1 },
        marks: Vec::from_elem(alloc, UNSEEN, nodes as usize)?,
        order: Vec::new(alloc),
        heap: Vec::new(alloc),
    })
}

/// What an arc costs: how much more its end has than it is asked for. An edge asks for the label at its
/// beginning plus p less q for each token at its end, where p/q is the ratio that its component is to have.
fn cost(labels: &[u64], want: Ratio, arc: Arc) -> u64 {
    let has = get(labels, arc.to, 0).wrapping_add(want.q.wrapping_mul(arc.tokens));
    has.wrapping_sub(get(labels, arc.from, 0))
        .wrapping_sub(want.p.wrapping_mul(u64::from(arc.edges)))
}

/// Whether a node is not yet settled nor reached so near in this round.
fn is_news(search: &Search, v: u32, far: u64, steps: u32) -> bool {
    let mark = get(&search.marks, v, UNSEEN);
    if mark.round != search.round {
        return mark.round != search.round.wrapping_add(1);
    }
    is_nearer(far, steps, mark.far, mark.steps)
}

/// Reaches a node by an arc.
fn reach(search: &mut Search, reach: Reach, arc: u32) -> Result<(), AllocError> {
    let mark = Mark {
        far: reach.far,
        round: search.round,
        steps: reach.steps,
        arc,
        is_told: false,
    };
    put(&mut search.marks, reach.at, mark);
    add(&mut search.heap, reach)
}

/// Begins a round at a node, which goes as far as `most`.
pub(crate) fn begin(
    search: &mut Search,
    root: u32,
    want: Ratio,
    most: u64,
) -> Result<(), AllocError> {
    search.round = search.round.wrapping_add(2);
    search.root = root;
    search.want = want;
    search.most = most;
    search.order.clear();
    search.heap.clear();
    let first = Reach {
        far: 0,
        steps: 0,
        at: root,
    };
    reach(search, first, 0)
}

/// Goes on along the arcs out of a node.
fn go_on(
    search: &mut Search,
    labels: &[u64],
    channels: &Channels,
    from: Reach,
) -> Result<(), AllocError> {
    for number in channels.out_of(from.at) {
        let arc = channels.arc(*number);
        let far = from.far.wrapping_add(cost(labels, search.want, arc));
        let steps = from.steps.wrapping_add(arc.edges);
        if is_news(search, arc.to, far, steps) && far < search.most {
            let next = Reach {
                far,
                steps,
                at: arc.to,
            };
            reach(search, next, *number)?;
        }
    }
    Ok(())
}

/// Settles the nearest node that is not settled yet. Answers it, or none where nothing is nearer than `need`.
fn settle(search: &mut Search, need: u64) -> Option<Reach> {
    for _ in 0..search.heap.len() {
        if get(&search.heap, 0, FARTHEST).far >= need {
            return None;
        }
        let nearest = take(&mut search.heap)?;
        let mut mark = get(&search.marks, nearest.at, UNSEEN);
        if mark.round == search.round {
            mark.round = search.round.wrapping_add(1);
            put(&mut search.marks, nearest.at, mark);
            return Some(nearest);
        }
    }
    None
}

/// How far it is from where the round began to a node, or none where it is not less than `need`.
pub(crate) fn distance(
    search: &mut Search,
    labels: &[u64],
    channels: &Channels,
    end: u32,
    need: u64,
) -> Result<Option<u64>, AllocError> {
    for _ in 0..search.marks.len().wrapping_add(1) {
        let mark = get(&search.marks, end, UNSEEN);
        if mark.round == search.round.wrapping_add(1) {
            return Ok(if mark.far < need {
                Some(mark.far)
            } else {
                None
            });
        }
        let Some(nearest) = settle(search, need) else {
            return Ok(None);
        };
        search.order.push(nearest.at)?;
        go_on(search, labels, channels, nearest)?;
    }
    Ok(None)
}

/// Raises the labels of the nodes that were settled, by so much less how far they are.
pub(crate) fn raise(labels: &mut [u64], search: &Search, most: u64) {
    for v in &search.order {
        let far = get(&search.marks, *v, UNSEEN).far;
        let label = get(labels, *v, 0);
        put(labels, *v, label.wrapping_add(most.saturating_sub(far)));
    }
}

/// Turns a list round.
pub(crate) fn reverse(list: &mut [u32]) {
    let count = list.len();
    for k in 0..count / 2 {
        let held = list[k];
        list[k] = list[count - 1 - k];
        list[count - 1 - k] = held;
    }
}

/// Writes down the edges of the way to a node that was settled, from the last node on it whose way was told in
/// this round.
pub(crate) fn tell_way(
    way: &mut Vec<u32>,
    search: &mut Search,
    channels: &Channels,
    end: u32,
) -> Result<(), AllocError> {
    let mut at = end;
    for _ in 0..search.order.len() {
        let mut mark = get(&search.marks, at, UNSEEN);
        if at == search.root || mark.is_told {
            break;
        }
        mark.is_told = true;
        put(&mut search.marks, at, mark);
        push_back(way, channels, mark.arc)?;
        at = channels.arc(mark.arc).from;
    }
    reverse(way.as_mut_slice());
    Ok(())
}
