//! A queue of transitions, each of which waits at most once, and labels that are raised from it.

use crate::groups::Groups;
use crate::tables::{edge_at, get, put};
use lid_graph::{Edge, Graph};
use std::alloc::{AllocError, Global};

/// The transitions that wait, in a ring of places, and whether each does.
#[derive(Drop)]
pub(crate) struct Queue {
    places: Vec<u32>,
    waiting: Vec<bool>,
    head: u32,
    count: u32,
}

/// A ratio.
#[derive(Clone, Copy)]
pub(crate) struct Aim {
    pub(crate) p: u64,
    pub(crate) q: u64,
}

/// A queue in which nothing waits.
pub(crate) fn new_queue(alloc: Global, graph: &Graph) -> Result<Queue, AllocError> {
    let places = Vec::from_elem(alloc, 0, graph.nodes as usize)?;
    let waiting = Vec::from_elem(alloc, false, graph.nodes as usize)?;
    Ok(Queue {
        places,
        waiting,
        head: 0,
        count: 0,
    })
}

/// The place of the ring that is so many after the head.
fn place_after(queue: &Queue, further: u32) -> u32 {
    let place = queue.head.wrapping_add(further);
    let end = u32::try_from(queue.places.len()).unwrap_or(0);
    if place < end {
        place
    } else {
        place.wrapping_sub(end)
    }
}

/// Lets a transition wait, if it does not.
pub(crate) fn add(queue: &mut Queue, v: u32) {
    if get(&queue.waiting, v, true) {
        return;
    }
    put(&mut queue.waiting, v, true);
    let place = place_after(queue, queue.count);
    put(&mut queue.places, place, v);
    queue.count = queue.count.wrapping_add(1);
}

/// Takes the transition that has waited longest, if one waits.
pub(crate) fn take(queue: &mut Queue) -> Option<u32> {
    if queue.count == 0 {
        return None;
    }
    let v = get(&queue.places, queue.head, 0);
    put(&mut queue.waiting, v, false);
    queue.head = place_after(queue, 1);
    queue.count = queue.count.wrapping_sub(1);
    Some(v)
}

/// Lets none wait.
pub(crate) fn clear(queue: &mut Queue) {
    for k in 0..queue.waiting.len() {
        queue.waiting[k] = false;
    }
    queue.head = 0;
    queue.count = 0;
}

/// Raises the label where an edge ends to what it asks, and lets the transition wait, if it is less.
fn raise(labels: &mut [u64], queue: &mut Queue, edge: Edge, aim: Aim) {
    let asked = get(labels, edge.from, 0).wrapping_add(aim.p);
    let taken = aim.q.wrapping_mul(u64::from(edge.tokens));
    if asked > get(labels, edge.to, 0).wrapping_add(taken) {
        put(labels, edge.to, asked.wrapping_sub(taken));
        add(queue, edge.to);
    }
}

/// Raises the labels where the edges out of a transition end.
fn raise_from(
    labels: &mut [u64],
    queue: &mut Queue,
    fans: &Groups,
    edges: &[Edge],
    aim: Aim,
    v: u32,
) {
    for k in fans.at(v) {
        let edge = edge_at(edges, *k);
        raise(labels, queue, edge, aim);
    }
}

/// Raises labels until no edge asks for more, or four times as often as there are transitions. Answers
/// whether no edge asks for more.
pub(crate) fn raise_all(
    labels: &mut [u64],
    queue: &mut Queue,
    fans: &Groups,
    edges: &[Edge],
    aim: Aim,
) -> bool {
    for edge in edges {
        raise(labels, queue, *edge, aim);
    }
    for _ in 0..4 {
        for _ in 0..queue.places.len() {
            let Some(v) = take(queue) else {
                return true;
            };
            raise_from(labels, queue, fans, edges, aim, v);
        }
    }
    queue.count == 0
}
