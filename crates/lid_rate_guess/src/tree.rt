//! A breadth-first tree from a transition.

use crate::fans::{Direction, fans_of};
use crate::groups::Groups;
use crate::tables::{edge_at, get, put};
use lid_base::Items;
use lid_graph::{Edge, Graph};
use std::alloc::{AllocError, Global};

/// A tree of edges: for each transition the edge that leads to it, its lead and its depth.
#[derive(Drop)]
pub struct Branches {
    pub via: Items<Option<u32>>,
    pub lead: Items<u64>,
    pub depth: Items<u32>,
}

/// The leads and depths so far, and the transitions that were reached, in order. The tree begins at
/// `start`, and each token adds `q` to the lead.
#[derive(Drop)]
struct Front {
    lead: Vec<u64>,
    depth: Vec<u32>,
    queue: Vec<u32>,
    start: u32,
    q: u64,
}

/// Where the tree begins.
fn new_front(
    alloc: Global,
    count: u32,
    start: u32,
    q: u64,
    first: u64,
) -> Result<Front, AllocError> {
    let mut lead = Vec::from_elem(alloc, 0, count as usize)?;
    put(&mut lead, start, first);
    let depth = Vec::from_elem(alloc, 0, count as usize)?;
    Ok(Front {
        lead,
        depth,
        queue: Vec::new(alloc),
        start,
        q,
    })
}

/// Adds an edge, which leads to a transition that was not reached.
fn reach(front: &mut Front, via: &mut [Option<u32>], k: u32, edge: Edge) -> Result<(), AllocError> {
    let lead = front.q.wrapping_mul(u64::from(edge.tokens));
    let lead = lead.wrapping_add(get(&front.lead, edge.from, 0));
    let depth = get(&front.depth, edge.from, 0).wrapping_add(1);
    put(via, edge.to, Some(k));
    put(&mut front.lead, edge.to, lead);
    put(&mut front.depth, edge.to, depth);
    front.queue.push(edge.to)?;
    Ok(())
}

/// Goes along the edges out of a transition.
fn reach_from(
    front: &mut Front,
    via: &mut [Option<u32>],
    fans: &Groups,
    edges: &[Edge],
    v: u32,
) -> Result<(), AllocError> {
    for k in fans.at(v) {
        let edge = edge_at(edges, *k);
        if edge.to != front.start && get(via, edge.to, Some(*k)).is_none() {
            reach(front, via, *k, edge)?;
        }
    }
    Ok(())
}

/// Goes on from each transition that was reached.
fn reach_all(
    front: &mut Front,
    via: &mut [Option<u32>],
    fans: &Groups,
    edges: &[Edge],
) -> Result<(), AllocError> {
    front.queue.push(front.start)?;
    let mut place: u32 = 0;
    for _ in 0..via.len() {
        if place as usize >= front.queue.len() {
            return Ok(());
        }
        let v = get(&front.queue, place, 0);
        reach_from(front, via, fans, edges, v)?;
        place = place.wrapping_add(1);
    }
    Ok(())
}

/// Fills the tree from the start on.
fn vias_of(
    alloc: Global,
    graph: &Graph,
    front: &mut Front,
) -> Result<Vec<Option<u32>>, AllocError> {
    let fans = fans_of(alloc, graph, Direction::Out)?;
    let mut via = Vec::from_elem(alloc, None, graph.nodes as usize)?;
    reach_all(front, &mut via, &fans, graph.edges.as_slice())?;
    Ok(via)
}

/// A breadth-first tree of what edges lead to from `start`, where the lead is `first`. Along an edge the
/// lead grows by `q` for each token, and the depth by 1. It says nothing of what it answers: test it.
///
/// # Errors
/// Where there is no memory.
pub fn propose_tree(
    alloc: Global,
    graph: &Graph,
    start: u32,
    q: u64,
    first: u64,
) -> Result<Branches, AllocError> {
    let mut front = new_front(alloc, graph.nodes, start, q, first)?;
    let via = vias_of(alloc, graph, &mut front)?;
    let Front { lead, depth, .. } = front;
    Ok(Branches {
        via: Items::from_vec(via),
        lead: Items::from_vec(lead),
        depth: Items::from_vec(depth),
    })
}
