//! Walks of a marking that are lengthened edge by edge, where stations have some capacities, the next one
//! another, and all later ones 16.

ghost use Rattle.std.specs.Prelude.{◌≡◌, ℕ, ◌<◌, ◌≤◌, List, length, slice_index_or, IsNone, IfOk, IfSome};
ghost use Rattle.std.specs.List.{All};
ghost use Rattle.lid_base.specs.Each.{from_each};
ghost use Rattle.lid_graph.specs.declared.graph.Graph.{Graph};
ghost use Rattle.lid_graph.specs.Rateable.{IsRateable};
ghost use Rattle.lid_graph.specs.Walks.{edge_at};
ghost use Rattle.lid_system.specs.declared.System.{System};
ghost use Rattle.lid_stations.specs.Placements.{links_of, IsCapacity};
ghost use Rattle.lid_size.specs.Choices.{followed};
ghost use Rattle.lid_size.specs.Sizing.{sized};
ghost use Rattle.lid_size.specs.Testing.{IsWidest, IsWayTo, AreWays, empty_way};

use lid_graph::{Graph, walk_start};
use lid_rate_ratio::edge;
use std::alloc::{AllocError, Global};

/// A walk: where it begins, how many edges it has, and no fewer tokens than are on them.
#[derive(Clone, Copy)]
pub struct Way {
    pub from: u32,
    pub edges: u32,
    pub tokens: u32,
}

/// The capacity at a place where stations have some capacities, the next one another, and all later ones 16.
fn capacity_at(count: u32, done: &[u32], next: u32, at: u32) -> u32
    requires few { length done.now < count }
    requires at { at < count }
    ensures { result ≡ slice_index_or (followed count done.now next) at 2 }
{
    let _ = count;
    let at = at as usize;
    if at < done.len() {
        done[at]
    } else if at == done.len() {
        next
    } else {
        16
    }
}

/// The tokens of an edge with these capacities.
fn tokens_with(graph: &Graph, count: u32, done: &[u32], next: u32, k: u32) -> u32
    requires graph { IsRateable graph.now }
    requires few { length done.now < count }
    requires range { All IsCapacity done.now }
    requires next { IsCapacity next }
    requires within { k < length graph.now.edges }
    ensures is { (s : System) (relays : List ℕ) → IsWidest graph.now count s relays
        → result ≡ (edge_at (sized (links_of s) relays (followed count done.now next)) k).tokens }
    ensures few { result ≤ 16 }
{
    let tokens = edge(graph, k).tokens;
    let at = k / 2;
    if k % 2 == 0 || at >= count {
        return tokens;
    }
    (tokens + capacity_at(count, done, next, at)).saturating_sub(16)
}

/// A way that is one edge longer. None where it has as many as a way may have.
fn lengthened(graph: &Graph, count: u32, done: &[u32], next: u32, way: Way, k: u32) -> Option<Way>
    requires graph { IsRateable graph.now }
    requires few { length done.now < count }
    requires range { All IsCapacity done.now }
    requires next { IsCapacity next }
    requires within { k < length graph.now.edges }
    requires way { IsWayTo graph.now count (followed count done.now next) (edge_at graph.now k).from way }
    ensures some { IfSome result (IsWayTo graph.now count (followed count done.now next) (edge_at graph.now k).to) }
    ensures none { IsNone result → 262144 ≤ way.edges }
{
    if way.edges >= 262_144 {
        return None;
    }
    Some(Way {
        from: way.from,
        edges: way.edges + 1,
        tokens: way.tokens + tokens_with(graph, count, done, next, k),
    })
}

/// Goes on by an edge from the way to where it begins.
fn go_on(graph: &Graph, count: u32, done: &[u32], ways: &mut [Way], k: u32)
    requires graph { IsRateable graph.now }
    requires few { length done.now < count }
    requires range { All IsCapacity done.now }
    requires ways { AreWays graph.now count (followed count done.now 16) ways.old }
    ensures { AreWays graph.now count (followed count done.now 16) ways.new }
{
    if k as usize >= graph.edges.len() {
        return;
    }
    let along = edge(graph, k);
    let way = ways[along.from as usize];
    if let Some(longer) = lengthened(graph, count, done, 16, way, k) {
        ways[along.to as usize] = longer;
    }
}

/// Begins ways at a transition.
fn begin(ways: &mut [Way], root: u32)
    ensures { (g : Graph) (n : ℕ) (caps : List ℕ) → AreWays g n caps ways.old → AreWays g n caps ways.new }
{
    if (root as usize) < ways.len() {
        ways[root as usize] = Way {
            from: root,
            edges: 0,
            tokens: 0,
        };
    }
}

/// Begins ways at a transition, and goes on by edges, one after the other.
pub(crate) fn lengthen(
    graph: &Graph,
    count: u32,
    done: &[u32],
    ways: &mut [Way],
    root: u32,
    edges: &[u32],
)
    requires graph { IsRateable graph.now }
    requires few { length done.now < count }
    requires range { All IsCapacity done.now }
    requires ways { AreWays graph.now count (followed count done.now 16) ways.old }
    ensures { AreWays graph.now count (followed count done.now 16) ways.new }
{
    begin(ways, root);
    for k in edges {
        go_on(graph, count, done, ways, *k);
    }
}

/// The closed walk that some edges make with the way to where the first of them begins. None where they make
/// none.
pub(crate) fn closed(
    graph: &Graph,
    count: u32,
    done: &[u32],
    next: u32,
    ways: &[Way],
    closing: &[u32],
) -> Option<Way>
    requires graph { IsRateable graph.now }
    requires few { length done.now < count }
    requires range { All IsCapacity done.now }
    requires next { IsCapacity next }
    requires ways { AreWays graph.now count (followed count done.now 16) ways.now }
    ensures { IfSome result (λ way. IsWayTo graph.now count (followed count done.now next) way.from way) }
{
    let mut at = walk_start(graph, closing);
    if at as usize >= ways.len() {
        return None;
    }
    let mut way = ways[at as usize];
    for k in closing {
        if *k as usize >= graph.edges.len() {
            return None;
        }
        let along = edge(graph, *k);
        if along.from != at {
            return None;
        }
        match lengthened(graph, count, done, next, way, *k) {
            Some(longer) => way = longer,
            None => return None,
        }
        at = along.to;
    }
    if at == way.from { Some(way) } else { None }
}

/// The way from each transition to itself.
pub(crate) fn first_ways(alloc: Global, graph: &Graph) -> Result<Vec<Way>, AllocError>
    ensures { IfOk result (λ ways. ways.items ≡ from_each empty_way 0 graph.now.nodes) }
{
    let mut ways = Vec::new(alloc);
    for v in 0..graph.nodes {
        ways.push(Way {
            from: v,
            edges: 0,
            tokens: 0,
        })?;
    }
    Ok(ways)
}
