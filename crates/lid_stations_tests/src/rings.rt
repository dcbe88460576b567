//! Placements on a ring of two shells, the second of which gives the output. Its channels lead from node 1
//! to node 2, back, and from node 2 to node 3, the sink; node 0, the source, has none.

ghost use Rattle.lid_system.specs.Systems.{IsWellFormed};
ghost use Rattle.lid_stations.specs.Placements.{IsCapacity, Fits};

use lid_graph::{Edge, Graph};
use lid_stations::{Placement, marking, none};
use lid_system::System;
use lid_tests_fixtures::{RING, placement_of, system_of};
use std::alloc::Global;

/// From where an edge leads, and to where.
type Ends = (u32, u32);

/// The edges of the stations where there are no relay stations.
static PLAIN: [Ends; 6] = [(1, 2), (2, 1), (2, 1), (1, 2), (2, 3), (3, 2)];

/// Those with a relay station from node 1 to node 2; actor 4 is the mover.
static RELAYED: [Ends; 8] = [
    (1, 4),
    (4, 1),
    (4, 2),
    (2, 4),
    (2, 1),
    (1, 2),
    (2, 3),
    (3, 2),
];

/// Whether an edge has these ends and tokens.
fn is_edge(edge: &Edge, ends: Ends, tokens: u32) -> bool {
    let (from, to) = ends;
    edge.from == from && edge.to == to && edge.tokens == tokens
}

/// Whether a graph has so many transitions, edges with these ends and tokens in order, and then an edge
/// from each transition to itself with one token.
fn is_graph(graph: &Graph, nodes: u32, ends: &[Ends], tokens: &[u32]) -> bool {
    let edges = graph.edges.as_slice();
    let stations = ends.len();
    if graph.nodes != nodes
        || tokens.len() != stations
        || edges.len() != stations + nodes as usize
    {
        return false;
    }
    for k in 0..stations {
        if !is_edge(&edges[k], ends[k], tokens[k]) {
            return false;
        }
    }
    for v in 0..nodes {
        if !is_edge(&edges[stations + v as usize], (v, v), 1) {
            return false;
        }
    }
    true
}

/// Whether the marking of a placement has so many transitions, and such edges.
fn is_marked(
    alloc: Global,
    system: &System,
    placement: &Placement,
    nodes: u32,
    ends: &[Ends],
    tokens: &[u32],
) -> bool
    requires system { IsWellFormed system.now }
    requires fits { Fits system.now placement.now }
{
    match marking(alloc, system, placement) {
        Ok(graph) => is_graph(&graph, nodes, ends, tokens),
        Err(_) => false,
    }
}

/// Whether the ring with a relay station on the first of its three channels, and stations of these capacities, has five
/// transitions and edges with these tokens.
fn is_relayed(alloc: Global, a: u32, b: u32, c: u32, d: u32, tokens: &[u32]) -> bool
    requires a { IsCapacity a }
    requires b { IsCapacity b }
    requires c { IsCapacity c }
    requires d { IsCapacity d }
{
    let Some(system) = system_of(alloc, RING) else {
        return false;
    };
    if system.channels.len() != 3 {
        return false;
    }
    match placement_of(alloc, &[1, 0, 0], &[a, b, c, d]) {
        Some(placement) => is_marked(alloc, &system, &placement, 5, &RELAYED, tokens),
        None => false,
    }
}

/// Whether the ring has a placement without relay stations, and its marking edges with these tokens.
fn is_plain(alloc: Global, tokens: &[u32]) -> bool {
    let relays: &[u32] = &[0, 0, 0];
    let caps: &[u32] = &[2, 2, 2];
    let Some(system) = system_of(alloc, RING) else {
        return false;
    };
    let Ok(placement) = none(alloc, &system) else {
        return false;
    };
    placement.relays.as_slice() == relays
        && placement.caps.as_slice() == caps
        && is_marked(alloc, &system, &placement, 4, &PLAIN, tokens)
}

#[test]
fn no_relay_stations_stand_anywhere(rt: HostRuntime) {
    assert!(rt; is_plain(rt.alloc(), &[1, 1, 1, 1, 1, 1]));
}

#[test]
fn a_relay_station_starts_empty(rt: HostRuntime) {
    assert!(rt; is_relayed(rt.alloc(), 2, 2, 2, 2, &[1, 1, 0, 2, 1, 1, 1, 1]));
}

#[test]
fn edges_back_have_the_room_that_is_left(rt: HostRuntime) {
    assert!(rt; is_relayed(rt.alloc(), 5, 16, 3, 2, &[1, 4, 0, 16, 1, 2, 1, 1]));
}
