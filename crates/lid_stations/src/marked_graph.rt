//! The marked graph of a placement.

ghost use Rattle.std.specs.Prelude.{◌≡◌, ◌<◌, ◌≤◌, ◌+◌, ◌-◌, ◌++◌, [], ◌∷◌, length, take, slice_index_or, IfOk, OnOk};
ghost use Rattle.std.specs.List.{flat_map};
ghost use Rattle.lid_base.specs.Each.{from_each};
ghost use Rattle.lid_graph.specs.declared.graph.Edge.{Edge};
ghost use Rattle.lid_graph.specs.Rateable.{IsRateable};
ghost use Rattle.lid_graph.specs.Walks.{WalksHaveTokens};
ghost use Rattle.lid_system.specs.Systems.{IsWellFormed};
ghost use Rattle.lid_stations.specs.Placements.{links_of, Fits, station_count};
ghost use Rattle.lid_stations.specs.Placed.{links_in};
ghost use Rattle.lid_stations.specs.Stations.{actor_count, starts};
ghost use Rattle.lid_stations.specs.Markings.{marking, station_edges, self_edge};

use crate::ends::{drainer, filler};
use crate::placed::Placed;
use crate::placement::Placement;
use lid_base::Items;
use lid_graph::{Edge, Graph};
use lid_system::System;
use std::alloc::{AllocError, Global};

/// The marked graph of a system whose channels have such stations. Its transitions are the actors: the
/// nodes, and the movers that fill relay stations. Station s has edge 2s, from the actor that fills it to
/// the one that drains it, with its start tokens, and edge 2s + 1 back, with as many tokens as it has
/// room for more. Then each transition has an edge to itself with one token.
///
/// # Errors
/// Where there is no memory.
pub fn marking(alloc: Global, system: &System, placement: &Placement) -> Result<Graph, AllocError>
    requires system { IsWellFormed system.now }
    requires fits { Fits system.now placement.now }
    ensures is { IfOk result (λ g. g ≡ marking (links_of system.now) placement.now) }
    ensures rateable { IfOk result IsRateable }
    ensures tokens { IfOk result WalksHaveTokens }
    ensures few { IfOk result (λ g. g.nodes ≤ 69634) }
{
    let placed = Placed { system, placement };
    let nodes = actors(&placed);
    let mut edges = Vec::new(alloc);
    push_stations(&placed, &mut edges)?;
    push_self_edges(nodes, &mut edges)?;
    Ok(Graph {
        nodes,
        edges: Items::from_vec(edges),
    })
}

/// How many actors there are: all nodes, and a mover for each station but the last of each channel.
fn actors(placed: &Placed<'_>) -> u32
    ensures { result ≡ actor_count (links_in placed.now) placed.now.placement }
{
    let movers = placed.placement.caps.len() - placed.placement.relays.len();
    (placed.system.nodes.len() + movers) as u32
}

/// Appends the edges of all stations.
fn push_stations(placed: &Placed<'_>, edges: &mut Vec<Edge>) -> Result<(), AllocError>
    ensures { OnOk result (edges.new.items ≡ edges.old.items
        ++ flat_map (station_edges (links_in placed.now) placed.now.placement)
        (from_each (λ station. station) 0 (station_count placed.now.placement.relays))) }
{
    let mut station = 0usize;
    for c in 0..placed.placement.relays.len() {
        push_channel(placed, c, station, edges)?;
        station += placed.placement.relays.as_slice()[c] as usize + 1;
    }
    Ok(())
}

/// Appends the edges of the stations of channel c, of which the first has this number.
fn push_channel(
    placed: &Placed<'_>,
    c: usize,
    station: usize,
    edges: &mut Vec<Edge>,
) -> Result<(), AllocError>
    requires there { c < length placed.now.placement.relays }
    requires first { station ≡ station_count (take c placed.now.placement.relays) }
    ensures { OnOk result (edges.new.items ≡ edges.old.items
        ++ flat_map (station_edges (links_in placed.now) placed.now.placement)
        (from_each (λ station. station) station (slice_index_or placed.now.placement.relays c 0 + 1))) }
{
    let first = (placed.system.nodes.len() + (station - c)) as u32;
    for place in 0..placed.placement.relays.as_slice()[c] + 1 {
        push_station(
            edges,
            filler(placed.system, placed.placement, c, place, first),
            drainer(placed.system, placed.placement, c, place, first),
            start_count(place),
            placed.placement.caps.as_slice()[station + place as usize],
        )?;
    }
    Ok(())
}

/// The tokens that the station at a place of a channel starts with.
fn start_count(place: u32) -> u32
    ensures { result ≡ starts place }
{
    if place == 0 { 1 } else { 0 }
}

/// Appends the edge along a station and the one back.
fn push_station(
    edges: &mut Vec<Edge>,
    from: u32,
    to: u32,
    tokens: u32,
    capacity: u32,
) -> Result<(), AllocError>
    requires { tokens ≤ capacity }
    ensures { OnOk result (edges.new.items ≡ edges.old.items
        ++ record { from = from; to = to; tokens = tokens } ∷ record { from = to; to = from; tokens = capacity - tokens } ∷ []) }
{
    let back = Edge {
        from: to,
        to: from,
        tokens: capacity - tokens,
    };
    edges.push(Edge { from, to, tokens })?;
    edges.push(back)?;
    Ok(())
}

/// Appends an edge from each of so many transitions to itself.
fn push_self_edges(nodes: u32, edges: &mut Vec<Edge>) -> Result<(), AllocError>
    ensures { OnOk result (edges.new.items ≡ edges.old.items ++ from_each self_edge 0 nodes) }
{
    for v in 0..nodes {
        edges.push(Edge {
            from: v,
            to: v,
            tokens: 1,
        })?;
    }
    Ok(())
}
