//! A guess of the forward ratio of each component, made on a graph of its own.

use lid_base::Items;
use lid_graph::{Edge, Graph};
use lid_rate_guess::{Groups, edge_at, get, groups_of, propose, put, put_each};
use std::alloc::{AllocError, Global};

/// More tokens than any walk has edges that meets no transition twice.
const MANY: u32 = 1 << 18;

/// What is guessed of the components of a marking.
#[derive(Drop)]
pub struct Forwards {
    /// The edges of closed walks on edges forth and self edges, one after the other: for each component one
    /// of least ratio.
    pub walks: Items<u32>,
    /// For each transition where the walk of the component of which it is the least ends; where it is not
    /// the least, where the one before ends.
    pub ends: Items<u32>,
    /// For each transition the greatest P*edges - Q*tokens over the walks on those edges that end at it,
    /// where P/Q is the ratio of the walk of its component.
    pub labels: Items<u64>,
}

/// The transitions and the stations of each component, by its least transition, and the number of each
/// transition in its own component.
#[derive(Drop)]
struct Parts {
    nodes: Groups,
    forths: Groups,
    places: Vec<u32>,
}

/// The component of each station, by its least transition.
fn station_labels(
    alloc: Global,
    graph: &Graph,
    stations: u32,
    least: &[u32],
) -> Result<Vec<u32>, AllocError> {
    let mut labels = Vec::new(alloc);
    for station in 0..stations {
        let forth = edge_at(graph.edges.as_slice(), station.wrapping_mul(2));
        labels.push(get(least, forth.from, 0))?;
    }
    Ok(labels)
}

/// Numbers the transitions of a component.
fn number(places: &mut [u32], nodes: &[u32]) {
    let mut place: u32 = 0;
    for v in nodes {
        put(places, *v, place);
        place = place.wrapping_add(1);
    }
}

/// The number of each transition in its own component.
fn places_of(alloc: Global, nodes: &Groups, count: u32) -> Result<Vec<u32>, AllocError> {
    let mut places = Vec::from_elem(alloc, 0, count as usize)?;
    for r in 0..count {
        number(&mut places, nodes.at(r));
    }
    Ok(places)
}

/// The stations of each component.
fn forths_of(
    alloc: Global,
    graph: &Graph,
    stations: u32,
    least: &[u32],
) -> Result<Groups, AllocError> {
    let labels = station_labels(alloc, graph, stations, least)?;
    groups_of(alloc, &labels, graph.nodes)
}

/// The components.
fn parts_of(
    alloc: Global,
    graph: &Graph,
    stations: u32,
    least: &[u32],
) -> Result<Parts, AllocError> {
    let nodes = groups_of(alloc, least, graph.nodes)?;
    let forths = forths_of(alloc, graph, stations, least)?;
    let places = places_of(alloc, &nodes, graph.nodes)?;
    Ok(Parts {
        nodes,
        forths,
        places,
    })
}

/// Appends a self edge for each transition of a component.
fn push_selves(edges: &mut Vec<Edge>, nodes: &[u32]) -> Result<(), AllocError> {
    let mut place: u32 = 0;
    for _ in nodes {
        edges.push(Edge {
            from: place,
            to: place,
            tokens: 1,
        })?;
        place = place.wrapping_add(1);
    }
    Ok(())
}

/// Appends the edges forth of the stations of a component.
fn push_forths(
    edges: &mut Vec<Edge>,
    graph: &Graph,
    forths: &[u32],
    places: &[u32],
) -> Result<(), AllocError> {
    for station in forths {
        let forth = edge_at(graph.edges.as_slice(), station.wrapping_mul(2));
        edges.push(Edge {
            from: get(places, forth.from, 0),
            to: get(places, forth.to, 0),
            tokens: forth.tokens,
        })?;
    }
    Ok(())
}

/// Appends edges to and from each transition, with so many tokens that none of them stands on a closed walk
/// of least ratio or asks for a lag: a guess wants a graph whose transitions are all joined.
fn push_joins(edges: &mut Vec<Edge>, nodes: &[u32]) -> Result<(), AllocError> {
    let mut place: u32 = 0;
    for _ in nodes {
        edges.push(Edge {
            from: 0,
            to: place,
            tokens: MANY,
        })?;
        edges.push(Edge {
            from: place,
            to: 0,
            tokens: MANY,
        })?;
        place = place.wrapping_add(1);
    }
    Ok(())
}

/// The graph of one component.
fn part_graph(
    alloc: Global,
    graph: &Graph,
    parts: &Parts,
    label: u32,
) -> Result<Graph, AllocError> {
    let nodes = parts.nodes.at(label);
    let mut edges = Vec::new(alloc);
    push_selves(&mut edges, nodes)?;
    push_forths(&mut edges, graph, parts.forths.at(label), &parts.places)?;
    push_joins(&mut edges, nodes)?;
    Ok(Graph {
        nodes: u32::try_from(nodes.len()).unwrap_or(0),
        edges: Items::from_vec(edges),
    })
}

/// The number in the marking of an edge of a component's graph.
fn number_of(stations: u32, parts: &Parts, label: u32, k: u32) -> u32 {
    let nodes = parts.nodes.at(label);
    let count = u32::try_from(nodes.len()).unwrap_or(0);
    if k < count {
        stations.wrapping_mul(2).wrapping_add(get(nodes, k, 0))
    } else {
        get(parts.forths.at(label), k.wrapping_sub(count), 0).wrapping_mul(2)
    }
}

/// What was guessed so far, as `Forwards` has it.
#[derive(Drop)]
struct Guessed {
    walks: Vec<u32>,
    ends: Vec<u32>,
    labels: Vec<u64>,
}

/// Guesses the walk and the labels of one component.
fn guess_part(
    alloc: Global,
    graph: &Graph,
    stations: u32,
    parts: &Parts,
    label: u32,
    into: &mut Guessed,
) -> Result<(), AllocError> {
    let part = part_graph(alloc, graph, parts, label)?;
    let guess = propose(alloc, &part)?;
    for k in guess.walk.as_slice() {
        into.walks.push(number_of(stations, parts, label, *k))?;
    }
    put_each(
        &mut into.labels,
        parts.nodes.at(label),
        guess.lags.as_slice(),
        0,
    );
    Ok(())
}

/// Guesses the walks and labels of all components.
fn guess_parts(
    alloc: Global,
    graph: &Graph,
    stations: u32,
    parts: &Parts,
    into: &mut Guessed,
) -> Result<(), AllocError> {
    for v in 0..graph.nodes {
        if parts.nodes.at(v).len() > 0 {
            guess_part(alloc, graph, stations, parts, v, into)?;
        }
        into.ends
            .push(u32::try_from(into.walks.len()).unwrap_or(0))?;
    }
    Ok(())
}

/// Guesses the forward ratio of each component of a marking with so many stations, where `least` has the
/// least transition of the component of each. It says nothing of what it answers: test it.
///
/// # Errors
/// Where there is no memory.
pub fn propose_forwards(
    alloc: Global,
    graph: &Graph,
    stations: u32,
    least: &[u32],
) -> Result<Forwards, AllocError> {
    let parts = parts_of(alloc, graph, stations, least)?;
    let mut guessed = Guessed {
        walks: Vec::new(alloc),
        ends: Vec::new(alloc),
        labels: Vec::from_elem(alloc, 0, graph.nodes as usize)?,
    };
    guess_parts(alloc, graph, stations, &parts, &mut guessed)?;
    let Guessed {
        walks,
        ends,
        labels,
    } = guessed;
    Ok(Forwards {
        walks: Items::from_vec(walks),
        ends: Items::from_vec(ends),
        labels: Items::from_vec(labels),
    })
}
