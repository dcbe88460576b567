//! The channels of a placement as arcs between nodes, with what their edges cost by the lags of a certificate.

use crate::chain::ratio_of;
use lid_cert::Cert;
use lid_graph::{Edge, Graph};
use lid_rate_guess::{Groups, edge_at, get, groups_of, put, put_each};
use std::alloc::{AllocError, Global};

/// A channel from one of its ends to the other: where it leads, its number, whether it is gone back along, how many
/// edges it has, and what they cost.
#[derive(Clone, Copy)]
pub(crate) struct Arc {
    pub(crate) to: u32,
    pub(crate) channel: u32,
    pub(crate) is_back: bool,
    pub(crate) edges: u32,
    pub(crate) cost: u64,
}

/// Arcs by where they begin: those out of transition v stand from `starts[v]` on, up to `starts[v + 1]`.
#[derive(Drop)]
pub(crate) struct Arcs {
    starts: Vec<u32>,
    all: Vec<Arc>,
}

impl Arcs {
    /// The arcs out of a transition: none where it is not below the count.
    pub(crate) fn out_of(&self, v: u32) -> &[Arc] {
        let first = get(&self.starts, v, 0) as usize;
        let end = get(&self.starts, v.wrapping_add(1), 0) as usize;
        if first <= end && end <= self.all.len() {
            &self.all[first..end]
        } else {
            &self.all[..0]
        }
    }

    /// Lets the arcs that come start after those that there are.
    fn end_list(&mut self) -> Result<(), AllocError> {
        let count = u32::try_from(self.all.len()).unwrap_or(u32::MAX);
        self.starts.push(count)?;
        Ok(())
    }
}

/// For each transition its lag, and the number of its part; for each edge along a station or back how much more its end
/// has than it asks for; and for each channel the number of its first station, with one more for their end.
#[derive(Drop)]
pub(crate) struct Potentials {
    pub(crate) lags: Vec<u64>,
    pub(crate) owners: Vec<u32>,
    pub(crate) costs: Vec<u64>,
    pub(crate) firsts: Vec<u32>,
}

/// The edge that comes after so many others on a channel.
pub(crate) fn edge_on(firsts: &[u32], channel: u32, is_back: bool, step: u32) -> u32 {
    if is_back {
        let end = get(firsts, channel.wrapping_add(1), 0);
        end.wrapping_sub(step).wrapping_mul(2).wrapping_sub(1)
    } else {
        get(firsts, channel, 0).wrapping_add(step).wrapping_mul(2)
    }
}

/// How many stations a channel has.
pub(crate) fn stations_on(firsts: &[u32], channel: u32) -> u32 {
    get(firsts, channel.wrapping_add(1), 0).wrapping_sub(get(firsts, channel, 0))
}

/// The lags and parts that a certificate tells.
fn fill(lags: &mut [u64], owners: &mut [u32], cert: &Cert) {
    let mut number: u32 = 0;
    for part in cert.parts.as_slice() {
        let nodes = part.nodes.as_slice();
        put_each(lags, nodes, part.lag.as_slice(), 0);
        for v in nodes {
            put(owners, *v, number);
        }
        number = number.wrapping_add(1);
    }
}

/// The numbers of the first stations.
fn firsts_of(alloc: Global, relays: &[u32]) -> Result<Vec<u32>, AllocError> {
    let mut firsts = Vec::with_capacity(alloc, relays.len())?;
    let mut station: u32 = 0;
    for count in relays {
        firsts.push(station)?;
        station = station.wrapping_add(*count).wrapping_add(1);
    }
    firsts.push(station)?;
    Ok(firsts)
}

/// What an edge costs.
fn cost(lags: &[u64], owners: &[u32], cert: &Cert, edge: Edge) -> u64 {
    let (p, q) = ratio_of(cert, get(owners, edge.from, 0));
    let has = get(lags, edge.to, 0).wrapping_add(q.wrapping_mul(u64::from(edge.tokens)));
    has.wrapping_sub(get(lags, edge.from, 0)).wrapping_sub(p)
}

/// What all edges cost.
fn costs_of(
    alloc: Global,
    graph: &Graph,
    cert: &Cert,
    lags: &[u64],
    owners: &[u32],
) -> Result<Vec<u64>, AllocError> {
    let mut costs = Vec::with_capacity(alloc, graph.edges.len())?;
    for edge in graph.edges.as_slice() {
        costs.push(cost(lags, owners, cert, *edge))?;
    }
    Ok(costs)
}

/// For each of so many transitions 0.
fn zeros(alloc: Global, count: u32) -> Result<Vec<u32>, AllocError> {
    Vec::from_elem(alloc, 0, count as usize)
}

/// What is the same for all channels, of a marked graph with so many relay stations on each.
pub(crate) fn potentials_of(
    alloc: Global,
    graph: &Graph,
    cert: &Cert,
    relays: &[u32],
) -> Result<Potentials, AllocError> {
    let mut lags = Vec::from_elem(alloc, 0, graph.nodes as usize)?;
    let mut owners = zeros(alloc, graph.nodes)?;
    fill(&mut lags, &mut owners, cert);
    let costs = costs_of(alloc, graph, cert, &lags, &owners)?;
    let firsts = firsts_of(alloc, relays)?;
    Ok(Potentials {
        lags,
        owners,
        costs,
        firsts,
    })
}

/// Where a channel begins, or where it is gone back from.
pub(crate) fn start_of(graph: &Graph, firsts: &[u32], channel: u32, is_back: bool) -> u32 {
    edge_at(graph.edges.as_slice(), edge_on(firsts, channel, is_back, 0)).from
}

/// What the first edges of a channel cost.
pub(crate) fn cost_along(potentials: &Potentials, channel: u32, is_back: bool, edges: u32) -> u64 {
    let mut sum: u64 = 0;
    for step in 0..edges {
        let k = edge_on(&potentials.firsts, channel, is_back, step);
        sum = sum.wrapping_add(get(&potentials.costs, k, 0));
    }
    sum
}

/// The arc of a channel.
fn arc_along(graph: &Graph, potentials: &Potentials, channel: u32, is_back: bool) -> Arc {
    let edges = stations_on(&potentials.firsts, channel);
    Arc {
        to: start_of(graph, &potentials.firsts, channel, !is_back),
        channel,
        is_back,
        edges,
        cost: cost_along(potentials, channel, is_back, edges),
    }
}

/// The arcs by where they begin: channel c is number 2c, and back along it 2c + 1.
fn begins(
    alloc: Global,
    graph: &Graph,
    potentials: &Potentials,
    channels: u32,
) -> Result<Groups, AllocError> {
    let mut starts = Vec::new(alloc);
    for channel in 0..channels {
        starts.push(start_of(graph, &potentials.firsts, channel, false))?;
        starts.push(start_of(graph, &potentials.firsts, channel, true))?;
    }
    groups_of(alloc, &starts, graph.nodes)
}

/// Appends the arcs with these numbers.
fn push_arcs(
    arcs: &mut Arcs,
    graph: &Graph,
    potentials: &Potentials,
    numbers: &[u32],
) -> Result<(), AllocError> {
    for number in numbers {
        arcs.all
            .push(arc_along(graph, potentials, number / 2, number % 2 == 1))?;
    }
    Ok(())
}

/// The arcs of so many channels.
pub(crate) fn arcs_of(
    alloc: Global,
    graph: &Graph,
    potentials: &Potentials,
    channels: u32,
) -> Result<Arcs, AllocError> {
    let groups = begins(alloc, graph, potentials, channels)?;
    let mut arcs = Arcs {
        starts: Vec::new(alloc),
        all: Vec::new(alloc),
    };
    for v in 0..graph.nodes {
        arcs.end_list()?;
        push_arcs(&mut arcs, graph, potentials, groups.at(v))?;
    }
    arcs.end_list()?;
    Ok(arcs)
}
